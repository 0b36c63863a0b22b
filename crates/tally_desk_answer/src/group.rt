//! The codes of a group of lists.

ghost use Rattle.std.specs.Prelude.{◌≡◌, ◌≤◌, ◌+◌, ◌++◌, ◌||◌, length, vec_len, vec_capacity};
ghost use Rattle.tally_frac.specs.Limits.{most_lists};
ghost use Rattle.tally_desk_answer.specs.Outcome.{group_text, marked_lists, quoted_code};
ghost use Rattle.tally_desk_answer.specs.Outcome.{quoted_codes};
ghost use Rattle.tally_desk_answer.specs.internal.Group.{code_in_group};

use crate::push::push;
use tally_returns::ListSet;
use tally_setup::ListEntry;

/// Appends the code of a list in quotes.
fn push_code(out: &mut Vec<u8>, list: &ListEntry)
    requires { vec_len out.old + 18 ≤ vec_capacity out.old }
    ensures items { out.new.items ≡ out.old.items ++ quoted_code list.now }
    ensures len { vec_len out.new ≤ vec_len out.old + 18 }
    ensures room { vec_capacity out.old ≤ vec_capacity out.new }
{
    push(out, b"\"");
    push(out, list.code.as_bytes());
    push(out, b"\"");
}

/// Appends the code of a list that is marked, after others if any have come, and answers whether
/// any has come now.
fn push_marked(out: &mut Vec<u8>, list: &ListEntry, others: bool, mark: bool) -> bool
    requires { vec_len out.old + 19 ≤ vec_capacity out.old }
    ensures items { out.new.items ≡ out.old.items ++ code_in_group others mark list.now }
    ensures len { vec_len out.new ≤ vec_len out.old + 19 }
    ensures room { vec_capacity out.old ≤ vec_capacity out.new }
    ensures begun { result ≡ (others || mark) }
{
    if !mark {
        return others;
    }
    if !others {
        push_code(out, list);
        return true;
    }
    push(out, b",");
    push_code(out, list);
    true
}

fn push_members(out: &mut Vec<u8>, lists: &[ListEntry], group: &ListSet)
    requires few { length lists.now ≤ most_lists }
    requires room { vec_len out.old + 1140 ≤ vec_capacity out.old }
    ensures items { out.new.items ≡
        out.old.items ++ quoted_codes (marked_lists lists.now group.now) }
    ensures len { vec_len out.new ≤ vec_len out.old + 1140 }
    ensures room { vec_capacity out.old ≤ vec_capacity out.new }
{
    let mut begun = false;
    let mut place = 1;
    for list in lists {
        begun = push_marked(out, list, begun, group.has(place));
        place += 1;
    }
}

/// Appends the codes of a group of lists, in order of place.
pub(crate) fn push_group(out: &mut Vec<u8>, lists: &[ListEntry], group: &ListSet)
    requires few { length lists.now ≤ most_lists }
    requires room { vec_len out.old + 1142 ≤ vec_capacity out.old }
    ensures items { out.new.items ≡ out.old.items ++ group_text lists.now group.now }
    ensures len { vec_len out.new ≤ vec_len out.old + 1142 }
    ensures room { vec_capacity out.old ≤ vec_capacity out.new }
{
    push(out, b"[");
    push_members(out, lists, group);
    push(out, b"]");
}
