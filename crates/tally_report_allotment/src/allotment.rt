//! Seats from votes.

ghost use Rattle.std.specs.Prelude.{◌≡◌, ◌<◌, ◌++◌, ℕ, Some, IfOk, IfErr, OnOk, length};
ghost use Rattle.std.specs.Prelude.{string_bytes};
ghost use Rattle.tally_allot.specs.AllotFault.{IsFaultOf};
ghost use Rattle.tally_allot_award.specs.internal.KeptPoll.{kept_poll};
ghost use Rattle.tally_report_lines.specs.Columns.{line_end, lines_from};
ghost use Rattle.tally_report_lines.specs.internal.Awards.{AreAwardsAmong};
ghost use Rattle.tally_report_allotment.specs.AllotmentText.{IsAllotmentText, allot_line};
ghost use Rattle.tally_report_allotment.specs.AllotmentText.{allotment_text, list_columns};
ghost use Rattle.tally_report_allotment.specs.AllotmentText.{opening_lines};
ghost use Rattle.tally_report_allotment.specs.Question.{poll_asked, question, rule_asked};
ghost use Rattle.tally_report_allotment.specs.internal.Allotments.{details_of};

use crate::found::{Found, found_beside};
use crate::lines::{push_closing, push_list, push_method, push_terms};
use crate::question::Asked;
use std::alloc::{AllocError, Global};
use tally_allot::{AllotFault, allot};
use tally_allot_award::Poll;
use tally_setup::{Base, Code, base_of};

/// The seats that votes come to: what was asked; of each list its votes, their share, whether it is
/// eligible and its seats, and under a divisor rule the votes that it is short of one more; the
/// list that is next; and with `with_awards` the seats in the order of their award, or the quotas.
/// It refuses as `allot` does.
pub fn allotment_text(alloc: Global, asked: &Asked, with_awards: bool) -> Result<String, AllotFault>
    ensures text { IfOk result (λ text.
        IsAllotmentText (question asked.now) with_awards (string_bytes text)) }
    ensures fault { IfErr result (IsFaultOf (rule_asked (question asked.now))
        (poll_asked (question asked.now)) asked.now.seats asked.now.lot.items) }
{
    let seats = allot(
        alloc,
        &asked.profile,
        asked.seats,
        &asked.votes,
        asked.blank,
        &asked.lot,
    )?;
    let found = found_beside(alloc, asked, &seats, with_awards)?;
    Ok(text_of(alloc, asked, &seats, &found, with_awards)?)
}

/// The text of these seats, and of what was found beside them.
fn text_of(
    alloc: Global,
    asked: &Asked,
    seats: &[u32],
    found: &Found,
    with_awards: bool,
) -> Result<String, AllocError>
    requires seats { length seats.now ≡ length asked.now.lists.items }
    requires next { (m : ℕ) → found.now.next ≡ Some m → m < length asked.now.lists.items }
    requires won { AreAwardsAmong (length asked.now.lists.items) found.now.won.items }
    ensures { IfOk result (λ text. string_bytes text ≡ allotment_text (question asked.now) seats.now
        (details_of found.now) with_awards) }
{
    let poll = Poll::new(&asked.profile, &asked.votes, asked.blank);
    let mut text = String::new(alloc);
    push_opening(&mut text, asked)?;
    push_lists(&mut text, asked, &poll, seats, found, &asked.lists)?;
    push_closing(&mut text, asked, &poll, seats, found, with_awards)?;
    Ok(text)
}

/// The question, and the valid votes, which are those of the lists and the blank ones.
fn push_opening(text: &mut String, asked: &Asked) -> Result<(), AllocError>
    ensures { OnOk result (string_bytes text.new
        ≡ string_bytes text.old ++ opening_lines (question asked.now)) }
{
    text.push_str("ALLOT ")?;
    push_method(text, asked)?;
    push_terms(text, asked)?;
    let valid = base_of(Base::Valid, &asked.votes, asked.blank);
    writeln!(text, "valid {valid} blank {}", asked.blank)
}

fn push_lists(
    text: &mut String,
    asked: &Asked,
    poll: &Poll,
    seats: &[u32],
    found: &Found,
    lists: &[Code],
) -> Result<(), AllocError>
    requires seats { length seats.now ≡ length lists.now }
    requires votes { length asked.now.votes.items ≡ length lists.now }
    requires same { poll.now.votes.now ≡ asked.now.votes.items }
    requires poll { kept_poll poll.now ≡ poll_asked (question asked.now) }
    ensures { OnOk result (string_bytes text.new ≡ string_bytes text.old
        ++ lines_from (allot_line (question asked.now) seats.now (details_of found.now)) 0
        lists.now) }
{
    for (place, code) in lists.iter().enumerate() {
        push_line(text, asked, poll, seats[place], found, place, code)?;
    }
    Ok(())
}

/// The line of the list at a place, which has this code and these seats.
fn push_line(
    text: &mut String,
    asked: &Asked,
    poll: &Poll,
    seats: u32,
    found: &Found,
    place: usize,
    code: &Code,
) -> Result<(), AllocError>
    requires place { place < length asked.now.votes.items }
    requires same { poll.now.votes.now ≡ asked.now.votes.items }
    requires poll { kept_poll poll.now ≡ poll_asked (question asked.now) }
    ensures { OnOk result (string_bytes text.new ≡ string_bytes text.old
        ++ list_columns (question asked.now) (details_of found.now) seats place code.now
        ++ line_end) }
{
    push_list(text, asked, poll, seats, found, place, code)?;
    text.push_str("\n")
}
