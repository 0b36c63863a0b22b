//! Whether a lot is needed.

ghost use Rattle.std.specs.Prelude.{◌≡◌, ◌<◌, ◌≤◌, ◌↔◌, IsTrue, length};
ghost use Rattle.tally_frac.specs.Limits.{most_lists};
ghost use Rattle.tally_allot_award.specs.internal.Needs.{IsNeedOn};
ghost use Rattle.tally_allot_award.specs.internal.Orders.{IsOrderOfEquals, MayBeTaken};
ghost use Rattle.tally_allot_award.specs.internal.Sums.{sum_before, holds_at};
ghost use Rattle.tally_allot_award.specs.internal.Terms.{AreFairSeats, AreSound, HaveVotes};

use crate::contest::{Contest, highest_next, lowest_last};
use crate::lot::is_order_of;
use tally_frac::ListSet;

/// The lot that is needed where the votes leave a choice (LOREG article 163.1 d)): the lists among
/// which it decides, and the seats in question.
#[derive(Clone, Copy)]
pub struct Need {
    /// The lists among which the lot decides: all the eligible lists of one number of votes.
    pub group: ListSet,
    /// The seats in question, 1 or more.
    pub seats: u32,
}

/// The lot that is needed, seen from seats that the votes allow: the pair that won last and the
/// highest that did not win tie.
pub fn need_of<C: Contest>(contest: &C, seats: &[u32]) -> Option<Need>
    requires sound { AreSound (C.terms contest.now) }
    requires fair { AreFairSeats (C.terms contest.now) seats.now }
    ensures { IsNeedOn (C.terms contest.now) result }
{
    let Some(last) = lowest_last(contest, seats) else {
        return None;
    };
    let Some(next) = highest_next(contest, seats) else {
        return None;
    };
    let last_held = seats[last];
    let next_held = seats[next];
    if contest.is_above_by_votes(last, last_held, next, next_held + 1) {
        return None;
    }
    let tied_votes = contest.votes(last);
    let group = lists_with(contest, tied_votes);
    Some(Need {
        group,
        seats: count_holding(&group, seats, last_held),
    })
}

/// Whether the contest's lot may be the one to be taken: none, or all the eligible lists of one
/// number of votes in some order. Any other is wrong, whether or not a lot is needed.
pub fn may_be_taken<C: Contest>(contest: &C) -> bool
    requires sound { AreSound (C.terms contest.now) }
    ensures { IsTrue result ↔ MayBeTaken (C.terms contest.now).poll (C.terms contest.now).lot }
{
    if contest.lot().is_empty() {
        return true;
    }
    is_order_of_equals(contest, contest.lot())
}

/// Whether a lot names all the eligible lists of one number of votes, each once, and no other.
fn is_order_of_equals<C: Contest>(contest: &C, lot: &[u32]) -> bool
    requires sound { AreSound (C.terms contest.now) }
    requires some { 1 ≤ length lot.now }
    ensures { IsTrue result ↔ IsOrderOfEquals (C.terms contest.now).poll lot.now }
{
    let first = lot[0] as usize;
    if first < 1 || first > contest.count() {
        return false;
    }
    if !contest.is_eligible(first - 1) {
        return false;
    }
    let group = lists_with(contest, contest.votes(first - 1));
    is_order_of(&group, lot)
}

/// The eligible lists with this many votes.
fn lists_with<C: Contest>(contest: &C, votes: u64) -> ListSet
    requires sound { AreSound (C.terms contest.now) }
    ensures { HaveVotes (C.terms contest.now).poll votes result }
{
    let mut lists = ListSet::empty();
    for list in 0..contest.count() {
        if contest.is_eligible(list) && contest.votes(list) == votes {
            lists.insert(list);
        }
    }
    lists
}

/// How many lists of a group hold this many seats.
fn count_holding(group: &ListSet, seats: &[u32], held: u32) -> u32
    requires { length seats.now ≤ most_lists }
    ensures { result ≡ sum_before (holds_at group.now seats.now held) (length seats.now) }
{
    let mut holders = 0;
    for list in 0..seats.len() {
        if group.has_list(list) && seats[list] == held {
            holders += 1;
        }
    }
    holders
}
