//! Groups of lists among which a lot decides.

ghost use Rattle.std.specs.Prelude.{◌≤◌, IsTrue, sum};
ghost use Rattle.tally_law.specs.Conditions.{AreLimitsKept};

use crate::lines::{cut, number, sums};
use std::alloc::Global;
use std::test::Fail;
use tally_allot::{Need, lot_need};
use tally_setup::{Base, LotRule, Method, Profile};

/// The most votes of a poll.
const MOST: u64 = 5_000_000_000;

const RULE: Profile = Profile {
    method: Method::DHondt,
    threshold: 0,
    base: Base::Valid,
    lot: LotRule::Fixed,
};

fn are_few(votes: &[u64]) -> bool
    ensures { IsTrue result → sum votes.now ≤ MOST }
{
    let mut left = MOST;
    for list in votes {
        if *list > left {
            return false;
        }
        left -= *list;
    }
    true
}

fn is_within_limits(seats: u32, votes: &[u64]) -> bool
    ensures { IsTrue result → AreLimitsKept RULE seats votes.now 0 }
{
    let lists = votes.len();
    if lists < 1 || lists > 60 || seats < 1 || seats > 500 {
        return false;
    }
    are_few(votes)
}

/// The lot that is needed, by D'Hondt, of a line such as `3: 100 100`: the seats, and the votes of
/// the lists.
pub(crate) fn need_of(alloc: Global, line: &str) -> Result<Need, Fail> {
    let (seats, votes) = cut(line, ": ");
    let seats = number(seats);
    let votes = sums(alloc, votes)?;
    if !is_within_limits(seats, &votes) {
        return Err(Fail::from("no poll"));
    }
    match lot_need(alloc, &RULE, seats, &votes, 0) {
        Ok(Some(need)) => Ok(need),
        _ => Err(Fail::from("no lot")),
    }
}
