//! Least seats.

ghost use Rattle.std.specs.Prelude.{◌≡◌, ℕ, ◌<◌, ◌≤◌, IfOk, IfErr, OnOk, length, slice_index};
ghost use Rattle.tally_frac.specs.Limits.{most_lists, most_seats};
ghost use Rattle.tally_allot_award.specs.internal.KeptPoll.{kept_poll};
ghost use Rattle.tally_allot_award.specs.internal.Terms.{AreSound};
ghost use Rattle.tally_law.specs.Allotment.{divisors as by_divisors, hare};
ghost use Rattle.tally_law.specs.Conditions.{AreLimitsKept};
ghost use Rattle.tally_law.specs.Poll.{HasEligible};
ghost use Rattle.tally_law.specs.Rules.{poll_of, rule_of};
ghost use Rattle.tally_allot.specs.AllotFault.{IsNeedFaultOf};
ghost use Rattle.tally_allot.specs.LeastSeats.{AreLeastSeats};
ghost use Rattle.tally_allot.specs.internal.LeastSteps.{AreLeastOn, IsFewestHeld, with_fewest};

use crate::fault::AllotFault;
use std::alloc::Global;
use tally_allot_award::{
    Contest, DivisorContest, HareContest, Poll, contested_seats, has_eligible, need_of,
};
use tally_frac::{Divisors, ListSet};
use tally_setup::{LotRule, Profile};

/// The seats that each list has in any case, in order of place: the least that it holds in any
/// allotment that the votes allow, whatever lot may be drawn (LOREG article 163.1 d)). Where the
/// votes decide, these are the seats. The only faults that it answers are `NoEligible` and
/// `Memory`.
pub fn least_seats(
    alloc: Global,
    profile: &Profile,
    seats: u32,
    votes: &[u64],
    blank: u64,
) -> Result<Vec<u32>, AllotFault>
    requires { AreLimitsKept profile.now seats votes.now blank }
    ensures least { IfOk result (λ least.
        AreLeastSeats (rule_of profile.now) (poll_of profile.now votes.now blank) seats
        least.items) }
    ensures eligible { OnOk result (HasEligible (poll_of profile.now votes.now blank)) }
    ensures fault { IfErr result (IsNeedFaultOf (poll_of profile.now votes.now blank)) }
{
    let poll = Poll::new(profile, votes, blank);
    match profile.method.divisor_rule() {
        Some(divisors) => least_by_divisors(alloc, divisors, profile.lot, &poll, seats),
        None => least_by_quotas(alloc, &poll, seats),
    }
}

fn least_by_divisors<D: Divisors + Drop>(
    alloc: Global,
    divisors: D,
    lot_rule: LotRule,
    poll: &Poll,
    seats: u32,
) -> Result<Vec<u32>, AllotFault>
    requires some_seat { 1 ≤ seats }
    requires few_seats { seats ≤ most_seats }
    ensures least { IfOk result (λ least.
        AreLeastSeats (by_divisors (D.divisor divisors) (D.unit_of divisors) lot_rule)
        (kept_poll poll.now) seats least.items) }
    ensures eligible { OnOk result (HasEligible (kept_poll poll.now)) }
    ensures fault { IfErr result (IsNeedFaultOf (kept_poll poll.now)) }
{
    let contest = DivisorContest::new(divisors, lot_rule, poll, &[], seats);
    least_in(alloc, &contest)
}

fn least_by_quotas(alloc: Global, poll: &Poll, seats: u32) -> Result<Vec<u32>, AllotFault>
    requires some_seat { 1 ≤ seats }
    requires few_seats { seats ≤ most_seats }
    ensures least { IfOk result (λ least.
        AreLeastSeats hare (kept_poll poll.now) seats least.items) }
    ensures eligible { OnOk result (HasEligible (kept_poll poll.now)) }
    ensures fault { IfErr result (IsNeedFaultOf (kept_poll poll.now)) }
{
    let contest = HareContest::new(poll, &[], seats);
    least_in(alloc, &contest)
}

/// One allotment, but each list of the group that a lot is needed among has only the fewest seats
/// of any list of that group. The lists of a group have that many seats or one more. A list that
/// the lot names last has the fewest.
fn least_in<C: Contest>(alloc: Global, contest: &C) -> Result<Vec<u32>, AllotFault>
    requires sound { AreSound (C.terms contest.now) }
    ensures least { IfOk result (λ least. AreLeastOn (C.terms contest.now) least.items) }
    ensures eligible { OnOk result (HasEligible (C.terms contest.now).poll) }
    ensures fault { IfErr result (IsNeedFaultOf (C.terms contest.now).poll) }
{
    if !has_eligible(contest) {
        return Err(AllotFault::NoEligible);
    }
    let mut held = contested_seats(alloc, contest)?;
    let Some(need) = need_of(contest, &held) else {
        return Ok(held);
    };
    let fewest = fewest_held(&need.group, &held, contest.seats());
    give_fewest(&need.group, &mut held, fewest);
    Ok(held)
}

/// The fewest seats that a list of a group holds.
fn fewest_held(group: &ListSet, held: &[u32], most: u32) -> u32
    requires { length held.now ≤ most_lists }
    ensures { IsFewestHeld group.now held.now most (length held.now) result }
{
    let mut fewest = most;
    for list in 0..held.len() {
        if group.has_list(list) && held[list] < fewest {
            fewest = held[list];
        }
    }
    fewest
}

/// Gives each list of a group this many seats.
fn give_fewest(group: &ListSet, held: &mut [u32], fewest: u32)
    requires { length held.old ≤ most_lists }
    ensures { (l : ℕ) → l < length held.old →
        slice_index held.new l ≡ with_fewest group.now held.old fewest l }
{
    for list in 0..held.len() {
        if group.has_list(list) {
            held[list] = fewest;
        }
    }
}
