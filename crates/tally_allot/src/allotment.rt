//! Seats from votes.

ghost use Rattle.std.specs.Prelude.{◌≡◌, ◌≤◌, ◌<◌, ◌↔◌, IsTrue, IfOk, IfErr, OnOk, length, sum};
ghost use Rattle.tally_frac.specs.Limits.{most_lists, most_seats};
ghost use Rattle.tally_allot_award.specs.internal.KeptPoll.{kept_poll};
ghost use Rattle.tally_law.specs.Allotment.{IsAllotment, divisors as by_divisors, hare};
ghost use Rattle.tally_law.specs.Conditions.{AreLimitsKept};
ghost use Rattle.tally_law.specs.Poll.{HasEligible};
ghost use Rattle.tally_allot.specs.AllotFault.{IsFaultOf, IsNeedFaultOf, IsNeedOrNone};
ghost use Rattle.tally_allot.specs.internal.OnTerms.{IsUnderLotOn};
ghost use Rattle.tally_allot_award.specs.internal.Needs.{IsNeedOn};
ghost use Rattle.tally_law.specs.LotNeed.{IsLotTaken, IsAllotmentUnderLot};
ghost use Rattle.tally_law.specs.Rules.{rule_of, poll_of};
ghost use Rattle.tally_allot_award.specs.internal.Terms.{AreSound};

use crate::fault::AllotFault;
use crate::lot::check_lot;
use crate::under_lot::{award_under_lot, seats_by_remainders};
use std::alloc::Global;
use tally_allot_award::{
    Contest, DivisorContest, HareContest, Need, Poll, contested_seats, has_eligible, is_fair,
    need_of,
};
use tally_frac::Divisors;
use tally_setup::{LotRule, Profile};

/// The seats of each list, in order of place (LOREG article 163.1). `lot` has the places of the
/// lists that a lot was drawn among, in its order, and is empty where no lot was drawn. It refuses
/// in the order of `AllotFault`.
pub fn allot(
    alloc: Global,
    profile: &Profile,
    seats: u32,
    votes: &[u64],
    blank: u64,
    lot: &[u32],
) -> Result<Vec<u32>, AllotFault>
    requires { AreLimitsKept profile.now seats votes.now blank }
    ensures allotment { IfOk result (λ given.
        IsAllotment (rule_of profile.now) (poll_of profile.now votes.now blank) lot.now seats
        given.items) }
    ensures lot_taken { OnOk result
        (IsLotTaken (rule_of profile.now) (poll_of profile.now votes.now blank) seats lot.now) }
    ensures eligible { OnOk result (HasEligible (poll_of profile.now votes.now blank)) }
    ensures fault { IfErr result
        (IsFaultOf (rule_of profile.now) (poll_of profile.now votes.now blank) seats lot.now) }
{
    let poll = Poll::new(profile, votes, blank);
    match profile.method.divisor_rule() {
        Some(divisors) => seats_by_divisors(alloc, divisors, profile.lot, &poll, seats, lot),
        None => seats_by_quotas(alloc, &poll, seats, lot),
    }
}

pub(crate) fn seats_by_divisors<D: Divisors + Copy>(
    alloc: Global,
    divisors: D,
    lot_rule: LotRule,
    poll: &Poll,
    seats: u32,
    lot: &[u32],
) -> Result<Vec<u32>, AllotFault>
    requires some_seat { 1 ≤ seats }
    requires few_seats { seats ≤ most_seats }
    ensures allotment { IfOk result (λ given.
        IsAllotment (by_divisors (D.divisor divisors) (D.unit_of divisors) lot_rule)
        (kept_poll poll.now) lot.now seats given.items) }
    ensures lot_taken { OnOk result
        (IsLotTaken (by_divisors (D.divisor divisors) (D.unit_of divisors) lot_rule)
        (kept_poll poll.now) seats lot.now) }
    ensures eligible { OnOk result (HasEligible (kept_poll poll.now)) }
    ensures fault { IfErr result
        (IsFaultOf (by_divisors (D.divisor divisors) (D.unit_of divisors) lot_rule)
        (kept_poll poll.now) seats lot.now) }
{
    let given = award_under_lot(alloc, divisors, lot_rule, poll, seats, lot)?;
    Ok(given.seats)
}

fn seats_by_quotas(
    alloc: Global,
    poll: &Poll,
    seats: u32,
    lot: &[u32],
) -> Result<Vec<u32>, AllotFault>
    requires some_seat { 1 ≤ seats }
    requires few_seats { seats ≤ most_seats }
    ensures allotment { IfOk result (λ given.
        IsAllotment hare (kept_poll poll.now) lot.now seats given.items) }
    ensures lot_taken { OnOk result (IsLotTaken hare (kept_poll poll.now) seats lot.now) }
    ensures eligible { OnOk result (HasEligible (kept_poll poll.now)) }
    ensures fault { IfErr result (IsFaultOf hare (kept_poll poll.now) seats lot.now) }
{
    let contest = HareContest::new(poll, lot, seats);
    seats_by_remainders(alloc, &contest)
}

/// The lot that is needed, or `None` where the votes decide (LOREG article 163.1 d)). The only
/// faults that it answers are `NoEligible` and `Memory`.
pub fn lot_need(
    alloc: Global,
    profile: &Profile,
    seats: u32,
    votes: &[u64],
    blank: u64,
) -> Result<Option<Need>, AllotFault>
    requires { AreLimitsKept profile.now seats votes.now blank }
    ensures need { IfOk result
        (IsNeedOrNone (rule_of profile.now) (poll_of profile.now votes.now blank) seats) }
    ensures eligible { OnOk result (HasEligible (poll_of profile.now votes.now blank)) }
    ensures fault { IfErr result (IsNeedFaultOf (poll_of profile.now votes.now blank)) }
{
    let poll = Poll::new(profile, votes, blank);
    match profile.method.divisor_rule() {
        Some(divisors) => need_by_divisors(alloc, divisors, profile.lot, &poll, seats),
        None => need_by_quotas(alloc, &poll, seats),
    }
}

fn need_by_divisors<D: Divisors + Drop>(
    alloc: Global,
    divisors: D,
    lot_rule: LotRule,
    poll: &Poll,
    seats: u32,
) -> Result<Option<Need>, AllotFault>
    requires some_seat { 1 ≤ seats }
    requires few_seats { seats ≤ most_seats }
    ensures need { IfOk result
        (IsNeedOrNone (by_divisors (D.divisor divisors) (D.unit_of divisors) lot_rule)
        (kept_poll poll.now) seats) }
    ensures eligible { OnOk result (HasEligible (kept_poll poll.now)) }
    ensures fault { IfErr result (IsNeedFaultOf (kept_poll poll.now)) }
{
    let contest = DivisorContest::new(divisors, lot_rule, poll, &[], seats);
    need_in(alloc, &contest)
}

fn need_by_quotas(alloc: Global, poll: &Poll, seats: u32) -> Result<Option<Need>, AllotFault>
    requires some_seat { 1 ≤ seats }
    requires few_seats { seats ≤ most_seats }
    ensures need { IfOk result (IsNeedOrNone hare (kept_poll poll.now) seats) }
    ensures eligible { OnOk result (HasEligible (kept_poll poll.now)) }
    ensures fault { IfErr result (IsNeedFaultOf (kept_poll poll.now)) }
{
    let contest = HareContest::new(poll, &[], seats);
    need_in(alloc, &contest)
}

fn need_in<C: Contest>(alloc: Global, contest: &C) -> Result<Option<Need>, AllotFault>
    requires sound { AreSound (C.terms contest.now) }
    ensures need { IfOk result (IsNeedOn (C.terms contest.now)) }
    ensures eligible { OnOk result (HasEligible (C.terms contest.now).poll) }
    ensures fault { IfErr result (IsNeedFaultOf (C.terms contest.now).poll) }
{
    if !has_eligible(contest) {
        return Err(AllotFault::NoEligible);
    }
    let seats = contested_seats(alloc, contest)?;
    Ok(need_of(contest, &seats))
}

/// Whether `given` are the seats of each list, in order of place, and the lot is the one to be
/// taken: where `allot`, with ample memory, answers these very seats. It looks at the inequality of
/// the allotment itself, over all pairs of lists, and takes no memory.
pub fn is_allotment(
    profile: &Profile,
    seats: u32,
    votes: &[u64],
    blank: u64,
    lot: &[u32],
    given: &[u32],
) -> bool
    requires { AreLimitsKept profile.now seats votes.now blank }
    ensures { IsTrue result ↔
        IsAllotmentUnderLot (rule_of profile.now) (poll_of profile.now votes.now blank) lot.now
        seats given.now }
{
    let poll = Poll::new(profile, votes, blank);
    match profile.method.divisor_rule() {
        Some(divisors) => {
            is_allotment_by_divisors(divisors, profile.lot, &poll, seats, lot, given)
        }
        None => is_allotment_by_quotas(&poll, seats, lot, given),
    }
}

fn is_allotment_by_divisors<D: Divisors + Drop>(
    divisors: D,
    lot_rule: LotRule,
    poll: &Poll,
    seats: u32,
    lot: &[u32],
    given: &[u32],
) -> bool
    requires some_seat { 1 ≤ seats }
    requires few_seats { seats ≤ most_seats }
    ensures { IsTrue result ↔
        IsAllotmentUnderLot (by_divisors (D.divisor divisors) (D.unit_of divisors) lot_rule)
        (kept_poll poll.now) lot.now seats given.now }
{
    let contest = DivisorContest::new(divisors, lot_rule, poll, lot, seats);
    is_allotment_in(&contest, given)
}

fn is_allotment_by_quotas(poll: &Poll, seats: u32, lot: &[u32], given: &[u32]) -> bool
    requires some_seat { 1 ≤ seats }
    requires few_seats { seats ≤ most_seats }
    ensures { IsTrue result ↔
        IsAllotmentUnderLot hare (kept_poll poll.now) lot.now seats given.now }
{
    let contest = HareContest::new(poll, lot, seats);
    is_allotment_in(&contest, given)
}

fn is_allotment_in<C: Contest>(contest: &C, given: &[u32]) -> bool
    requires sound { AreSound (C.terms contest.now) }
    ensures { IsTrue result ↔ IsUnderLotOn (C.terms contest.now) given.now }
{
    if !has_eligible(contest) {
        return false;
    }
    if given.len() != contest.count() {
        return false;
    }
    if sum_of(given) != u64::from(contest.seats()) {
        return false;
    }
    if !is_fair(contest, given) {
        return false;
    }
    match check_lot(contest, given) {
        Ok(()) => true,
        Err(_) => false,
    }
}

/// The sum of up to 60 numbers.
fn sum_of(numbers: &[u32]) -> u64
    requires { length numbers.now ≤ most_lists }
    ensures { result ≡ sum numbers.now }
{
    let mut total = 0;
    for number in numbers {
        total += u64::from(*number);
    }
    total
}
