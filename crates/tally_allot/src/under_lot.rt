//! The award under the lot that is to be taken.

ghost use Rattle.std.specs.Prelude.{◌≤◌, IfOk, IfErr, OnOk, length};
ghost use Rattle.tally_frac.specs.Limits.{most_seats};
ghost use Rattle.tally_allot.specs.AllotFault.{IsFaultOf};
ghost use Rattle.tally_allot.specs.internal.OnTerms.{IsAllotmentOn, IsFaultOn, IsLotTakenOn};
ghost use Rattle.tally_allot_award.specs.internal.KeptPoll.{kept_poll};
ghost use Rattle.tally_law.specs.Allotment.{divisors as by_divisors};
ghost use Rattle.tally_allot_award.specs.internal.ContestTerms.{divisor_terms, hare_terms};
ghost use Rattle.tally_law.specs.LotNeed.{IsLotTaken};
ghost use Rattle.tally_law.specs.Poll.{HasEligible};
ghost use Rattle.tally_law.specs.DivisorAllotment.{IsDivisorAllotment};
ghost use Rattle.tally_allot_award.specs.internal.Terms.{AreSound, IsProperLot};
ghost use Rattle.tally_allot_award.specs.internal.Terms.{placed_divisor_race};
ghost use Rattle.tally_allot_award.specs.internal.Terms.{placed_race};
ghost use Rattle.tally_allot_award.specs.internal.WonSeat.{AreRows, AreWon};

use crate::fault::AllotFault;
use crate::lot::check_lot;
use std::alloc::Global;
use tally_allot_award::{
    AwardedSeats, DivisorContest, HareContest, Poll, award_from_heap, award_remainders,
    has_eligible, may_be_taken,
};
use tally_frac::Divisors;
use tally_setup::LotRule;

/// Gives all the seats under the lot that is to be taken. It refuses in the order of `AllotFault`.
pub(crate) fn award_under_lot<D: Divisors + Copy>(
    alloc: Global,
    divisors: D,
    lot_rule: LotRule,
    poll: &Poll,
    seats: u32,
    lot: &[u32],
) -> Result<AwardedSeats, AllotFault>
    requires some_seat { 1 ≤ seats }
    requires few_seats { seats ≤ most_seats }
    ensures allotment { IfOk result (λ awarded.
        IsDivisorAllotment (D.divisor divisors) (D.unit_of divisors) lot_rule
        (kept_poll poll.now) lot.now seats awarded.seats.items) }
    ensures won { IfOk result (λ awarded.
        AreWon (placed_divisor_race (D.divisor divisors) lot_rule
        (kept_poll poll.now) lot.now seats)
        awarded.seats.items awarded.pairs.items) }
    ensures rows { IfOk result (λ awarded.
        AreRows (length poll.now.votes.now) awarded.pairs.items) }
    ensures proper { OnOk result (IsProperLot (kept_poll poll.now) lot.now) }
    ensures lot_taken { OnOk result
        (IsLotTaken (by_divisors (D.divisor divisors) (D.unit_of divisors) lot_rule)
        (kept_poll poll.now) seats lot.now) }
    ensures eligible { OnOk result (HasEligible (kept_poll poll.now)) }
    ensures fault { IfErr result
        (IsFaultOf (by_divisors (D.divisor divisors) (D.unit_of divisors) lot_rule)
        (kept_poll poll.now) seats lot.now) }
{
    let contest = DivisorContest::new(divisors, lot_rule, poll, lot, seats);
    award_in(alloc, &contest)
}

fn award_in<D: Divisors>(
    alloc: Global,
    contest: &DivisorContest<D>,
) -> Result<AwardedSeats, AllotFault>
    requires sound { AreSound (divisor_terms D.divisor D.unit_of contest.now) }
    ensures allotment { IfOk result (λ awarded.
        IsAllotmentOn (divisor_terms D.divisor D.unit_of contest.now) awarded.seats.items) }
    ensures won { IfOk result (λ awarded.
        AreWon (placed_race (divisor_terms D.divisor D.unit_of contest.now)) awarded.seats.items
        awarded.pairs.items) }
    ensures rows { IfOk result (λ awarded.
        AreRows (length contest.now.poll.votes.now) awarded.pairs.items) }
    ensures proper { OnOk result (IsProperLot (kept_poll contest.now.poll) contest.now.lot.now) }
    ensures lot_taken { OnOk result
        (IsLotTakenOn (divisor_terms D.divisor D.unit_of contest.now)) }
    ensures eligible { OnOk result (HasEligible (kept_poll contest.now.poll)) }
    ensures fault { IfErr result
        (IsFaultOn (divisor_terms D.divisor D.unit_of contest.now)) }
{
    if !has_eligible(contest) {
        return Err(AllotFault::NoEligible);
    }
    // Under any other lot places may be alike, and it is wrong whatever the votes come to.
    if !may_be_taken(contest) {
        return Err(AllotFault::WrongLot);
    }
    let awarded = award_from_heap(alloc, contest)?;
    // Whether a lot is needed shows in any award that the votes allow.
    check_lot(contest, &awarded.seats)?;
    Ok(awarded)
}

/// The seats of each list under the lot that is to be taken. It refuses in the order of
/// `AllotFault`.
pub(crate) fn seats_by_remainders(
    alloc: Global,
    contest: &HareContest,
) -> Result<Vec<u32>, AllotFault>
    requires sound { AreSound (hare_terms contest.now) }
    ensures allotment { IfOk result (λ seats. IsAllotmentOn (hare_terms contest.now) seats.items) }
    ensures lot_taken { OnOk result (IsLotTakenOn (hare_terms contest.now)) }
    ensures eligible { OnOk result (HasEligible (kept_poll contest.now.poll)) }
    ensures fault { IfErr result (IsFaultOn (hare_terms contest.now)) }
{
    if !has_eligible(contest) {
        return Err(AllotFault::NoEligible);
    }
    let seats = award_remainders(alloc, contest)?;
    check_lot(contest, &seats)?;
    Ok(seats)
}
