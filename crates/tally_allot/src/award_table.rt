//! Awards in order.

ghost use Rattle.std.specs.Prelude.{◌≡◌, ◌≢◌, ◌≤◌, IfOk, IfErr, OnOk, length};
ghost use Rattle.tally_frac.specs.Limits.{most_seats};
ghost use Rattle.tally_setup.specs.declared.profile.LotRule.{LotRule as rule_of_lots};
ghost use Rattle.tally_setup.specs.declared.profile.Method.TheVariants.{Hare as by_hare};
ghost use Rattle.tally_allot_award.specs.internal.KeptPoll.{kept_poll};
ghost use Rattle.tally_law.specs.Allotment.{divisors as by_divisors};
ghost use Rattle.tally_allot.specs.AllotFault.{IsFaultOf};
ghost use Rattle.tally_allot.specs.Awards as spec;
ghost use Rattle.tally_allot.specs.Awards.{AreAwards, AreAwardsBy};
ghost use Rattle.tally_allot.specs.internal.AwardTable.{IsTableOf};
ghost use Rattle.tally_law.specs.Conditions.{AreLimitsKept};
ghost use Rattle.tally_law.specs.Rules.{poll_of, rule_of};
ghost use Rattle.tally_allot_award.specs.internal.WonSeat.{AreRows, IsRow};
ghost use Rattle.tally_law.specs.LotNeed.{IsLotTaken};
ghost use Rattle.tally_law.specs.Poll.{HasEligible};

use crate::award::Award;
use crate::fault::AllotFault;
use crate::under_lot::award_under_lot;
use std::alloc::{AllocError, Global};
use tally_allot_award::{AwardedSeats, Poll, WonSeat};
use tally_frac::Divisors;
use tally_setup::{LotRule, Profile};

/// The seats in the order of their award, for a profile by a divisor rule (LOREG article 163.1 c)
/// and d)). Lists of equal votes that no lot decides among follow the setup's order. It refuses as
/// `allot` does.
pub fn awards(
    alloc: Global,
    profile: &Profile,
    seats: u32,
    votes: &[u64],
    blank: u64,
    lot: &[u32],
) -> Result<Vec<Award>, AllotFault>
    requires limits { AreLimitsKept profile.now seats votes.now blank }
    requires by_divisors { profile.now.method ≢ by_hare }
    ensures awards { IfOk result (λ awards.
        AreAwardsBy (rule_of profile.now) (poll_of profile.now votes.now blank) lot.now seats
        awards.items) }
    ensures lot_taken { OnOk result
        (IsLotTaken (rule_of profile.now) (poll_of profile.now votes.now blank) seats lot.now) }
    ensures eligible { OnOk result (HasEligible (poll_of profile.now votes.now blank)) }
    ensures fault { IfErr result
        (IsFaultOf (rule_of profile.now) (poll_of profile.now votes.now blank) seats lot.now) }
{
    let poll = Poll::new(profile, votes, blank);
    let Some(divisors) = profile.method.divisor_rule() else {
        unreachable!()
    };
    awards_by(alloc, divisors, profile.lot, &poll, seats, lot)
}

fn awards_by<D: Divisors + Copy>(
    alloc: Global,
    divisors: D,
    lot_rule: LotRule,
    poll: &Poll,
    seats: u32,
    lot: &[u32],
) -> Result<Vec<Award>, AllotFault>
    requires some_seat { 1 ≤ seats }
    requires few_seats { seats ≤ most_seats }
    ensures awards { IfOk result (λ awards.
        AreAwards (D.divisor divisors) (D.unit_of divisors) lot_rule (kept_poll poll.now)
        lot.now seats awards.items) }
    ensures lot_taken { OnOk result
        (IsLotTaken (by_divisors (D.divisor divisors) (D.unit_of divisors) lot_rule)
        (kept_poll poll.now) seats lot.now) }
    ensures eligible { OnOk result (HasEligible (kept_poll poll.now)) }
    ensures fault { IfErr result
        (IsFaultOf (by_divisors (D.divisor divisors) (D.unit_of divisors) lot_rule)
        (kept_poll poll.now) seats lot.now) }
{
    let awarded = award_under_lot(alloc, divisors, lot_rule, poll, seats, lot)?;
    let awards = awards_of(alloc, &divisors, poll, &awarded)?;
    Ok(awards)
}

fn awards_of<D: Divisors>(
    alloc: Global,
    divisors: &D,
    poll: &Poll,
    awarded: &AwardedSeats,
) -> Result<Vec<Award>, AllocError>
    requires { AreRows (length poll.now.votes.now) awarded.now.pairs.items }
    ensures { IfOk result (λ awards. (lot_rule : rule_of_lots) →
        IsTableOf (D.divisor divisors.now) (D.unit_of divisors.now) lot_rule (kept_poll poll.now)
        awarded.now.seats.items awarded.now.pairs.items awards.items) }
{
    let mut awards = Vec::with_capacity(alloc, awarded.pairs.len())?;
    for row in &awarded.pairs {
        awards.push(award_of(divisors, poll, *row))?;
    }
    Ok(awards)
}

fn award_of<D: Divisors>(divisors: &D, poll: &Poll, row: WonSeat) -> Award
    requires { IsRow (length poll.now.votes.now) row }
    ensures { result ≡
        spec.award_of (D.divisor divisors.now) (D.unit_of divisors.now) (kept_poll poll.now) row }
{
    Award {
        list: row.list as u32 + 1,
        k: row.seat,
        num: poll.votes_of(row.list) * divisors.unit(),
        den: divisors.nth(row.seat),
    }
}
