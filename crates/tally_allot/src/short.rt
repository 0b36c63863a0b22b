//! Votes short.

ghost use Rattle.std.specs.Prelude.{◌≡◌, ◌≢◌, ℕ, ◌+◌, ◌≤◌, ◌<◌, IfOk, IfErr, OnOk};
ghost use Rattle.std.specs.Prelude.{length, slice_index};
ghost use Rattle.tally_frac.specs.Limits.{greatest_divisor, most_seats, most_votes};
ghost use Rattle.tally_setup.specs.declared.profile.LotRule.{LotRule as rule_of_lots};
ghost use Rattle.tally_setup.specs.declared.profile.Method.TheVariants.{Hare as by_hare};
ghost use Rattle.tally_allot_award.specs.internal.KeptPoll.{kept_poll};
ghost use Rattle.tally_law.specs.Allotment.{divisors as by_divisors};
ghost use Rattle.tally_law.specs.LotNeed.{IsLotTaken};
ghost use Rattle.tally_law.specs.Poll.{HasEligible};
ghost use Rattle.tally_law.specs.Rules.{poll_of, rule_of};
ghost use Rattle.tally_allot.specs.AllotFault.{IsFaultOf};
ghost use Rattle.tally_law.specs.Conditions.{AreLimitsKept};
ghost use Rattle.tally_allot.specs.internal.ShortSteps.{RiseSlowly, IsByVotes};
ghost use Rattle.tally_allot.specs.internal.ShortSteps.{AreFewestAbove, IsLowestOther, IsAnswerOf};
ghost use Rattle.tally_allot.specs.internal.ShortSteps.{AreAnswers, AreAnswersOf};
ghost use Rattle.tally_allot.specs.VotesShort.{AreVotesShort, AreBelow};

use crate::allotment::seats_by_divisors;
use crate::fault::AllotFault;
use std::alloc::{AllocError, Global};
use tally_allot_award::Poll;
use tally_frac::{Divisors, votes_rank_above};
use tally_setup::{LotRule, Profile};

/// How many more votes each list needs for one more seat than it has now, in order of place, for a
/// profile by a divisor rule: with this many, whatever lot is drawn, it has more, and with one
/// fewer it may not. The other votes and the lists that are eligible are taken as they are. `None`
/// where a list is not eligible or has all seats. It refuses as `allot` does.
pub fn votes_short(
    alloc: Global,
    profile: &Profile,
    seats: u32,
    votes: &[u64],
    blank: u64,
    lot: &[u32],
) -> Result<Vec<Option<u64>>, AllotFault>
    requires limits { AreLimitsKept profile.now seats votes.now blank }
    requires by_divisors { profile.now.method ≢ by_hare }
    ensures one_each { IfOk result (λ numbers. length numbers.items ≡ length votes.now) }
    ensures numbers { IfOk result (λ numbers.
        AreVotesShort (rule_of profile.now) (poll_of profile.now votes.now blank) lot.now seats
        numbers.items) }
    ensures below { IfOk result (λ numbers. AreBelow 100000000000 numbers.items) }
    ensures lot_taken { OnOk result
        (IsLotTaken (rule_of profile.now) (poll_of profile.now votes.now blank) seats lot.now) }
    ensures eligible { OnOk result (HasEligible (poll_of profile.now votes.now blank)) }
    ensures fault { IfErr result
        (IsFaultOf (rule_of profile.now) (poll_of profile.now votes.now blank) seats lot.now) }
{
    let poll = Poll::new(profile, votes, blank);
    let Some(divisors) = profile.method.divisor_rule() else {
        unreachable!()
    };
    short_by(alloc, divisors, profile.lot, &poll, seats, lot)
}

fn short_by<D: Divisors + Copy>(
    alloc: Global,
    divisors: D,
    lot_rule: LotRule,
    poll: &Poll,
    seats: u32,
    lot: &[u32],
) -> Result<Vec<Option<u64>>, AllotFault>
    requires some_seat { 1 ≤ seats }
    requires few_seats { seats ≤ most_seats }
    requires slowly { RiseSlowly (D.divisor divisors) }
    ensures numbers { IfOk result (λ numbers.
        AreAnswersOf (by_divisors (D.divisor divisors) (D.unit_of divisors) lot_rule)
        (kept_poll poll.now) lot.now seats numbers.items) }
    ensures lot_taken { OnOk result
        (IsLotTaken (by_divisors (D.divisor divisors) (D.unit_of divisors) lot_rule)
        (kept_poll poll.now) seats lot.now) }
    ensures eligible { OnOk result (HasEligible (kept_poll poll.now)) }
    ensures fault { IfErr result
        (IsFaultOf (by_divisors (D.divisor divisors) (D.unit_of divisors) lot_rule)
        (kept_poll poll.now) seats lot.now) }
{
    let held = seats_by_divisors(alloc, divisors, lot_rule, poll, seats, lot)?;
    let numbers = numbers_of(alloc, &divisors, poll, seats, &held)?;
    Ok(numbers)
}

/// The number of each list, where these are the seats that they hold.
fn numbers_of<D: Divisors>(
    alloc: Global,
    divisors: &D,
    poll: &Poll,
    seats: u32,
    held: &[u32],
) -> Result<Vec<Option<u64>>, AllocError>
    requires few_seats { seats ≤ most_seats }
    requires slowly { RiseSlowly (D.divisor divisors.now) }
    requires allotment { IsByVotes (D.divisor divisors.now) (kept_poll poll.now) seats held.now }
    ensures { IfOk result (λ numbers. (lot_rule : rule_of_lots) →
        AreAnswers (by_divisors (D.divisor divisors.now) (D.unit_of divisors.now) lot_rule)
        (kept_poll poll.now) seats held.now (length held.now) numbers.items) }
{
    let mut numbers = Vec::with_capacity(alloc, held.len())?;
    for list in 0..held.len() {
        numbers.push(number_of(divisors, poll, seats, held, list))?;
    }
    Ok(numbers)
}

/// The number of a list: with it the list's next seat ranks above the lowest that another list has.
fn number_of<D: Divisors>(
    divisors: &D,
    poll: &Poll,
    seats: u32,
    held: &[u32],
    list: usize,
) -> Option<u64>
    requires few_seats { seats ≤ most_seats }
    requires slowly { RiseSlowly (D.divisor divisors.now) }
    requires allotment { IsByVotes (D.divisor divisors.now) (kept_poll poll.now) seats held.now }
    requires list { list < length held.now }
    ensures { (lot_rule : rule_of_lots) →
        IsAnswerOf (by_divisors (D.divisor divisors.now) (D.unit_of divisors.now) lot_rule)
        (kept_poll poll.now) seats held.now list result }
{
    if !poll.is_eligible(list) || held[list] == seats {
        return None;
    }
    let Some(other) = lowest_other(divisors, poll, held, list) else {
        unreachable!()
    };
    let enough = fewest_above(
        divisors.nth(held[list] + 1),
        poll.votes_of(other),
        divisors.nth(held[other]),
    );
    Some(enough - poll.votes_of(list))
}

/// Of the other lists that hold a seat, the one whose last ranks lowest by the votes alone.
fn lowest_other<D: Divisors>(divisors: &D, poll: &Poll, held: &[u32], list: usize) -> Option<usize>
    requires few_seats { (p : ℕ) → slice_index held.now p ≤ most_seats }
    requires one_each { length held.now ≡ length poll.now.votes.now }
    ensures { IsLowestOther (D.divisor divisors.now) (kept_poll poll.now) held.now list
        (length held.now) result }
{
    let mut lowest = None;
    for other in 0..held.len() {
        lowest = lower_of(divisors, poll, held, list, lowest, other);
    }
    lowest
}

/// Of two lists the one whose last seat ranks lower. `before` is the lowest of the lists before
/// `other`. A list without a seat has no last seat, and `list` itself is passed over.
fn lower_of<D: Divisors>(
    divisors: &D,
    poll: &Poll,
    held: &[u32],
    list: usize,
    before: Option<usize>,
    other: usize,
) -> Option<usize>
    requires few_seats { (p : ℕ) → slice_index held.now p ≤ most_seats }
    requires one_each { length held.now ≡ length poll.now.votes.now }
    requires other { other < length held.now }
    requires before { IsLowestOther (D.divisor divisors.now) (kept_poll poll.now) held.now list
        other before }
    ensures { IsLowestOther (D.divisor divisors.now) (kept_poll poll.now) held.now list
        (other + 1) result }
{
    let seat = held[other];
    if other == list || seat == 0 {
        return before;
    }
    let Some(lowest) = before else {
        return Some(other);
    };
    if votes_rank_above(
        poll.votes_of(lowest),
        divisors.nth(held[lowest]),
        poll.votes_of(other),
        divisors.nth(seat),
    ) {
        return Some(other);
    }
    Some(lowest)
}

/// The fewest votes that, by one divisor, rank above those of another list by another divisor.
fn fewest_above(divisor: u64, other_votes: u64, other_divisor: u64) -> u64
    requires divisor { divisor ≤ greatest_divisor }
    requires other_votes { other_votes ≤ most_votes }
    requires other_divisor { 1 ≤ other_divisor }
    ensures { AreFewestAbove divisor other_votes other_divisor result }
{
    let product = other_votes * divisor;
    let level = product / other_divisor;
    // Level with the other quotient, a list needs more votes than the other has.
    let is_enough = product % other_divisor == 0 && level > other_votes;
    if is_enough { level } else { level + 1 }
}
