//! Seats that the votes alone allow.

ghost use Rattle.std.specs.Prelude.{◌≡◌, ◌+◌, ◌<◌, ◌≤◌, ◌↔◌, IsTrue, length, sum};
ghost use Rattle.tally_frac.specs.Limits.{most_lists, most_seats};
ghost use Rattle.tally_allot_award.specs.internal.KeptPoll.{kept_poll};
ghost use Rattle.tally_allot_award.specs.internal.Race.{IsHighestBefore, IsLowestBefore, IsWithin};
ghost use Rattle.tally_allot_award.specs.internal.Terms.{AreSound, vote_race};
ghost use Rattle.tally_law.specs.Allotment.{IsAllotmentByVotes, divisors as by_divisors, hare};
ghost use Rattle.tally_law.specs.Conditions.{AreLimitsKept};
ghost use Rattle.tally_law.specs.Rules.{poll_of, rule_of};

use tally_allot_award::{Contest, DivisorContest, HareContest, Poll};
use tally_frac::Divisors;
use tally_setup::{LotRule, Profile};

/// Whether these seats, one number for each list, are an allotment that the votes alone allow,
/// whatever lot might be drawn (LOREG article 163.1 d), first half). It takes no memory, and its
/// time grows with the number of lists.
pub fn votes_allow(profile: &Profile, seats: u32, votes: &[u64], blank: u64, held: &[u32]) -> bool
    requires limits { AreLimitsKept profile.now seats votes.now blank }
    requires one_each { length held.now ≡ length votes.now }
    ensures { IsTrue result ↔ IsAllotmentByVotes (rule_of profile.now)
        (poll_of profile.now votes.now blank) seats held.now }
{
    let poll = Poll::new(profile, votes, blank);
    match profile.method.divisor_rule() {
        Some(divisors) => allowed_by_divisors(divisors, profile.lot, &poll, seats, held),
        None => allowed_by_quotas(&poll, seats, held),
    }
}

fn allowed_by_divisors<D: Divisors + Drop>(
    divisors: D,
    lot_rule: LotRule,
    poll: &Poll,
    seats: u32,
    held: &[u32],
) -> bool
    requires some_seat { 1 ≤ seats }
    requires few_seats { seats ≤ most_seats }
    requires one_each { length held.now ≡ length poll.now.votes.now }
    ensures { IsTrue result ↔ IsAllotmentByVotes
        (by_divisors (D.divisor divisors) (D.unit_of divisors) lot_rule) (kept_poll poll.now) seats
        held.now }
{
    let contest = DivisorContest::new(divisors, lot_rule, poll, &[], seats);
    allowed_in(&contest, held)
}

fn allowed_by_quotas(poll: &Poll, seats: u32, held: &[u32]) -> bool
    requires some_seat { 1 ≤ seats }
    requires few_seats { seats ≤ most_seats }
    requires one_each { length held.now ≡ length poll.now.votes.now }
    ensures { IsTrue result ↔ IsAllotmentByVotes hare (kept_poll poll.now) seats held.now }
{
    let contest = HareContest::new(poll, &[], seats);
    allowed_in(&contest, held)
}

fn allowed_in<C: Contest>(contest: &C, held: &[u32]) -> bool
    requires sound { AreSound (C.terms contest.now) }
    requires one_each { length held.now ≡ length (C.terms contest.now).poll.votes }
    ensures { IsTrue result ↔ IsAllotmentByVotes (C.terms contest.now).rule
        (C.terms contest.now).poll (C.terms contest.now).seats held.now }
{
    if sum_of(held) != u64::from(contest.seats()) {
        return false;
    }
    if !is_within(contest, held) {
        return false;
    }
    // No last seat is below another list's next, if the lowest is not below the highest.
    let Some(last) = lowest_last(contest, held) else {
        return true;
    };
    let Some(next) = highest_next(contest, held) else {
        return true;
    };
    !contest.is_above_by_votes(next, held[next] + 1, last, held[last])
}

/// Whether each list holds what it holds in any case, and no more than it may.
fn is_within<C: Contest>(contest: &C, held: &[u32]) -> bool
    requires sound { AreSound (C.terms contest.now) }
    requires one_each { length held.now ≡ length (C.terms contest.now).poll.votes }
    ensures { IsTrue result ↔ IsWithin (vote_race (C.terms contest.now)) held.now }
{
    for list in 0..contest.count() {
        if held[list] < floor(contest, list) || held[list] > cap(contest, list) {
            return false;
        }
    }
    true
}

/// The seats that a list holds in any case.
fn floor<C: Contest>(contest: &C, list: usize) -> u32
    requires sound { AreSound (C.terms contest.now) }
    requires list { list < length (C.terms contest.now).poll.votes }
    ensures { result ≡ (vote_race (C.terms contest.now)).floor list }
{
    contest.floor(list)
}

/// The most seats that a list may hold.
fn cap<C: Contest>(contest: &C, list: usize) -> u32
    requires sound { AreSound (C.terms contest.now) }
    requires list { list < length (C.terms contest.now).poll.votes }
    ensures { result ≡ (vote_race (C.terms contest.now)).cap list }
{
    contest.cap(list)
}

/// The list whose next seat ranks highest among those that may hold more, if any may.
fn highest_next<C: Contest>(contest: &C, held: &[u32]) -> Option<usize>
    requires sound { AreSound (C.terms contest.now) }
    requires within { IsWithin (vote_race (C.terms contest.now)) held.now }
    ensures { IsHighestBefore (vote_race (C.terms contest.now)) held.now
        (length (C.terms contest.now).poll.votes) result }
{
    let mut highest = None;
    for list in 0..contest.count() {
        highest = higher_next(contest, held, highest, list);
    }
    highest
}

/// The list with the higher next seat: the one found among the lists before, or this one.
fn higher_next<C: Contest>(
    contest: &C,
    held: &[u32],
    before: Option<usize>,
    list: usize,
) -> Option<usize>
    requires sound { AreSound (C.terms contest.now) }
    requires within { IsWithin (vote_race (C.terms contest.now)) held.now }
    requires list { list < length (C.terms contest.now).poll.votes }
    requires before { IsHighestBefore (vote_race (C.terms contest.now)) held.now list before }
    ensures { IsHighestBefore (vote_race (C.terms contest.now)) held.now (list + 1) result }
{
    let seats = held[list];
    if seats >= cap(contest, list) {
        return before;
    }
    let Some(other) = before else {
        return Some(list);
    };
    if contest.is_above_by_votes(list, seats + 1, other, held[other] + 1) {
        return Some(list);
    }
    Some(other)
}

/// The list whose last seat ranks lowest among those that have won a seat, if any has.
fn lowest_last<C: Contest>(contest: &C, held: &[u32]) -> Option<usize>
    requires sound { AreSound (C.terms contest.now) }
    requires within { IsWithin (vote_race (C.terms contest.now)) held.now }
    ensures { IsLowestBefore (vote_race (C.terms contest.now)) held.now
        (length (C.terms contest.now).poll.votes) result }
{
    let mut lowest = None;
    for list in 0..contest.count() {
        lowest = lower_last(contest, held, lowest, list);
    }
    lowest
}

/// The list with the lower last seat: the one found among the lists before, or this one.
fn lower_last<C: Contest>(
    contest: &C,
    held: &[u32],
    before: Option<usize>,
    list: usize,
) -> Option<usize>
    requires sound { AreSound (C.terms contest.now) }
    requires within { IsWithin (vote_race (C.terms contest.now)) held.now }
    requires list { list < length (C.terms contest.now).poll.votes }
    requires before { IsLowestBefore (vote_race (C.terms contest.now)) held.now list before }
    ensures { IsLowestBefore (vote_race (C.terms contest.now)) held.now (list + 1) result }
{
    let seats = held[list];
    if seats <= floor(contest, list) {
        return before;
    }
    let Some(other) = before else {
        return Some(list);
    };
    if contest.is_above_by_votes(other, held[other], list, seats) {
        return Some(list);
    }
    Some(other)
}

/// The sum of up to 60 numbers.
fn sum_of(numbers: &[u32]) -> u64
    requires { length numbers.now ≤ most_lists }
    ensures { result ≡ sum numbers.now }
{
    let mut total = 0;
    for number in numbers {
        total += u64::from(*number);
    }
    total
}
