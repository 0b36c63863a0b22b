//! The award of the seats under a divisor rule, from a heap of keys.

ghost use Rattle.std.specs.Prelude.{◌≡◌, ◌+◌, ◌<◌, ◌≤◌, IfOk, OnOk, Some, length, slice_index};
ghost use Rattle.std.specs.Prelude.{slice_set, sum};
ghost use Rattle.std.specs.BinaryHeap.{IsHeap, heap_items};
ghost use Rattle.tally_frac.specs.Limits.{last_divisor, most_lists};
ghost use Rattle.tally_allot_award.specs.internal.KeptPoll.{kept_poll};
ghost use Rattle.tally_allot_award.specs.internal.ContestTerms.{divisor_terms};
ghost use Rattle.tally_law.specs.Poll.{HasEligible};
ghost use Rattle.tally_frac.specs.Rank.{IsWithinLimits};
ghost use Rattle.tally_allot_award.specs.internal.NextPairs.{AreFirstPairs, AreNext, HaveKeys};
ghost use Rattle.tally_allot_award.specs.internal.NextPairs.{keyed_cmp, keyed_pair};
ghost use Rattle.tally_law.specs.Poll.{IsEligible};
ghost use Rattle.tally_allot_award.specs.internal.Race.{IsHighestNext};
ghost use Rattle.tally_allot_award.specs.internal.Terms.{AreFairSeats, AreFairSoFar, AreSound};
ghost use Rattle.tally_allot_award.specs.internal.Terms.{IsProperLot, pair_on, placed_race};
ghost use Rattle.tally_allot_award.specs.internal.WonSeat.{AreWon};

use crate::contest::Contest;
use crate::divisor_contest::DivisorContest;
use crate::won::{WonSeat, no_seats};
use std::alloc::{AllocError, Global};
use std::collections::BinaryHeap;
use tally_frac::{Divisors, RankKey};

/// The seats of each list, and the pairs that won them, from the highest rank to the lowest.
#[derive(Drop)]
pub struct AwardedSeats {
    /// The seats of each list, in order of place.
    pub seats: Vec<u32>,
    /// One pair for each seat.
    pub pairs: Vec<WonSeat>,
}

/// Gives all the seats, each to the list whose next pair has the greatest key (LOREG article 163.1
/// c) and d)).
pub fn award_from_heap<D: Divisors>(
    alloc: Global,
    contest: &DivisorContest<D>,
) -> Result<AwardedSeats, AllocError>
    requires sound { AreSound (divisor_terms D.divisor D.unit_of contest.now) }
    requires proper { IsProperLot (kept_poll contest.now.poll) contest.now.lot.now }
    requires keys { HaveKeys (divisor_terms D.divisor D.unit_of contest.now) }
    requires eligible { HasEligible (kept_poll contest.now.poll) }
    ensures fair { IfOk result (λ awarded.
        AreFairSeats (divisor_terms D.divisor D.unit_of contest.now) awarded.seats.items) }
    ensures won { IfOk result (λ awarded.
        AreWon (placed_race (divisor_terms D.divisor D.unit_of contest.now)) awarded.seats.items
        awarded.pairs.items) }
{
    let mut next = first_pairs(alloc, contest)?;
    let mut seats = no_seats(alloc, contest.count())?;
    let mut pairs = Vec::with_capacity(alloc, contest.seats() as usize)?;
    for _seat in 0..contest.seats() {
        pairs.push(award_next(contest, &mut next, &mut seats)?)?;
    }
    Ok(AwardedSeats { seats, pairs })
}

/// Gives one seat to the list of the greatest pair, and puts that list's next one into the heap.
fn award_next<D: Divisors>(
    contest: &DivisorContest<D>,
    next: &mut BinaryHeap<(RankKey, usize, u32)>,
    seats: &mut [u32],
) -> Result<WonSeat, AllocError>
    requires sound { AreSound (divisor_terms D.divisor D.unit_of contest.now) }
    requires keys { HaveKeys (divisor_terms D.divisor D.unit_of contest.now) }
    requires eligible { HasEligible (kept_poll contest.now.poll) }
    requires fair { AreFairSoFar (divisor_terms D.divisor D.unit_of contest.now) seats.old }
    requires room { sum seats.old < contest.now.seats }
    requires order { IsHeap keyed_cmp (heap_items next.old) }
    requires next { AreNext (divisor_terms D.divisor D.unit_of contest.now)
        (length contest.now.poll.votes.now) seats.old (heap_items next.old) }
    ensures highest { IfOk result (λ won.
        IsHighestNext (placed_race (divisor_terms D.divisor D.unit_of contest.now)) seats.old
        won.list) }
    ensures seat { IfOk result (λ won. won.seat ≡ slice_index seats.old won.list + 1) }
    ensures seats { IfOk result (λ won. seats.new ≡ slice_set seats.old won.list won.seat) }
    ensures order { OnOk result (IsHeap keyed_cmp (heap_items next.new)) }
    ensures next { OnOk result
        (AreNext (divisor_terms D.divisor D.unit_of contest.now)
        (length contest.now.poll.votes.now) seats.new (heap_items next.new)) }
{
    let (list, seat) = match next.pop() {
        Some((_key, list, seat)) => (list, seat),
        None => unreachable!(),
    };
    // Even a list that holds all seats now has a next pair: its 501st at most, which never wins.
    next.push(keyed_pair(contest, list, seat + 1))?;
    seats[list] = seat;
    Ok(WonSeat { list, seat })
}

/// The first pair of each eligible list.
fn first_pairs<D: Divisors>(
    alloc: Global,
    contest: &DivisorContest<D>,
) -> Result<BinaryHeap<(RankKey, usize, u32)>, AllocError>
    requires sound { AreSound (divisor_terms D.divisor D.unit_of contest.now) }
    requires keys { HaveKeys (divisor_terms D.divisor D.unit_of contest.now) }
    ensures order { IfOk result (λ next. IsHeap keyed_cmp (heap_items next)) }
    ensures next { IfOk result (λ next.
        AreFirstPairs (divisor_terms D.divisor D.unit_of contest.now) (heap_items next)) }
{
    let mut next = BinaryHeap::with_capacity(alloc, contest.count())?;
    for list in 0..contest.count() {
        if contest.is_eligible(list) {
            next.push(keyed_pair(contest, list, 1))?;
        }
    }
    Ok(next)
}

/// A pair of an eligible list and one of its seats, with its key first: such tuples compare by key.
fn keyed_pair<D: Divisors>(
    contest: &DivisorContest<D>,
    list: usize,
    seat: u32,
) -> (RankKey, usize, u32)
    requires listed { list < length contest.now.poll.votes.now }
    requires few { length contest.now.poll.votes.now ≤ most_lists }
    requires eligible { IsEligible (kept_poll contest.now.poll) list }
    requires first { 1 ≤ seat }
    requires last { seat ≤ last_divisor }
    requires keys { HaveKeys (divisor_terms D.divisor D.unit_of contest.now) }
    ensures { result ≡ keyed_pair (divisor_terms D.divisor D.unit_of contest.now) list seat }
{
    match key_of(contest, list, seat) {
        Some(key) => (key, list, seat),
        None => unreachable!(),
    }
}

/// The key of a pair of a list and one of its seats.
fn key_of<D: Divisors>(contest: &DivisorContest<D>, list: usize, seat: u32) -> Option<RankKey>
    requires listed { list < length contest.now.poll.votes.now }
    requires few { length contest.now.poll.votes.now ≤ most_lists }
    requires first { 1 ≤ seat }
    requires last { seat ≤ last_divisor }
    requires within { IsWithinLimits
        (pair_on (divisor_terms D.divisor D.unit_of contest.now) list seat) }
    ensures { result ≡ Some (pair_on (divisor_terms D.divisor D.unit_of contest.now) list seat) }
{
    let place = contest.place_at(list, seat) as u32;
    RankKey::new(contest.votes(list), contest.divisors.nth(seat), place)
}
