//! The award of the seats that whole quotas leave over, from a heap of claims.

ghost use Rattle.std.specs.Prelude.{◌≡◌, ◌+◌, ◌<◌, IfOk, length, sum};
ghost use Rattle.std.specs.BinaryHeap.{IsHeap, heap_items};
ghost use Rattle.tally_allot_award.specs.internal.KeptPoll.{kept_poll};
ghost use Rattle.tally_law.specs.Poll.{HasEligible};
ghost use Rattle.tally_allot_award.specs.internal.Claims.{AreClaims, IsClaimOf, claim_cmp};
ghost use Rattle.tally_allot_award.specs.internal.ContestTerms.{hare_terms};
ghost use Rattle.tally_law.specs.Poll.{IsEligible};
ghost use Rattle.tally_allot_award.specs.internal.Race.{IsFair, CanHold};
ghost use Rattle.tally_allot_award.specs.internal.Terms.{AreFairSeats, AreFairSoFar, AreSound};
ghost use Rattle.tally_allot_award.specs.internal.Terms.{placed_race};

use crate::contest::Contest;
use crate::hare_contest::HareContest;
use crate::scan_award::{certain_seats, total};
use std::alloc::{AllocError, Global};
use std::cmp::Reverse;
use std::collections::BinaryHeap;

/// A list's claim on one of the seats. Claims compare by remainder, then by votes, then by place,
/// of which the earlier is the greater.
#[derive(Clone, Copy, PartialEq, Eq, PartialOrd, Ord)]
pub(crate) struct SeatClaim {
    remainder: u64,
    votes: u64,
    place: Reverse<usize>,
    /// The list, by its number from 0.
    list: usize,
}

/// Gives each list its whole quotas, and the seats that are left to the greatest claims.
pub fn award_remainders(alloc: Global, contest: &HareContest) -> Result<Vec<u32>, AllocError>
    requires sound { AreSound (hare_terms contest.now) }
    requires eligible { HasEligible (kept_poll contest.now.poll) }
    ensures { IfOk result (λ seats. AreFairSeats (hare_terms contest.now) seats.items) }
{
    let mut seats = certain_seats(alloc, contest)?;
    let left = contest.seats() - total(&seats);
    let claims = claims_of(alloc, contest, &seats)?;
    give_to_greatest(contest, claims, &mut seats, left);
    Ok(seats)
}

/// Gives this many seats more, each to the list of the greatest claim that is left.
fn give_to_greatest(
    contest: &HareContest,
    mut claims: BinaryHeap<SeatClaim>,
    seats: &mut [u32],
    number: u32,
)
    requires sound { AreSound (hare_terms contest.now) }
    requires fair { AreFairSoFar (hare_terms contest.now) seats.old }
    requires room { CanHold (placed_race (hare_terms contest.now)) (sum seats.old + number) }
    requires order { IsHeap claim_cmp (heap_items claims) }
    requires claims { AreClaims (hare_terms contest.now) (length contest.now.poll.votes.now)
        seats.old (heap_items claims) }
    ensures { IsFair (placed_race (hare_terms contest.now)) (sum seats.old + number) seats.new }
{
    for _seat in 0..number {
        let list = match claims.pop() {
            Some(claim) => claim.list,
            None => unreachable!(),
        };
        seats[list] += 1;
    }
}

/// The claims of the lists that may hold more.
fn claims_of(
    alloc: Global,
    contest: &HareContest,
    seats: &[u32],
) -> Result<BinaryHeap<SeatClaim>, AllocError>
    requires sound { AreSound (hare_terms contest.now) }
    requires one_each { length seats.now ≡ length contest.now.poll.votes.now }
    ensures order { IfOk result (λ claims. IsHeap claim_cmp (heap_items claims)) }
    ensures claims { IfOk result (λ claims.
        AreClaims (hare_terms contest.now) (length contest.now.poll.votes.now) seats.now
        (heap_items claims)) }
{
    let mut claims = BinaryHeap::with_capacity(alloc, contest.count())?;
    for list in 0..contest.count() {
        if seats[list] < contest.cap(list) {
            claims.push(claim_of(contest, list))?;
        }
    }
    Ok(claims)
}

/// The claim of an eligible list.
fn claim_of(contest: &HareContest, list: usize) -> SeatClaim
    requires list { list < length contest.now.poll.votes.now }
    requires eligible { IsEligible (kept_poll contest.now.poll) list }
    ensures claim { IsClaimOf (hare_terms contest.now) result }
    ensures list { result.list ≡ list }
{
    SeatClaim {
        remainder: contest.remainder(list),
        votes: contest.votes(list),
        place: Reverse(contest.place_of(list)),
        list,
    }
}
