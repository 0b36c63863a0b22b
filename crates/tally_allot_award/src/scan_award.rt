//! The award of the seats by a scan of the lists.

ghost use Rattle.std.specs.Prelude.{◌≡◌, ◌≤◌, IfOk, sum};
ghost use Rattle.tally_frac.specs.Limits.{most_seats};
ghost use Rattle.tally_law.specs.Poll.{HasEligible};
ghost use Rattle.tally_allot_award.specs.internal.Terms.{AreFairSeats, AreFairSoFar, AreSound};

use crate::contest::{Contest, award};
use std::alloc::{AllocError, Global};

/// The seats of each list by the rule and the places of the lot, whether or not it is the lot to
/// be taken.
pub fn contested_seats<C: Contest>(alloc: Global, contest: &C) -> Result<Vec<u32>, AllocError>
    requires sound { AreSound (C.terms contest.now) }
    requires eligible { HasEligible (C.terms contest.now).poll }
    ensures { IfOk result (λ seats. AreFairSeats (C.terms contest.now) seats.items) }
{
    let mut seats = certain_seats(alloc, contest)?;
    let certain = total(&seats);
    award(contest, &mut seats, contest.seats() - certain);
    Ok(seats)
}

/// The seats that each list holds in any case.
pub(crate) fn certain_seats<C: Contest>(alloc: Global, contest: &C) -> Result<Vec<u32>, AllocError>
    requires sound { AreSound (C.terms contest.now) }
    requires eligible { HasEligible (C.terms contest.now).poll }
    ensures fair { IfOk result (λ seats. AreFairSoFar (C.terms contest.now) seats.items) }
    ensures few { IfOk result (λ seats. sum seats.items ≤ (C.terms contest.now).seats) }
{
    let mut seats = Vec::with_capacity(alloc, contest.count())?;
    for list in 0..contest.count() {
        seats.push(contest.floor(list))?;
    }
    Ok(seats)
}

/// The sum of seats, which is at most 500.
pub(crate) fn total(seats: &[u32]) -> u32
    requires { sum seats.now ≤ most_seats }
    ensures { result ≡ sum seats.now }
{
    seats.iter().sum()
}
