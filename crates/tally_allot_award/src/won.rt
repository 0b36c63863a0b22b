//! The seats won, in order.

ghost use Rattle.std.specs.Prelude.{◌≡◌, IfOk};
ghost use Rattle.tally_allot_award.specs.internal.WonSeat.{none_held};

use std::alloc::{AllocError, Global};

/// A list, by its number from 0, and the number of a seat that it won, from 1.
#[derive(Clone, Copy)]
pub struct WonSeat {
    /// The list, by its number from 0.
    pub list: usize,
    /// Which of its seats it is, from 1.
    pub seat: u32,
}

/// No seats for each of this many lists.
pub(crate) fn no_seats(alloc: Global, count: usize) -> Result<Vec<u32>, AllocError>
    ensures { IfOk result (λ seats. seats.items ≡ none_held count) }
{
    vec![in alloc; 0; count]
}
