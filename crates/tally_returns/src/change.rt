//! Changes.

use crate::returns::Return;
use crate::view::{Gone, Past};

/// The change that an accepted command makes.
#[derive(Debug, Drop)]
pub enum Change {
    /// Nothing.
    Same,
    /// This is now the return of the command's station.
    PutReturn(Return),
    /// A lot is recorded for the constituency: the places of the lists, from 1, in its order.
    SetLot(Vec<u32>),
    /// The constituency is certified, with these seats of its lists.
    SetCertified(Vec<u32>),
    /// The constituency is no longer certified; this is the note of its last reopening, and what
    /// its certificate had given is on record.
    SetReopened(String, Past),
    /// The candidate is gone, and the one at this place of the list, from 1, moves in.
    SetGone(Gone, Option<u32>),
}
