//! The stations of a constituency.

use crate::returns::Return;
use tally_setup::Code;

/// A station, and its return where it has one.
#[derive(Drop)]
pub struct StationRow {
    pub station: Code,
    /// From 1 to 1,000,000.
    pub electors: u32,
    pub found: Option<Return>,
}
