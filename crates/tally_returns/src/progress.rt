//! How far constituencies have come.

use tally_setup::Code;

/// How far a constituency has come: its stations, how many of their returns are in each status,
/// its edition and whether it is certified.
#[derive(Clone, Copy, Debug)]
pub struct ProgressRow {
    pub con: Code,
    pub stations: u32,
    pub received: u32,
    pub queried: u32,
    pub corrected: u32,
    pub closed: u32,
    /// From 1 to 9,999.
    pub edition: u32,
    pub certified: bool,
}
