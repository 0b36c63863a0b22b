//! The limits of a setup. The crates above use them by these names.

/// The most constituencies of a setup.
pub const MOST_CONSTITUENCIES: usize = 200;

/// The most profiles of a setup.
pub const MOST_PROFILES: usize = 200;

/// The most stations of a constituency, whose size is `large`.
pub const MOST_STATIONS: usize = 20_000;

/// The most stations of a constituency of normal size.
pub const MOST_NORMAL_STATIONS: usize = 5_000;

/// The most candidates of a list.
pub const MOST_CANDIDATES: usize = 1_000;

/// The most electors of a station, and the most electors and agents together.
pub const MOST_ELECTORS: u32 = 1_000_000;

/// The most agents of lists who vote at a station where they are no electors.
pub const MOST_AGENTS: u32 = 1_000;
