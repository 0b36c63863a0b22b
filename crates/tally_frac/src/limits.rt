//! The limits of what seats are allotted by. The crates above use them by these names.

/// The most lists of a constituency.
pub const MOST_LISTS: usize = 60;

/// The most seats of a constituency.
pub const MOST_SEATS: u32 = 500;

/// The most votes of a constituency, those of its lists and the blank ones together.
pub const MOST_VOTES: u64 = 5_000_000_000;

/// The greatest threshold: the whole base, in ten-thousandths.
pub const WHOLE_BASE: u32 = 10_000;

/// The greatest of the first 501 divisors of any rule, in units of the rule.
pub const GREATEST_DIVISOR: u64 = 5_005;
