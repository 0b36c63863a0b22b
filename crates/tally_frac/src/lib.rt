//! The arithmetic of shares and ranks: fractions compared exactly, the threshold, the divisors of
//! the divisor rules, and the rank of a pair of a list and one of its seats. Nothing here takes
//! memory, and no product wraps.
#![tactic(auto)]

mod divisors;
pub mod laws;
mod limits;
mod list_set;
mod rank;
mod share;
mod threshold;

pub use divisors::{DHondt, DivisorRule, Divisors, ModifiedSainteLague, SainteLague};
pub use limits::{GREATEST_DIVISOR, MOST_LISTS, MOST_SEATS, MOST_VOTES, WHOLE_BASE};
pub use list_set::ListSet;
pub use rank::{RankKey, votes_rank_above};
pub use share::Share;
pub use threshold::is_at_least;
