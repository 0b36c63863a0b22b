//! The rows of a state in the tables of the office, and what rows that were read mean.
#![tactic(auto)]

mod columns;
mod constituencies;
mod items;
mod parts;
mod past;
mod returns;
mod statuses;
mod sums;
mod views;

pub use constituencies::{Standing, all_gone_in, standing_in};
pub use items::{SPOILED_ITEM, counts_in, numbers_in};
pub use parts::ConTables;
pub use past::past_in;
pub use returns::{ReturnFound, entries_in};
pub use statuses::{status_number, status_of};
pub use sums::{Sums, sums_in};
pub use views::{Statuses, statuses_of, view_from_tables};
