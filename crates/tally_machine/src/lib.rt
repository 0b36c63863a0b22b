//! The machine of an electoral office: what it decides of each constituency, its steps and runs,
//! and their laws. The commands, the state and the returns are those of `tally_returns`.
#![tactic(auto)]

mod certification;
mod con_commands;
pub mod laws;
mod list_order;
mod seat_holders;
mod vacancy;

pub use certification::{Reopening, certify, draw, reopen};
pub use con_commands::decide_con;
pub use seat_holders::holders;
pub use vacancy::{Vacancy, vacate};
