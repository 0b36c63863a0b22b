//! The check of a text of returns.
#![tactic(auto)]

mod check;
mod import;
pub mod laws;
mod summary;
mod totals;

pub use check::{check_csv, check_watched};
pub use tally_import::{CheckFault, Sep, Watch};
