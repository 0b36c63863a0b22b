//! The returns of a constituency from CSV, counted again.
#![tactic(auto)]

mod fault;
mod recount;
mod register;
mod rows;
mod without;

pub use fault::RecountTrouble;
pub use recount::{recount_csv, recount_watched};
pub use tally_import_options::RecountOptions;
pub use tally_import_records::{Sep, Watch};
