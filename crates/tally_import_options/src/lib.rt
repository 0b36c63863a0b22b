//! The options of an allotment, and those of a recount.
#![tactic(auto)]

mod options;

pub use options::{AllotOptions, RecountOptions};
pub use tally_import_records::Sep;
