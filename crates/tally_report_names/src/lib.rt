//! The reports of an office: their names, and whether each is of one constituency or of all.
#![tactic(auto)]

mod report;
mod shown;

pub use report::Report;
pub use shown::{Shown, StationsReport};
