//! What the program does for a command line that needs no office: `check`, `allot` and `recount`,
//! over a reader and two writers; and what it says of a command line that cannot be carried out.
#![tactic(auto)]

mod performing;
mod recounting;
mod reporting;

pub use performing::{allot_streams, check_streams, perform_streams};
pub use recounting::recount_streams;
pub use reporting::{DONE, USAGE, report_fault, report_start};
