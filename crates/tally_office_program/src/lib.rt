//! What the program does for a command line, over offices, a reader, two writers and the files that
//! are named; and what `serve` does.
#![tactic(auto)]

mod performing;
mod serve;
mod server_lines;

pub use performing::perform;
pub use tally_office_streams::{DONE, USAGE, report_start};
