//! Returns of polling stations from CSV: rows, and the lines of what became of them.
#![tactic(auto)]

mod fault;
mod header;
mod lines;
mod output;
mod return_rows;
pub mod room;
mod row;

pub use fault::CheckFault;
pub use header::lists_in_header;
pub use lines::{LINE_ROOM, list_codes, push_lines};
pub use output::{write_text, write_watched};
pub use return_rows::ReturnRows;
pub use row::row_of;
pub use tally_import_records::{Sep, Watch};
