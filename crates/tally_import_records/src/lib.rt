//! The records of a CSV text that a reader gives, of which a piece is held at a time.
#![tactic(auto)]

mod cut;
mod end;
mod fields;
mod held;
pub mod laws;
mod piece;
mod reading;
mod records;
mod separator;
mod text;
mod text_records;
mod watch;
mod whole;
mod work;

pub use end::{End, Stop};
pub use fields::field;
pub use records::Records;
pub use separator::Sep;
pub use text_records::TextRecords;
pub use watch::Watch;
pub use whole::{WholeText, read_whole};
