//! Requests and imports carried out on the tables of an office, in a transaction that the caller
//! begins and ends.
#![tactic(auto)]

mod answer;
mod changes;
mod constituencies;
mod known;
mod moves;
mod returns;
mod rows;
mod shown;
mod stations;
mod sums;

pub use answer::answer_in;
pub use rows::{import_fault_of, take_rows};
pub use shown::{see_open, show_con_in};
pub use stations::show_returns_in;
