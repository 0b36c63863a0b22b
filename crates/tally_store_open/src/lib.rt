//! An office in a database, made and opened: the tables of an office that opens, and the judgement
//! whether the tables that are there are those of a lawful state. What is done over an office that
//! exists is in `tally_store`.
#![tactic(auto)]

mod cons;
mod create;
mod former;
mod found;
mod judging;
mod making;
mod numbers;
mod office;
mod open;
mod opening;
mod returns;
mod view;

pub use create::create_in;
pub use office::{OfficeRows, accept_rows};
pub use open::open_in;
