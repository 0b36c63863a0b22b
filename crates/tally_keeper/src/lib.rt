//! What keeps an electoral office's state: the trait of keepers, runs over any of them, and imports
//! with what is answered of them. `tally_core` has a keeper in memory, `tally_store` one in a
//! database, `tally_theorems` the laws of all keepers.
#![tactic(auto)]

mod fault;
mod keeper;
mod ledger;
mod returns;
mod runs;
mod sums;
mod views;

pub use fault::{CreateFault, OpenFault};
pub use keeper::Keeper;
pub use ledger::Ledger;
pub use runs::run;
pub use sums::moved;
