//! The office's state in a database: a keeper over it, its requests and imports, and what holds of
//! every such keeper. `tally_store_open` has the making of one and the opening.
#![tactic(auto)]

mod keeper;
pub mod laws;
mod requests;
mod store;

pub use store::Store;
pub use tally_keeper::{CreateFault, OpenFault};
