//! The texts of an allotment: seats from votes, and a recount of returns.
#![tactic(auto)]

mod allotment;
mod counted;
mod decisive;
mod fits;
mod found;
mod lines;
mod question;
mod recount;

pub use allotment::allotment_text;
pub use question::Asked;
pub use recount::{Recount, recount_text};
