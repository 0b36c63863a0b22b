//! Whether seats are an allotment that the votes alone allow.
#![tactic(auto)]

mod allow;

pub use allow::votes_allow;
