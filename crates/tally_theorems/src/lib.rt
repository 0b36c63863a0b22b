//! The laws of what happens to a keeper of an office, and of messages that are answered from one.
#![tactic(auto)]

pub mod keepers;
pub mod messages;
