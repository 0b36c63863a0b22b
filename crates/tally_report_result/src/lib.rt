//! The result of a constituency in one answer, as JSON, and those of all constituencies.
#![tactic(auto)]

mod candidates;
mod code;
mod lists;
mod members;
mod parts;
mod past;
mod put;
mod quota;
mod result;
mod word;

pub use result::{result_text, results_report, results_text};
