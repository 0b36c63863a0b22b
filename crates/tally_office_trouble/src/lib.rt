//! Why a command was not done, what standard error says of it, and the files that a command reads:
//! a setup, judged, and what it names.
//!
//! Errors are matched and returned, and not passed on by `?`, since the `?` of an enum that holds a
//! text (`Trouble`) has no proof yet.
#![tactic(auto)]

mod files;
mod named;
mod place;
mod setup;
mod standard_error;
mod trouble;

pub use files::{MachineFiles, NamedFiles, read_setup_text, setup_text};
pub use named::{code_named, con_named, con_with_code};
pub use setup::{judge_setup, setup_at};
pub use standard_error::tell;
pub use trouble::{FAILED, REFUSED, Trouble, is_memory};
