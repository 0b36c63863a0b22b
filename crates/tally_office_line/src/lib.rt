//! The command line of the program: what it offers, and what the words that it is given ask for.
#![tactic(auto)]

mod help;
mod line;

pub use line::{Line, LineFault, read_line};
