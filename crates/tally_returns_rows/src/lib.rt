//! The rows of an import: what a row is, what gives the rows, and how they are counted by what they
//! are answered.
#![tactic(auto)]

mod given;
mod import;
mod source;

pub use given::Given;
pub use import::{
    BadRow, Column, FirstRow, ImportCount, NamedRow, Row, RowCause, name_bad, name_refused,
};
pub use source::{ImportFault, ROW_LIMIT, RowSource};
