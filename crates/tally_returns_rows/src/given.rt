//! The rows that a source gave, for clauses alone.

ghost use Rattle.std.specs.Prelude.{◌≡◌, []};
ghost use Rattle.tally_returns_rows.specs.Given.{rows_of, with_given};

use crate::import::Row;
use crate::source::ImportFault;
use std::snapshot::Snapshot;

/// The rows that a source gave, in order. Only clauses see them: a program keeps one byte for all
/// of them, which says whether there is a row.
#[derive(Drop)]
pub enum Given {
    /// No row.
    Nothing,
    /// The rows before the last one, and the last row.
    More(Snapshot<Given>, Snapshot<Row>),
}

impl Given {
    /// No row.
    pub fn new() -> Given
        ensures { rows_of result ≡ [] }
    {
        Given::Nothing
    }

    /// Notes the row that a call gives, if it gives one.
    pub fn note(&mut self, next: &Result<Option<Row>, ImportFault>)
        ensures { rows_of self.new ≡ with_given (rows_of self.old) next.now }
    {
        if let Ok(Some(row)) = next {
            *self = Given::More(Snapshot::of(self), Snapshot::of(row));
        }
    }
}
