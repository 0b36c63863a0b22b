//! What separates two fields.

ghost use Rattle.std.specs.Prelude.{◌≡◌};

/// The byte between two fields of a record.
#[derive(Clone, Copy, Debug, PartialEq, Eq)]
pub enum Sep {
    Comma,
    Semicolon,
}

impl Sep {
    ghost use Rattle.tally_import_records.specs.Separator.{separator};

    /// The byte itself.
    pub fn byte(self) -> u8
        ensures { result ≡ separator self }
    {
        match self {
            Sep::Comma => b',',
            Sep::Semicolon => b';',
        }
    }
}
