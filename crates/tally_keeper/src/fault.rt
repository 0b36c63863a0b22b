//! The faults of making an office in a database and of opening one.

ghost use Rattle.std.specs.Prelude.{◌≡◌};
ghost use Rattle.tally_keeper.specs.FaultNumbers.{create_fault_number, open_fault_number};

use tally_rules::SetupFault;
use thiserror::Error;

/// Why no office was made in a database.
#[derive(Clone, Copy, Debug, PartialEq, Eq, Error)]
pub enum CreateFault {
    /// 1: the text is not a setup. Its fault is never `Memory`.
    #[error("the setup: {0}")]
    Setup(SetupFault),
    /// 2: a table, an index, a view or a trigger has the name of a table of the office.
    #[error("the database has such tables")]
    NotEmpty,
    /// 3: an allocation was refused.
    #[error("out of memory")]
    Memory,
    /// 4: the database refused for another cause, or holds tables of another kind.
    #[error("the database failed")]
    Store,
}

impl CreateFault {
    /// The fault's number, 1 to 4.
    pub fn number(&self) -> u32
        ensures { result ≡ create_fault_number self.now }
    {
        match self {
            CreateFault::Setup(_) => 1,
            CreateFault::NotEmpty => 2,
            CreateFault::Memory => 3,
            CreateFault::Store => 4,
        }
    }
}

/// Why a database is not opened.
#[derive(Clone, Copy, Debug, PartialEq, Eq, Error)]
pub enum OpenFault {
    /// 1: a table is missing.
    #[error("the database lacks a table")]
    NoTables,
    /// 2: the rows are those of no state, or the version of the tables is unknown.
    #[error("the tables are those of no state")]
    BadTables,
    /// 3: the stored text is not a setup. Its fault is never `Memory`.
    #[error("the stored setup: {0}")]
    Setup(SetupFault),
    /// 4: an allocation was refused.
    #[error("out of memory")]
    Memory,
    /// 5: the database refused for another cause, or holds tables of another kind.
    #[error("the database failed")]
    Store,
}

impl OpenFault {
    /// The fault's number, 1 to 5.
    pub fn number(&self) -> u32
        ensures { result ≡ open_fault_number self.now }
    {
        match self {
            OpenFault::NoTables => 1,
            OpenFault::BadTables => 2,
            OpenFault::Setup(_) => 3,
            OpenFault::Memory => 4,
            OpenFault::Store => 5,
        }
    }
}
