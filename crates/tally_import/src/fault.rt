//! The faults of a text of returns that is checked.

ghost use Rattle.std.specs.Prelude.{◌≡◌};

use std::alloc::AllocError;
use tally_import_records::Stop;

/// Why a text could not be checked.
#[derive(Clone, Copy, Debug, PartialEq, Eq)]
pub enum CheckFault {
    /// There is no header, or it is not `station`, `slip`, `blank`, `spoiled` and 1 to 60 codes of
    /// lists, no two the same.
    BadHeader,
    /// More than 20,000 rows or 16 MiB.
    TooLong,
    /// A read failed.
    Read,
    /// Out of memory.
    Memory,
    /// A write failed or took nothing.
    Write,
}

impl From<AllocError> for CheckFault {
    ghost use Rattle.tally_import.specs.declared.fault.CheckFault.TheVariants.{Memory};

    ghost from_gives = { λ _ fault. fault ≡ Memory };

    fn from(_error: AllocError) -> CheckFault {
        CheckFault::Memory
    }
}

impl From<Stop> for CheckFault {
    ghost use Rattle.tally_import.specs.Faults.{check_fault};

    ghost from_gives = { λ stop fault. fault ≡ check_fault stop };

    fn from(stop: Stop) -> CheckFault {
        match stop {
            Stop::TooLong => CheckFault::TooLong,
            Stop::Read => CheckFault::Read,
        }
    }
}

impl CheckFault {
    ghost use Rattle.tally_import.specs.Faults.{check_fault_number};

    /// The fault's number.
    pub fn number(&self) -> u32
        ensures { result ≡ check_fault_number self.now }
    {
        match self {
            CheckFault::BadHeader => 1,
            CheckFault::TooLong => 2,
            CheckFault::Read => 3,
            CheckFault::Memory => 4,
            CheckFault::Write => 5,
        }
    }
}
