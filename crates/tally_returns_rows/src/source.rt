//! Sources of the rows of an import.

ghost use Rattle.std.specs.Prelude.{◌≡◌, List, Option, Some, IfOk, IfSome};
ghost use Rattle.tally_returns_rows.specs.Given.{with_given};
ghost use Rattle.tally_returns_rows.specs.declared.import.Row.{Row};
ghost use Rattle.tally_returns_rows.specs.Source.{Coming, Ending, GivesNext, IsLodgeOrBad};
ghost use Rattle.tally_returns_rows.specs.Source.{IsWithinRowLimit, at_end, ends_by};
ghost use Rattle.tally_returns_rows.specs.declared.source.ImportFault.{ImportFault};

use crate::import::Row;
use std::alloc::AllocError;

/// The most rows that an import has.
pub const ROW_LIMIT: u32 = 20_000;

/// Why an import was not done. It has changed nothing, unless a failed disk shut the keeper at it.
#[derive(Clone, Copy, Debug, PartialEq, Eq)]
pub enum ImportFault {
    /// There is no header, or it is not the one that the constituency's lists ask for.
    BadHeader,
    /// More than 20,000 rows or 16 MiB.
    TooLong,
    /// A read failed.
    Read,
    /// Out of memory.
    Memory,
    /// A database call was refused for a cause other than memory.
    Store,
}

impl ImportFault {
    ghost use Rattle.tally_returns_rows.specs.Import.{import_fault_number};

    /// The fault's number.
    pub fn number(&self) -> u32
        ensures { result ≡ import_fault_number self.now }
    {
        match self {
            ImportFault::BadHeader => 1,
            ImportFault::TooLong => 2,
            ImportFault::Read => 3,
            ImportFault::Memory => 4,
            ImportFault::Store => 5,
        }
    }
}

impl From<AllocError> for ImportFault {
    ghost use Rattle.tally_returns_rows.specs.declared.source.ImportFault.TheVariants.{Memory};

    ghost from_gives = { λ _ fault. fault ≡ Memory };

    fn from(_refused: AllocError) -> ImportFault {
        ImportFault::Memory
    }
}

/// Gives the rows of an import one at a time, Lodge commands and bad rows, and then its end or a
/// fault, which it answers from then on. Where it is known what comes, that is at most 20,000 rows.
pub trait RowSource {
    /// The rows that it still gives and what comes after them, where that is known.
    ghost coming: { Self → Option Coming };

    /// The rows that it gave so far, whether or not it is known what it gives.
    ghost given: { Self → List Row };

    /// How it ended, once it did: at its end, or with a fault.
    ghost ended: { Self → Ending };

    /// The next row, or `None` at the end.
    fn next_row(&mut self) -> Result<Option<Row>, ImportFault>
        ensures gives { GivesNext (coming self.old) result (coming self.new) }
        ensures row { IfOk result (λ row. IfSome row IsLodgeOrBad) }
        ensures gave { given self.new ≡ with_given (given self.old) result }
        ensures ends { ended self.new ≡ ends_by result }
        ensures again { (fault : Option ImportFault) → ended self.old ≡ Some fault
            → (result ≡ at_end fault) × (self.new ≡ self.old) };

    ghost within: { (source : Self) → IfSome (coming source) IsWithinRowLimit };
}
