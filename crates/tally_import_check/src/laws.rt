//! The laws of a text that was stopped, and of the rows that are named. The functions do nothing:
//! their contracts are the laws.

ghost use Rattle.std.specs.Prelude.{◌≡◌, ◌≢◌, ◌++◌, All, List, ℕ, Some, None, Err, option_map};
ghost use Rattle.std.specs.Prelude.{slice_get};
ghost use Rattle.tally_returns.specs.Lodge.{Stations};
ghost use Rattle.tally_returns.specs.Return.{Returns};
ghost use Rattle.tally_returns_rows.specs.Import.{answers, count_of};
ghost use Rattle.tally_returns_rows.specs.NamedRows.{named_rows, noted_row};
ghost use Rattle.tally_returns_rows.specs.Source.{IsLodgeOrBad};
ghost use Rattle.tally_import.specs.Faults.{check_fault};
ghost use Rattle.tally_import_check.specs.Check.{check_result};

use tally_import::CheckFault;
use tally_import_records::{Sep, Stop};
use tally_returns_rows::Row;

/// A fault that was found in the bytes before a text was stopped is the fault of the whole text,
/// whatever would have come.
pub fn faults_before_a_stop_remain()
    ensures { (sep : Sep) (bytes rest : List ℕ) (stop : Stop) (fault : CheckFault)
        → check_result sep bytes (Some stop) ≡ Err fault → fault ≢ check_fault stop
        → check_result sep (bytes ++ rest) None ≡ Err fault }
{}

/// Of the rows of a text, the first that is named is the one that the count of its import notes
/// first, with the same number; none is named where the count notes none.
pub fn the_first_row_named_is_the_first_noted()
    ensures { (stations : Stations) (returns : Returns) (rows : List Row) → All IsLodgeOrBad rows
        → (count_of (answers stations returns rows)).first
        ≡ option_map noted_row (slice_get (named_rows 1 rows (answers stations returns rows)) 0) }
{}
