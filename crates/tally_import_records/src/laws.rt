//! The law of a text that was stopped. The function does nothing: its contract is the law.

ghost use Rattle.std.specs.Prelude.{◌≡◌, ◌++◌, List, ℕ, Some, None};
ghost use Rattle.csv.specs.Reading.{records, strip_bom};
ghost use Rattle.tally_import_records.specs.Input.{BeginsWith, complete_records};
ghost use Rattle.tally_import_records.specs.Separator.{config};

use crate::end::Stop;
use crate::separator::Sep;

/// The records that were complete when a text was stopped are the first of the whole text,
/// whatever would have come. Where nothing stopped it, they are all of its records.
pub fn complete_records_come_first()
    ensures stopped { (sep : Sep) (bytes rest : List ℕ) (stop : Stop) → BeginsWith
        (complete_records sep (bytes ++ rest) None) (complete_records sep bytes (Some stop)) }
    ensures ended { (sep : Sep) (bytes : List ℕ)
        → complete_records sep bytes None ≡ records (config sep) (strip_bom bytes) }
{}
