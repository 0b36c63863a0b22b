//! A piece of an input, and the records in it.

ghost use Rattle.std.specs.Prelude.{◌≡◌, ◌≤◌, ◌<◌, true, false, drop, length, IfOk};
ghost use Rattle.tally_import_records.specs.internal.Reading.{IsReading};

use crate::reading::{TextReader, next_record, pass_over, records_in};
use crate::separator::Sep;
use crate::text::Text;
use csv::ByteRecord;
use std::alloc::{AllocError, Global};

/// The records of a piece that are left: the one ahead, and those that a reader still gives.
#[derive(Drop)]
pub(crate) struct Rest {
    pub(crate) ahead: ByteRecord,
    pub(crate) reader: TextReader,
}

impl Rest {
    ghost use Rattle.tally_import_records.specs.internal.Pieces.{IsRest, text_rows};
    ghost use Rattle.tally_import_records.specs.internal.Text.{bytes_left};

    /// The records of a piece's text after the first `given`, which it has.
    pub(crate) fn new(
        alloc: Global,
        text: Text,
        sep: Sep,
        is_whole: bool,
        given: usize,
    ) -> Result<Rest, AllocError>
        requires some { is_whole ≡ false → given < length (text_rows sep (bytes_left text)) }
        requires whole { is_whole ≡ true → given ≤ length (text_rows sep (bytes_left text)) }
        ensures reading { IfOk result (λ rest. IsReading rest.reader.reader.value) }
        ensures rest { IfOk result (IsRest is_whole
            (drop given (text_rows sep (bytes_left text)))) }
    {
        let mut reader = records_in(alloc, text, sep)?;
        let mut ahead = ByteRecord::new(alloc);
        if !pass_over(&mut reader.reader, &mut ahead, given)? {
            unreachable!();
        }
        if is_whole {
            return Ok(Rest { ahead, reader });
        }
        if !next_record(&mut reader.reader, &mut ahead)? {
            unreachable!();
        }
        Ok(Rest { ahead, reader })
    }
}
