//! Reading the records of a text in memory.

ghost use Rattle.std.specs.Prelude.{◌≡◌, ◌≤◌, true, drop, length, IfOk};
ghost use Rattle.csv.specs.Records.{fields_of};
ghost use Rattle.tally_import_records.specs.internal.Pieces.{text_rows};
ghost use Rattle.tally_import_records.specs.internal.Reading.{GivesNextRecord, IsReading};
ghost use Rattle.tally_import_records.specs.internal.Reading.{rows_left};
ghost use Rattle.tally_import_records.specs.internal.Text.{bytes_left};

use crate::separator::Sep;
use crate::text::Text;
use csv::{ByteRecord, Reader, ReaderBuilder};
use std::alloc::{AllocError, Global};

/// A reader of a text's records. It is on the heap, since it has some 16 KiB. To be dropped it is
/// moved onto the stack, in a function of its own, so that no other has room for it.
pub(crate) struct TextReader {
    pub(crate) reader: Box<Reader<Text>>,
}

impl Drop for TextReader {
    #[inline(never)]
    fn drop(self) {
        let Self { reader: _ } = self;
    }
}

/// A reader of a text's records, of any length, as they are in it. Its header row is set to be
/// empty, since a reader that has none yet keeps copies of the first record.
pub(crate) fn records_in(alloc: Global, text: Text, sep: Sep) -> Result<TextReader, AllocError>
    ensures reading { IfOk result (λ it. IsReading it.reader.value) }
    ensures rows { IfOk result (λ it.
        rows_left it.reader.value ≡ text_rows sep (bytes_left text)) }
{
    let mut it = TextReader {
        reader: Box::new(
            alloc,
            ReaderBuilder::new()
                .delimiter(sep.byte())
                .flexible(true)
                .from_reader(alloc, text),
        )?,
    };
    if it.reader.set_byte_headers(ByteRecord::new(alloc)).is_err() {
        return Err(AllocError);
    }
    Ok(it)
}

/// Reads the next record, if there is one. A text in memory can always be read, and its records
/// may have any length and any bytes, so the reader refuses only where it is out of memory.
pub(crate) fn next_record(
    reader: &mut Reader<Text>,
    into: &mut ByteRecord,
) -> Result<bool, AllocError>
    requires { IsReading reader.old }
    ensures reading { IfOk result (λ found. found ≡ true → IsReading reader.new) }
    ensures record { IfOk result (GivesNextRecord reader.old reader.new (fields_of into.new)) }
{
    let Ok(found) = reader.read_byte_record(into) else {
        return Err(AllocError);
    };
    Ok(found)
}

/// Skips this many records, and returns whether there were as many.
pub(crate) fn pass_over(
    reader: &mut Reader<Text>,
    row: &mut ByteRecord,
    count: usize,
) -> Result<bool, AllocError>
    requires { IsReading reader.old }
    ensures reading { IfOk result (λ all. all ≡ true → IsReading reader.new) }
    ensures rows { IfOk result (λ all. all ≡ true
        → rows_left reader.new ≡ drop count (rows_left reader.old)) }
    ensures all { IfOk result (λ all. count ≤ length (rows_left reader.old) → all ≡ true) }
{
    for passed in 0..count {
        if !next_record(reader, row)? {
            return Ok(false);
        }
    }
    Ok(true)
}
