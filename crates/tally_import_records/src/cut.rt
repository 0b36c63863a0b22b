//! Where an input is cut into pieces.

ghost use Rattle.std.specs.Prelude.{◌≡◌, ◌≤◌, ◌<◌, ◌++◌, ◌∷◌, [], None, true, drop, take, length};
ghost use Rattle.std.specs.Prelude.{IfOk};
ghost use Rattle.csv.specs.Records.{fields_of};
ghost use Rattle.tally_import_records.specs.Separator.{separator};
ghost use Rattle.tally_import_records.specs.internal.Pieces.{EndsNoLineAfter, HasNothingAfter};
ghost use Rattle.tally_import_records.specs.internal.Pieces.{IsGivenPiece, ends_line, is_line_end};
ghost use Rattle.tally_import_records.specs.internal.Pieces.{is_whole, nothing, piece_rows};
ghost use Rattle.tally_import_records.specs.internal.Pieces.{text_of_piece};
ghost use Rattle.tally_import_records.specs.internal.Reading.{IsReading, rows_left};
ghost use Rattle.tally_import_records.specs.internal.Text.{bytes_left};

use crate::end::End;
use crate::fields::field;
use crate::reading::{next_record, pass_over, records_in};
use crate::separator::Sep;
use crate::text::Text;
use csv::{ByteRecord, Reader};
use memchr::memrchr2;
use std::alloc::{AllocError, Global};
use std::collections::VecDeque;

/// Whether an input ended of itself.
pub(crate) fn ended_itself(end: Option<End>) -> bool
    ensures { result ≡ is_whole end }
{
    match end {
        None => false,
        Some(end) => end.stop.is_none(),
    }
}

/// How many of these bytes are in a piece after which more may come: those up to their last line
/// end.
pub(crate) fn piece_size(bytes: &[u8]) -> usize
    ensures within { result ≤ length bytes.now }
    ensures piece { ends_line (take result bytes.now) ≡ true }
    ensures last { EndsNoLineAfter result bytes.now }
{
    match memrchr2(b'\r', b'\n', bytes) {
        Some(place) => place + 1,
        None => 0,
    }
}

/// Whether a byte ends a line.
pub(crate) fn is_line_end(byte: u8) -> bool
    ensures { result ≡ is_line_end byte }
{
    byte == b'\r' || byte == b'\n'
}

/// Whether a record is the one that a separator begins after the end of a line.
pub(crate) fn is_nothing(row: &ByteRecord) -> bool
    ensures nothing { result ≡ true → fields_of row.now ≡ nothing }
    ensures found { fields_of row.now ≡ nothing → result ≡ true }
{
    row.len() == 2 && field(row, 0).is_empty() && field(row, 1).is_empty()
}

/// How many bytes of a piece come before its last record, as the reader reports.
fn start_of(row: &ByteRecord) -> usize {
    match row.position() {
        Some(position) => position.byte() as usize,
        None => 0,
    }
}

/// How many bytes of a piece need not be held: they end with the last of the records that were
/// given. None, where this is not known.
pub(crate) fn given_size(
    alloc: Global,
    piece: &[u8],
    sep: Sep,
    given: usize,
    last: &ByteRecord,
) -> Result<usize, AllocError>
    requires piece { ends_line piece.now ≡ true }
    requires last { drop given (piece_rows sep None piece.now) ≡ fields_of last.now ∷ [] }
    ensures within { IfOk result (λ size. size ≤ length piece.now) }
    ensures whole { fields_of last.now ≡ nothing
        → IfOk result (λ size. size ≡ length piece.now) }
    ensures given { IfOk result (λ size. 0 < size
        → IsGivenPiece sep given (take size piece.now)) }
{
    if is_nothing(last) {
        return Ok(piece.len());
    }
    let start = start_of(last);
    if start == 0 || start > piece.len() || !is_line_end(piece[start - 1]) {
        return Ok(0);
    }
    if is_given(alloc, &piece[..start], sep, given)? {
        Ok(start)
    } else {
        Ok(0)
    }
}

/// The text of a piece: after it a field is begun, so that the last record is the one that may go
/// on.
pub(crate) fn piece_text(alloc: Global, piece: &[u8], sep: Sep) -> Result<Text, AllocError>
    ensures { IfOk result (λ text. bytes_left text ≡ piece.now ++ separator sep ∷ []) }
{
    let mut bytes = Vec::with_capacity(alloc, piece.len().saturating_add(1))?;
    bytes.extend_from_slice(piece)?;
    bytes.push(sep.byte())?;
    Text::new(alloc, bytes, VecDeque::new(alloc))
}

/// The text of the last piece, of which no copy is made: a field is begun after it unless the
/// input ended of itself.
pub(crate) fn last_text(
    alloc: Global,
    mut text: Text,
    sep: Sep,
    is_whole: bool,
) -> Result<Text, AllocError>
    ensures { IfOk result (λ last.
        bytes_left last ≡ text_of_piece is_whole sep (bytes_left text)) }
{
    if !is_whole {
        text.push(alloc, sep.byte())?;
    }
    Ok(text)
}

/// Whether the first `given` records of a text are all that it has, and a line ended after them.
fn is_given(alloc: Global, front: &[u8], sep: Sep, given: usize) -> Result<bool, AllocError>
    ensures given { IfOk result (λ all. all ≡ true → HasNothingAfter sep given front.now) }
    ensures found { IfOk result (λ all. HasNothingAfter sep given front.now → all ≡ true) }
{
    let mut reader = records_in(alloc, piece_text(alloc, front, sep)?, sep)?;
    let mut record = ByteRecord::new(alloc);
    has_nothing_after(&mut reader.reader, &mut record, given)
}

/// Whether after this many records a reader gives only the one that a separator begins after the
/// end of a line.
fn has_nothing_after(
    reader: &mut Reader<Text>,
    row: &mut ByteRecord,
    given: usize,
) -> Result<bool, AllocError>
    requires { IsReading reader.old }
    ensures given { IfOk result (λ is. is ≡ true
        → drop given (rows_left reader.old) ≡ nothing ∷ []) }
    ensures found { IfOk result (λ is.
        drop given (rows_left reader.old) ≡ nothing ∷ [] → is ≡ true) }
{
    if !pass_over(reader, row, given)? {
        return Ok(false);
    }
    if !next_record(reader, row)? || !is_nothing(row) {
        return Ok(false);
    }
    Ok(!next_record(reader, row)?)
}
