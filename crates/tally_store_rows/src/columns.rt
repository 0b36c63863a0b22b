//! Columns of a row that was read.

ghost use Rattle.std.specs.Prelude.{◌≡◌, option_map};
ghost use Rattle.tally_store_rows.specs.Reading.{has_text, note_in, utf8_of};

use sqlite::Row;
use std::str;
use tally_store_schema::text_at;

/// A text in UTF-8.
fn utf8_of(text: &[u8]) -> Option<&str>
    ensures { option_map (λ t. t.now) result ≡ utf8_of text.now }
{
    match str::from_utf8(text) {
        Ok(text) => Some(text),
        Err(_) => None,
    }
}

/// The text in UTF-8 in a column.
pub fn note_in(row: &Row, place: usize) -> Option<&str>
    ensures { option_map (λ t. t.now) result ≡ note_in row.now place }
{
    utf8_of(text_at(row, place)?)
}

/// Whether a column holds this text.
pub fn has_text(row: &Row, place: usize, text: &[u8]) -> bool
    ensures { result ≡ has_text row.now place text.now }
{
    match text_at(row, place) {
        Some(found) => found == text,
        None => false,
    }
}
