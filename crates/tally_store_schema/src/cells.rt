//! What is read of a row that a query answered.

ghost use Rattle.std.specs.Prelude.{◌≡◌, option_map};
ghost use Rattle.sqlite_value.specs.Order.{column};
ghost use Rattle.tally_store_schema.specs.Values.{text_of, number_of, wide_number_of};

use sqlite::Row;
use sqlite_value::value::ValueRef;

/// The bytes of the text in a column, counted from 0. `None` where the column holds no text.
pub fn text_at(row: &Row, place: usize) -> Option<&[u8]>
    ensures { option_map (λ text. text.now) result ≡ text_of (column row.now place) }
{
    match row.get_ref(place) {
        Ok(ValueRef::Text(text)) => Some(text),
        _ => None,
    }
}

/// The whole number in a column, counted from 0. `None` where the column holds no number from 0 to
/// 2^32 - 1.
pub fn number_at(row: &Row, place: usize) -> Option<u32>
    ensures { result ≡ number_of (column row.now place) }
{
    match row.get_ref(place) {
        Ok(ValueRef::Int(n)) => u32::try_from(n).ok(),
        _ => None,
    }
}

/// The whole number in a column, counted from 0. `None` where the column holds no number from 0 on.
pub fn wide_number_at(row: &Row, place: usize) -> Option<u64>
    ensures { result ≡ wide_number_of (column row.now place) }
{
    match row.get_ref(place) {
        Ok(ValueRef::Int(n)) => u64::try_from(n).ok(),
        _ => None,
    }
}
