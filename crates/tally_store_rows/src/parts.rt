//! The rows of one constituency among those of all.

ghost use Rattle.std.specs.Prelude.{◌≡◌};
ghost use Rattle.tally_store_rows.specs.Views.{is_empty, key_len, rows_after, rows_of_key};
ghost use Rattle.tally_store_rows.specs.Views.{tables_after, tables_in, tables_of_key};

use crate::columns::has_text;
use sqlite::Row;

/// Rows of the tables that may have several rows of a constituency.
#[derive(Clone, Copy)]
pub struct ConTables<'a> {
    pub lots: &'a [Row],
    pub seats: &'a [Row],
    pub gone: &'a [Row],
    pub totals: &'a [Row],
    pub past: &'a [Row],
}

/// How many rows at the start have this key.
fn key_len(rows: &[Row], key: &[u8]) -> usize
    ensures { result ≡ key_len key.now rows.now }
{
    for (place, row) in rows.iter().enumerate() {
        if !has_text(row, 0, key) {
            return place;
        }
    }
    rows.len()
}

/// The rows at the start that have this key, and those after them.
fn split_rows<'a>(rows: &'a [Row], key: &[u8]) -> (&'a [Row], &'a [Row])
    ensures front { result.0.now ≡ rows_of_key key.now rows.now }
    ensures back { result.1.now ≡ rows_after key.now rows.now }
{
    rows.split_at(key_len(rows, key))
}

impl<'a> ConTables<'a> {
    /// The rows at the start of each table that are those of this constituency, and those after
    /// them.
    pub fn split(self, con: &[u8]) -> (ConTables<'a>, ConTables<'a>)
        ensures front { tables_in result.0 ≡ tables_of_key con.now (tables_in self.entry) }
        ensures back { tables_in result.1 ≡ tables_after con.now (tables_in self.entry) }
    {
        let lots = split_rows(self.lots, con);
        let seats = split_rows(self.seats, con);
        let gone = split_rows(self.gone, con);
        let totals = split_rows(self.totals, con);
        let past = split_rows(self.past, con);
        let front = ConTables {
            lots: lots.0,
            seats: seats.0,
            gone: gone.0,
            totals: totals.0,
            past: past.0,
        };
        let back = ConTables {
            lots: lots.1,
            seats: seats.1,
            gone: gone.1,
            totals: totals.1,
            past: past.1,
        };
        (front, back)
    }

    /// Whether no table has a row.
    pub fn is_empty(&self) -> bool
        ensures { result ≡ is_empty (tables_in self.now) }
    {
        self.lots.is_empty()
            && self.seats.is_empty()
            && self.gone.is_empty()
            && self.totals.is_empty()
            && self.past.is_empty()
    }
}
