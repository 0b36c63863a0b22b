//! SELECT of the rows of a key, and of whole tables.

ghost use Rattle.std.specs.Prelude.{◌≡◌};
ghost use Rattle.tally_store_schema.specs.internal.Inside.{InDatabase, OnlyReads, OnlyReadsFrom};
ghost use Rattle.tally_store_schema.specs.Office.{FindsRows, HasTables, ShowsAllRows};
ghost use Rattle.tally_store_schema.specs.internal.StatementTexts.{rows_of_text, all_rows_text};

use crate::table::KeyedTable;
use sqlite::{Alter, Error, Row, Transaction, params};

fn text_of(table: KeyedTable) -> &'static str
    ensures { result.now ≡ rows_of_text table }
{
    match table {
        KeyedTable::Returns => {
            "SELECT station, con, rev, slip, status, note FROM returns WHERE station = ?1 \
             ORDER BY station"
        }
        KeyedTable::Counts => {
            "SELECT station, item, n FROM counts WHERE station = ?1 ORDER BY station, item"
        }
        KeyedTable::Cons => {
            "SELECT con, edition, certified, note FROM cons WHERE con = ?1 ORDER BY con"
        }
        KeyedTable::Lots => "SELECT con, place, list FROM lots WHERE con = ?1 ORDER BY con, place",
        KeyedTable::Seats => "SELECT con, list, n FROM seats WHERE con = ?1 ORDER BY con, list",
        KeyedTable::Gone => {
            "SELECT con, list, place, note FROM gone WHERE con = ?1 ORDER BY con, list, place"
        }
        KeyedTable::Totals => "SELECT con, item, n FROM totals WHERE con = ?1 ORDER BY con, item",
        KeyedTable::Past => {
            "SELECT con, edition, list, n FROM past WHERE con = ?1 ORDER BY con, edition, list"
        }
    }
}

/// The rows of a key, with all columns, in the order of the table's whole key.
pub fn rows_of_key<S: Alter>(
    tx: &mut Transaction<'_, S>,
    table: KeyedTable,
    key: &str,
) -> Result<Vec<Row>, Error>
    ensures reads { OnlyReads S.Store tx.old tx.new result }
    ensures found { InDatabase S.Store (FindsRows table key.now) tx.old tx.new result }
{
    tx.query_all(text_of(table), params![key])
}

fn all_rows_text(table: KeyedTable) -> &'static str
    ensures { result.now ≡ all_rows_text table }
{
    match table {
        KeyedTable::Returns => {
            "SELECT station, con, rev, slip, status, note FROM returns ORDER BY station"
        }
        KeyedTable::Counts => "SELECT station, item, n FROM counts ORDER BY station, item",
        KeyedTable::Cons => "SELECT con, edition, certified, note FROM cons ORDER BY con",
        KeyedTable::Lots => "SELECT con, place, list FROM lots ORDER BY con, place",
        KeyedTable::Seats => "SELECT con, list, n FROM seats ORDER BY con, list",
        KeyedTable::Gone => "SELECT con, list, place, note FROM gone ORDER BY con, list, place",
        KeyedTable::Totals => "SELECT con, item, n FROM totals ORDER BY con, item",
        KeyedTable::Past => "SELECT con, edition, list, n FROM past ORDER BY con, edition, list",
    }
}

/// All rows of a table, with all columns, in the order of the table's key.
pub fn all_rows<S: Alter>(tx: &mut Transaction<'_, S>, table: KeyedTable) -> Result<Vec<Row>, Error>
    ensures reads { OnlyReadsFrom HasTables S.Store tx.old tx.new result }
    ensures shown { InDatabase S.Store (ShowsAllRows table) tx.old tx.new result }
{
    tx.query_all(all_rows_text(table), &[])
}
