//! INSERT of several rows that begin alike, each with the next item and its number.

ghost use Rattle.std.specs.Prelude.{◌≡◌, ◌≤◌, ◌+◌, ◌*◌, ◌^◌, ◌∷◌, ◌++◌, [], length, take, pos};
ghost use Rattle.sqlite.specs.Values.{bound};
ghost use Rattle.sqlite_value.specs.declared.value.Value.TheVariants.{Int, Text};
ghost use Rattle.tally_store_schema.specs.internal.Inside.{InDatabase, Stays};
ghost use Rattle.tally_store_schema.specs.internal.StatementTexts.{insert_rows_text};
ghost use Rattle.tally_store_schema.specs.internal.StatementTexts.{most_rows_text};
ghost use Rattle.tally_store_schema.specs.internal.StatementTexts.{rows_end};
ghost use Rattle.tally_store_schema.specs.internal.Numbered.{IsFront, keyed_table, pairs};
ghost use Rattle.tally_store_schema.specs.Office.{InsertsAll, numbered_rows};
ghost use Rattle.tally_store_schema.specs.declared.table.KeyedTable.TheVariants as table;

use crate::running::run;
use sqlite::types::{ToSql, ValueRef};
use sqlite::{Alter, Error, Transaction, params};

/// The most rows that one statement adds.
const MOST_ROWS: usize = 16;

/// The tables whose rows end with an item and its number.
#[derive(Clone, Copy)]
enum NumberedTable {
    Counts,
    Lots,
    Seats,
    Past,
}

/// The text of an INSERT of the most rows.
fn most_rows_text(table: NumberedTable) -> &'static str
    ensures { result.now ≡ most_rows_text table }
{
    match table {
        NumberedTable::Counts => {
            "INSERT INTO counts (station, item, n) VALUES \
             (?1, ?, ?), (?1, ?, ?), (?1, ?, ?), (?1, ?, ?), \
             (?1, ?, ?), (?1, ?, ?), (?1, ?, ?), (?1, ?, ?), \
             (?1, ?, ?), (?1, ?, ?), (?1, ?, ?), (?1, ?, ?), \
             (?1, ?, ?), (?1, ?, ?), (?1, ?, ?), (?1, ?, ?)"
        }
        NumberedTable::Lots => {
            "INSERT INTO lots (con, place, list) VALUES \
             (?1, ?, ?), (?1, ?, ?), (?1, ?, ?), (?1, ?, ?), \
             (?1, ?, ?), (?1, ?, ?), (?1, ?, ?), (?1, ?, ?), \
             (?1, ?, ?), (?1, ?, ?), (?1, ?, ?), (?1, ?, ?), \
             (?1, ?, ?), (?1, ?, ?), (?1, ?, ?), (?1, ?, ?)"
        }
        NumberedTable::Seats => {
            "INSERT INTO seats (con, list, n) VALUES \
             (?1, ?, ?), (?1, ?, ?), (?1, ?, ?), (?1, ?, ?), \
             (?1, ?, ?), (?1, ?, ?), (?1, ?, ?), (?1, ?, ?), \
             (?1, ?, ?), (?1, ?, ?), (?1, ?, ?), (?1, ?, ?), \
             (?1, ?, ?), (?1, ?, ?), (?1, ?, ?), (?1, ?, ?)"
        }
        NumberedTable::Past => {
            "INSERT INTO past (con, edition, list, n) VALUES \
             (?1, ?2, ?, ?), (?1, ?2, ?, ?), (?1, ?2, ?, ?), (?1, ?2, ?, ?), \
             (?1, ?2, ?, ?), (?1, ?2, ?, ?), (?1, ?2, ?, ?), (?1, ?2, ?, ?), \
             (?1, ?2, ?, ?), (?1, ?2, ?, ?), (?1, ?2, ?, ?), (?1, ?2, ?, ?), \
             (?1, ?2, ?, ?), (?1, ?2, ?, ?), (?1, ?2, ?, ?), (?1, ?2, ?, ?)"
        }
    }
}

/// Where the text of this many rows ends in that. An item and its number are the next parameters.
fn rows_end(table: NumberedTable, rows: usize) -> usize
    requires few { rows ≤ 16 }
    ensures { result ≡ rows_end table rows }
{
    match table {
        NumberedTable::Counts => 43 + 12 * rows,
        NumberedTable::Lots => 41 + 12 * rows,
        NumberedTable::Seats => 38 + 12 * rows,
        NumberedTable::Past => 46 + 16 * rows,
    }
}

/// The text of an INSERT of this many rows.
fn rows_text(table: NumberedTable, rows: usize) -> &'static str
    requires few { rows ≤ 16 }
    ensures { result.now ≡ insert_rows_text table rows }
{
    &most_rows_text(table)[..rows_end(table, rows)]
}

/// The values that the rows begin with, and then each number with its item.
fn values_of<'a>(front: &[ValueRef<'a>], first: u32, numbers: &[u32]) -> [ValueRef<'a>; 34]
    requires short { length front.now ≤ 2 }
    requires few { length numbers.now ≤ 16 }
    requires low { first + length numbers.now ≤ 2 ^ 32 }
    ensures { bound (take (length front.now + 2 * length numbers.now) result)
        ≡ bound front.now ++ pairs first numbers.now }
{
    let mut values = [ValueRef::Null; 34];
    values[..front.len()].copy_from_slice(front);
    for place in 0..numbers.len() {
        values[front.len() + 2 * place] = (first + place as u32).to_sql();
        values[front.len() + 2 * place + 1] = numbers[place].to_sql();
    }
    values
}

/// Adds a row for each of at most sixteen numbers.
fn insert_few<S: Alter>(
    tx: &mut Transaction<'_, S>,
    table: NumberedTable,
    front: &[ValueRef<'_>],
    first: u32,
    numbers: &[u32],
) -> Result<(), Error>
    requires front { IsFront table (bound front.now) }
    requires few { length numbers.now ≤ 16 }
    requires low { first + length numbers.now ≤ 2 ^ 32 }
    ensures stays { Stays S.Store tx.old tx.new }
    ensures inserted { InDatabase S.Store (InsertsAll (keyed_table table)
        (numbered_rows (bound front.now) first numbers.now)) tx.old tx.new result }
{
    if numbers.is_empty() {
        return Ok(());
    }
    let values = values_of(front, first, numbers);
    let count = front.len() + 2 * numbers.len();
    run(tx, rows_text(table, numbers.len()), &values[..count])
}

/// Adds a row for each of these numbers.
fn insert_rows<S: Alter>(
    tx: &mut Transaction<'_, S>,
    table: NumberedTable,
    front: &[ValueRef<'_>],
    first: u32,
    numbers: &[u32],
) -> Result<(), Error>
    requires front { IsFront table (bound front.now) }
    requires low { first + length numbers.now ≤ 2 ^ 32 }
    ensures stays { Stays S.Store tx.old tx.new }
    ensures inserted { InDatabase S.Store (InsertsAll (keyed_table table)
        (numbered_rows (bound front.now) first numbers.now)) tx.old tx.new result }
{
    if numbers.len() <= MOST_ROWS {
        return insert_few(tx, table, front, first, numbers);
    }
    let (now, later) = numbers.split_at(MOST_ROWS);
    insert_few(tx, table, front, first, now)?;
    insert_rows(tx, table, front, first + 16, later)
}

/// Adds the numbers of several items of a return, one after the other from the first.
pub fn insert_numbers<S: Alter>(
    tx: &mut Transaction<'_, S>,
    station: &str,
    first: u32,
    numbers: &[u32],
) -> Result<(), Error>
    requires low { first + length numbers.now ≤ 2 ^ 32 }
    ensures stays { Stays S.Store tx.old tx.new }
    ensures inserted { InDatabase S.Store (InsertsAll table.Counts
        (numbered_rows (Text station.now ∷ []) first numbers.now)) tx.old tx.new result }
{
    insert_rows(tx, NumberedTable::Counts, params![station], first, numbers)
}

/// Adds a lot: the lists at its places, from the first.
pub fn insert_lots<S: Alter>(
    tx: &mut Transaction<'_, S>,
    con: &str,
    lists: &[u32],
) -> Result<(), Error>
    requires few { 1 + length lists.now ≤ 2 ^ 32 }
    ensures stays { Stays S.Store tx.old tx.new }
    ensures inserted { InDatabase S.Store (InsertsAll table.Lots
        (numbered_rows (Text con.now ∷ []) 1 lists.now)) tx.old tx.new result }
{
    insert_rows(tx, NumberedTable::Lots, params![con], 1, lists)
}

/// Adds the seats of the lists, from the first list.
pub fn insert_seats<S: Alter>(
    tx: &mut Transaction<'_, S>,
    con: &str,
    seats: &[u32],
) -> Result<(), Error>
    requires few { 1 + length seats.now ≤ 2 ^ 32 }
    ensures stays { Stays S.Store tx.old tx.new }
    ensures inserted { InDatabase S.Store (InsertsAll table.Seats
        (numbered_rows (Text con.now ∷ []) 1 seats.now)) tx.old tx.new result }
{
    insert_rows(tx, NumberedTable::Seats, params![con], 1, seats)
}

/// Adds the seats of the lists on record, from the first list.
pub fn insert_past<S: Alter>(
    tx: &mut Transaction<'_, S>,
    con: &str,
    edition: u32,
    seats: &[u32],
) -> Result<(), Error>
    requires few { 1 + length seats.now ≤ 2 ^ 32 }
    ensures stays { Stays S.Store tx.old tx.new }
    ensures inserted { InDatabase S.Store (InsertsAll table.Past
        (numbered_rows (Text con.now ∷ Int (pos edition) ∷ []) 1 seats.now))
        tx.old tx.new result }
{
    insert_rows(tx, NumberedTable::Past, params![con, edition], 1, seats)
}
