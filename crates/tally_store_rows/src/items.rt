//! Rows of a key, an item and a number, as the tables of counts, lots, seats and totals have them.

ghost use Rattle.std.specs.Prelude.{◌≡◌, IfOk};
ghost use Rattle.tally_store_schema.specs.Values.{number_of};
ghost use Rattle.tally_store_rows.specs.Reading.{AreRead, counts_of, item_for, numbers_from};

use crate::columns::has_text;
use sqlite::Row;
use std::alloc::{AllocError, Global};
use tally_returns::Counts;
use tally_store_schema::{number_at, wide_number_at};

/// The item of the spoiled votes, after those of 60 lists.
pub const SPOILED_ITEM: u32 = 61;

/// The number that a row has for this item of a key, where it is such a row.
fn number_for(row: &Row, key: &[u8], item: u64) -> Option<u32>
    ensures { result ≡ item_for number_of row.now key.now item }
{
    if row.column_count() != 3 || !has_text(row, 0, key) {
        return None;
    }
    if wide_number_at(row, 1)? != item {
        return None;
    }
    number_at(row, 2)
}

/// The numbers that the rows of a key have for the items from 1 on, one row for each and in order.
/// `None` where they are not such rows.
pub fn numbers_in(alloc: Global, rows: &[Row], key: &[u8]) -> Result<Option<Vec<u32>>, AllocError>
    ensures { AreRead result (numbers_from key.now 1 rows.now) }
{
    let mut numbers = Vec::new(alloc);
    let mut item = 1;
    for row in rows {
        match number_for(row, key, item) {
            Some(n) => numbers.push(n)?,
            None => return Ok(None),
        }
        item += 1;
    }
    Ok(Some(numbers))
}

/// The counts whose rows these are: the blank votes, those of each list, and the spoiled ones.
pub fn counts_in(alloc: Global, rows: &[Row], key: &[u8]) -> Result<Option<Counts>, AllocError>
    ensures { IfOk result (λ found. found ≡ counts_of key.now rows.now) }
{
    if rows.len() < 2 {
        return Ok(None);
    }
    let last = rows.len() - 1;
    let Some(blank) = number_for(&rows[0], key, 0) else {
        return Ok(None);
    };
    let Some(spoiled) = number_for(&rows[last], key, u64::from(SPOILED_ITEM)) else {
        return Ok(None);
    };
    let Some(votes) = numbers_in(alloc, &rows[1..last], key)? else {
        return Ok(None);
    };
    Ok(Some(Counts {
        votes,
        blank,
        spoiled,
    }))
}
