//! Rows of certificates that were reopened.

ghost use Rattle.std.specs.Prelude.{◌≡◌, IfOk};
ghost use Rattle.tally_store_rows.specs.Reading.{AreRead, past_for, past_from, past_of, record_of};

use crate::columns::has_text;
use sqlite::Row;
use std::alloc::{AllocError, Global};
use tally_returns::Past;
use tally_store_schema::{number_at, wide_number_at};

/// The seats of the list at this place that a certificate of this edition gave, where it is such a
/// row.
fn past_for(row: &Row, con: &[u8], edition: u32, place: u64) -> Option<u32>
    ensures { result ≡ past_for con.now edition place row.now }
{
    if row.column_count() != 4 || !has_text(row, 0, con) {
        return None;
    }
    if number_at(row, 1)? != edition {
        return None;
    }
    if wide_number_at(row, 2)? != place {
        return None;
    }
    number_at(row, 3)
}

/// The seats of the lists from place 1 on, one row for each and in order.
fn seats_in(
    alloc: Global,
    rows: &[Row],
    con: &[u8],
    edition: u32,
) -> Result<Option<Vec<u32>>, AllocError>
    ensures { AreRead result (past_from con.now edition 1 rows.now) }
{
    let mut seats = Vec::new(alloc);
    let mut place = 1;
    for row in rows {
        match past_for(row, con, edition, place) {
            Some(n) => seats.push(n)?,
            None => return Ok(None),
        }
        place += 1;
    }
    Ok(Some(seats))
}

/// The certificate whose rows these are, one for each list.
fn record_in(alloc: Global, rows: &[Row], con: &[u8]) -> Result<Option<Past>, AllocError>
    ensures { IfOk result (λ found. found ≡ record_of con.now rows.now) }
{
    if rows.is_empty() {
        return Ok(None);
    }
    let Some(edition) = number_at(&rows[0], 1) else {
        return Ok(None);
    };
    let Some(seats) = seats_in(alloc, rows, con, edition)? else {
        return Ok(None);
    };
    Ok(Some(Past { edition, seats }))
}

/// The certificates whose rows these are, of each a row for each of this many lists.
pub fn past_in(
    alloc: Global,
    rows: &[Row],
    con: &[u8],
    lists: usize,
) -> Result<Option<Vec<Past>>, AllocError>
    ensures { AreRead result (past_of con.now lists rows.now) }
{
    let mut past = Vec::new(alloc);
    let mut left = rows;
    for _ in 0..rows.len() {
        if left.is_empty() {
            return Ok(Some(past));
        }
        if left.len() < lists {
            return Ok(None);
        }
        let (first, others) = left.split_at(lists);
        match record_in(alloc, first, con)? {
            Some(certificate) => past.push(certificate)?,
            None => return Ok(None),
        }
        left = others;
    }
    if left.is_empty() {
        Ok(Some(past))
    } else {
        Ok(None)
    }
}
