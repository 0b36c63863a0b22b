//! Rows of sums.

ghost use Rattle.std.specs.Prelude.{◌≡◌, IfOk};
ghost use Rattle.tally_store_schema.specs.Values.{wide_number_of};
ghost use Rattle.tally_store_rows.specs.Reading.{AreRead, item_for, items_from, sums_of};

use crate::columns::has_text;
use crate::items::SPOILED_ITEM;
use sqlite::Row;
use std::alloc::{AllocError, Global};
use std::marker::Model;
use tally_store_schema::wide_number_at;

/// Sums of counts: the votes for each list, the blank votes and the spoiled ones.
#[derive(Drop)]
pub struct Sums {
    pub votes: Vec<u64>,
    pub blank: u64,
    pub spoiled: u64,
}

impl Model for Sums {
    ghost use Rattle.tally_returns.specs.Counts.{VoteCounts};

    ghost Value = { VoteCounts };

    ghost view = { λ s. record { votes = s.votes.items; blank = s.blank; spoiled = s.spoiled } };
}

/// The number that a row has for this item of a key, where it is such a row.
fn sum_for(row: &Row, key: &[u8], item: u64) -> Option<u64>
    ensures { result ≡ item_for wide_number_of row.now key.now item }
{
    if row.column_count() != 3 || !has_text(row, 0, key) {
        return None;
    }
    if wide_number_at(row, 1)? != item {
        return None;
    }
    wide_number_at(row, 2)
}

/// The numbers that the rows of a key have for the items from 1 on, one row for each and in order.
fn votes_in(alloc: Global, rows: &[Row], key: &[u8]) -> Result<Option<Vec<u64>>, AllocError>
    ensures { AreRead result (items_from wide_number_of key.now 1 rows.now) }
{
    let mut votes = Vec::new(alloc);
    let mut item = 1;
    for row in rows {
        match sum_for(row, key, item) {
            Some(n) => votes.push(n)?,
            None => return Ok(None),
        }
        item += 1;
    }
    Ok(Some(votes))
}

/// The sums whose rows these are: the blank votes, those of each list, and the spoiled ones.
pub fn sums_in(alloc: Global, rows: &[Row], key: &[u8]) -> Result<Option<Sums>, AllocError>
    ensures { IfOk result (λ found. found ≡ sums_of key.now rows.now) }
{
    if rows.len() < 2 {
        return Ok(None);
    }
    let last = rows.len() - 1;
    let Some(blank) = sum_for(&rows[0], key, 0) else {
        return Ok(None);
    };
    let Some(spoiled) = sum_for(&rows[last], key, u64::from(SPOILED_ITEM)) else {
        return Ok(None);
    };
    let Some(votes) = votes_in(alloc, &rows[1..last], key)? else {
        return Ok(None);
    };
    Ok(Some(Sums {
        votes,
        blank,
        spoiled,
    }))
}
