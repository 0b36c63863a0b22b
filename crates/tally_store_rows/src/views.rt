//! What is seen of a constituency, by its rows.

ghost use Rattle.std.specs.Prelude.{◌≡◌, IfOk};
ghost use Rattle.tally_store_rows.specs.Views.{statuses_of, tables_in, view_from_tables};

use crate::constituencies::{all_gone_in, standing_in};
use crate::items::numbers_in;
use crate::parts::ConTables;
use crate::past::past_in;
use crate::sums::sums_in;
use sqlite::Row;
use std::alloc::{AllocError, Global};
use tally_returns::ConView;
use tally_setup::Constituency;

/// How many stations a constituency has, and how many of their returns are in each status.
#[derive(Clone, Copy)]
pub struct Statuses {
    pub stations: u32,
    pub received: u32,
    pub queried: u32,
    pub corrected: u32,
    pub closed: u32,
}

/// The numbers of stations and of returns in each status, of what is seen of a constituency.
pub fn statuses_of(view: &ConView) -> Statuses
    ensures { result ≡ statuses_of view.now }
{
    Statuses {
        stations: view.stations,
        received: view.received,
        queried: view.queried,
        corrected: view.corrected,
        closed: view.closed,
    }
}

/// The view of a constituency with these numbers of returns by status, by its row of `cons` and its
/// rows of the other tables. `None` where these are not such rows.
pub fn view_from_tables(
    alloc: Global,
    con: &Constituency,
    statuses: Statuses,
    row: &Row,
    tables: ConTables<'_>,
) -> Result<Option<ConView>, AllocError>
    ensures { IfOk result
        (λ v. v ≡ view_from_tables con.now statuses row.now (tables_in tables.entry)) }
{
    let code = con.code.as_bytes();
    let Some(standing) = standing_in(row, code) else {
        return Ok(None);
    };
    let Some(lot) = numbers_in(alloc, tables.lots, code)? else {
        return Ok(None);
    };
    let Some(seats) = numbers_in(alloc, tables.seats, code)? else {
        return Ok(None);
    };
    let Some(gone) = all_gone_in(alloc, tables.gone, code)? else {
        return Ok(None);
    };
    let Some(sums) = sums_in(alloc, tables.totals, code)? else {
        return Ok(None);
    };
    let Some(past) = past_in(alloc, tables.past, code, con.lists.len())? else {
        return Ok(None);
    };
    Ok(Some(ConView {
        edition: standing.edition,
        certified: standing.certified,
        note: String::from_str(alloc, standing.note)?,
        lot,
        stations: statuses.stations,
        received: statuses.received,
        queried: statuses.queried,
        corrected: statuses.corrected,
        closed: statuses.closed,
        votes: sums.votes,
        blank: sums.blank,
        spoiled: sums.spoiled,
        seats,
        gone,
        past,
    }))
}
