//! Rows of returns.

ghost use Rattle.std.specs.Prelude.{◌≡◌, IfOk, option_map};
ghost use Rattle.tally_returns.specs.Counts.{VoteCounts};
ghost use Rattle.tally_store_rows.specs.Reading.{AreRead, entries_in, entry_of, return_of};
ghost use Rattle.tally_store_rows.specs.Reading.{station_of_row};
ghost use Rattle.tally_store_rows.specs.internal.Parts.{return_of_counts};

use crate::columns::{has_text, note_in};
use crate::items::counts_in;
use crate::statuses::status_of;
use sqlite::Row;
use std::alloc::{AllocError, Global};
use std::marker::Model;
use tally_returns::{Counts, Return, Status};
use tally_setup::{Code, Constituency, Setup, Station};
use tally_store_schema::{number_at, text_at};

/// The columns of a row of `returns` beside its codes.
#[derive(Clone, Copy)]
struct Head<'a> {
    rev: u32,
    slip: Code,
    status: Status,
    note: &'a str,
}

fn head_of<'a>(row: &'a Row, station: &[u8], con: &[u8]) -> Option<Head<'a>>
    ensures { (counts : VoteCounts) →
        option_map (return_of_counts counts) result ≡ return_of station.now con.now counts row.now }
{
    if row.column_count() != 6 || !has_text(row, 0, station) || !has_text(row, 1, con) {
        return None;
    }
    let rev = number_at(row, 2)?;
    let slip = Code::new(text_at(row, 3)?)?;
    let status = status_of(number_at(row, 4)?)?;
    let note = note_in(row, 5)?;
    Some(Head {
        rev,
        slip,
        status,
        note,
    })
}

/// The return of a station of a constituency whose row of `returns` this is, with these counts.
fn return_in(
    alloc: Global,
    row: &Row,
    station: &[u8],
    con: &[u8],
    counts: Counts,
) -> Result<Option<Return>, AllocError>
    ensures { IfOk result (λ found. found ≡ return_of station.now con.now counts row.now) }
{
    let Some(head) = head_of(row, station, con) else {
        return Ok(None);
    };
    Ok(Some(Return {
        rev: head.rev,
        slip: head.slip,
        status: head.status,
        note: String::from_str(alloc, head.note)?,
        counts,
    }))
}

/// A return that was read, with its station.
#[derive(Drop)]
pub struct ReturnFound {
    pub station: Code,
    pub standing: Return,
}

impl Model for ReturnFound {
    ghost use Rattle.std.specs.Prelude.{ℕ, List};
    ghost use Rattle.tally_returns.specs.Return.{StationReturn};

    ghost Value = { List ℕ × StationReturn };

    ghost view = { λ e. (e.station, e.standing) };
}

/// The station that a row of `returns` names, with its constituency.
fn station_of_row<'a>(setup: &'a Setup, row: &Row) -> Option<(&'a Constituency, &'a Station)>
    ensures { option_map (λ p. (p.0.now, p.1.now)) result ≡ station_of_row setup.now row.now }
{
    setup.station(Code::new(text_at(row, 0)?)?)
}

/// The return of a station whose rows these are.
fn entry_of(
    alloc: Global,
    con: &Constituency,
    station: Code,
    row: &Row,
    counts: &[Row],
) -> Result<Option<ReturnFound>, AllocError>
    ensures { IfOk result (λ found. found ≡ entry_of con.now.code station row.now counts.now) }
{
    let Some(counts) = counts_in(alloc, counts, station.as_bytes())? else {
        return Ok(None);
    };
    let found = return_in(alloc, row, station.as_bytes(), con.code.as_bytes(), counts)?;
    Ok(found.map(|standing| ReturnFound { station, standing }))
}

/// The returns whose rows the two tables hold, one after the other, if they hold such rows.
pub fn entries_in(
    alloc: Global,
    setup: &Setup,
    rows: &[Row],
    counts: &[Row],
) -> Result<Option<Vec<ReturnFound>>, AllocError>
    ensures { AreRead result (entries_in setup.now rows.now counts.now) }
{
    let mut entries = Vec::new(alloc);
    let mut left = counts;
    for row in rows {
        let Some((con, station)) = station_of_row(setup, row) else {
            return Ok(None);
        };
        let items = con.lists.len() + 2;
        if left.len() < items {
            return Ok(None);
        }
        let (mine, rest) = left.split_at(items);
        match entry_of(alloc, con, station.code, row, mine)? {
            Some(entry) => entries.push(entry)?,
            None => return Ok(None),
        }
        left = rest;
    }
    if left.is_empty() {
        Ok(Some(entries))
    } else {
        Ok(None)
    }
}
