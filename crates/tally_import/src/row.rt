//! Rows of returns.

ghost use Rattle.std.specs.Prelude.{◌≡◌, ◌≤◌, ℕ, List, [], drop, is_some, map, Some, None, IfOk};
ghost use Rattle.std.specs.Prelude.{if◌then◌else◌};
ghost use Rattle.std.specs.Option.{option_copied};
ghost use Rattle.csv.specs.Records.{fields_of};
ghost use Rattle.tally_frac.specs.Limits.{most_lists};
ghost use Rattle.tally_returns.specs.Lodge.{Stations};
ghost use Rattle.tally_returns_rows.specs.Source.{IsLodgeOrBad};
ghost use Rattle.tally_import.specs.Rows.{first_unread, is_number_text, row_of, written_number};
ghost use Rattle.tally_import.specs.StationSet.{is_station};

use crate::header::FIXED_NAMES;
use csv::ByteRecord;
use std::alloc::{AllocError, Global};
use std::collections::HashSet;
use tally_import_records::field;
use tally_returns::{Ask, Counts};
use tally_returns_rows::{BadRow, Column, Row};
use tally_setup::Code;

/// The most digits that a number may have.
const DIGITS: usize = 9;

/// The row that a record is, under a header of this many lists. Without stations every code is one.
pub fn row_of(
    alloc: Global,
    lists: usize,
    stations: Option<&HashSet<Code>>,
    fields: &ByteRecord,
) -> Result<Row, AllocError>
    requires { lists ≤ most_lists }
    ensures is { IfOk result (λ row. (limits : Stations)
        → ((code : List ℕ) → is_station (option_copied stations.entry) code ≡ is_some (limits code))
        → row ≡ row_of limits lists (fields_of fields.now)) }
    ensures row { IfOk result IsLodgeOrBad }
{
    if fields.len() != lists + FIXED_NAMES {
        return Ok(Row::Bad(BadRow::Fields(fields.len())));
    }
    let Some(station) = Code::new(field(fields, 0)) else {
        return Ok(Row::Bad(BadRow::BadStation));
    };
    if !is_station(stations, &station) {
        return Ok(Row::Bad(BadRow::NoStation));
    }
    let Some(slip) = Code::new(field(fields, 1)) else {
        return Ok(Row::Bad(BadRow::BadSlip));
    };
    let Some(blank) = written_number(field(fields, 2)) else {
        return Ok(Row::Bad(BadRow::BadNumber(Column::Blank)));
    };
    let Some(spoiled) = written_number(field(fields, 3)) else {
        return Ok(Row::Bad(BadRow::BadNumber(Column::Spoiled)));
    };
    let mut votes = Vec::with_capacity(alloc, lists)?;
    if let Some(place) = push_numbers(&mut votes, fields)? {
        return Ok(Row::Bad(BadRow::BadNumber(Column::List(place))));
    }
    Ok(Row::Lodge(Ask::Lodge {
        station,
        slip,
        counts: Counts {
            votes,
            blank,
            spoiled,
        },
    }))
}

/// Whether a code is one of these stations. Without stations every code is one.
fn is_station(stations: Option<&HashSet<Code>>, code: &Code) -> bool
    ensures { result ≡ is_station (option_copied stations.entry) code.now }
{
    match stations {
        Some(stations) => stations.contains(code),
        None => true,
    }
}

/// Puts the numbers of a record's fields after the fixed ones into an empty list, up to the first
/// that cannot be read, and answers the place of that one. A call of its own leaves the registers
/// to its loops, where most of a check's own time goes.
#[inline(never)]
fn push_numbers(votes: &mut Vec<u32>, fields: &ByteRecord) -> Result<Option<usize>, AllocError>
    requires { votes.old.items ≡ [] }
    ensures unread { IfOk result (λ place.
        place ≡ first_unread 0 (drop 4 (fields_of fields.now))) }
    ensures votes { IfOk result (λ place. place ≡ None
        → votes.new.items ≡ map written_number (drop 4 (fields_of fields.now))) }
{
    for place in FIXED_NAMES..fields.len() {
        let Some(n) = written_number(field(fields, place)) else {
            return Ok(Some(place - FIXED_NAMES));
        };
        votes.push(n)?;
    }
    Ok(None)
}

/// The number that a text of 1 to 9 digits writes.
fn written_number(text: &[u8]) -> Option<u32>
    ensures { result ≡
        (if is_number_text text.now then Some (written_number text.now) else None) }
{
    if text.is_empty() || text.len() > DIGITS {
        return None;
    }
    let mut n: u32 = 0;
    for digit in text {
        if !digit.is_ascii_digit() {
            return None;
        }
        n = 10 * n + u32::from(digit - b'0');
    }
    Some(n)
}
