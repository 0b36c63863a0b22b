//! The returns of a constituency as CSV, and its stations.

use crate::views::{check_text, cut};
use std::alloc::Global;
use std::test::*;
use tally_report_overview::{returns_text, stations_text};
use tally_returns::{Return, StationRow, Status};
use tally_setup::Constituency;
use tally_test_scripts::{TWIN_TOWN, code, counts, number, setup};

// One station, its return closed; the same without a return.
const CLOSED: &str = "s1 300 closed 2 p1: 100,100 0 0";

const CLOSED_STATIONS: &str = "STATIONS c1 Twin Town
stations 1 missing 0 closed 1
s1                   300 closed       2 p1                   200       0       0
";

const CLOSED_RETURNS: &str = "station,slip,blank,spoiled,A,B
s1,p1,0,0,100,100
";

const MISSING_STATIONS: &str = "STATIONS c1 Twin Town
stations 1 missing 1 closed 0
s1                   300 -
";

const NO_RETURNS: &str = "station,slip,blank,spoiled,A,B\n";

// A station of each status, one without votes, and one that is missing.
const FIVE: &str = "s1 300 received 1 p1: 100,100 0 0
s2 1000000 queried 2 p-2: 0,0 0 0
s3 7
s4 50 corrected 12 p1: 3,2 1 4
s5-of-16-letters 100 closed 4 slip_16_letters_: 9,10 11 12";

const FIVE_STATIONS: &str = "STATIONS c1 Twin Town
stations 5 missing 1 closed 1
s1                   300 received     1 p1                   200       0       0
s2               1000000 queried      2 p-2                    0       0       0
s3                     7 -
s4                    50 corrected   12 p1                     5       1       4
s5-of-16-letters     100 closed       4 slip_16_letters_      19      11      12
";

const FIVE_RETURNS: &str = "station,slip,blank,spoiled,A,B
s1,p1,0,0,100,100
s2,p-2,0,0,0,0
s4,p1,1,4,3,2
s5-of-16-letters,slip_16_letters_,11,12,9,10
";

#[test]
fn the_texts_of_the_stations(rt: HostRuntime) -> Result<(), Fail> {
    let alloc = rt.alloc();
    check(alloc, CLOSED, CLOSED_STATIONS, CLOSED_RETURNS)?;
    check(alloc, "s1 300", MISSING_STATIONS, NO_RETURNS)?;
    check(alloc, FIVE, FIVE_STATIONS, FIVE_RETURNS)
}

fn check(
    alloc: Global,
    lines: &str,
    stations: &'static str,
    returns: &'static str,
) -> Result<(), Fail> {
    let setup = setup(alloc, TWIN_TOWN)?;
    let con = setup.cons().first().ok_or("no constituency")?;
    let rows = rows_of(alloc, lines)?;
    check_text(&stations_text(alloc, con, &rows), stations)?;
    check_returns(alloc, con, &rows, returns)
}

fn check_returns(
    alloc: Global,
    con: &Constituency,
    rows: &[StationRow],
    want: &'static str,
) -> Result<(), Fail> {
    let text = returns_text(alloc, con, rows).ok().ok_or("no text")?;
    if text.as_slice() == want.as_bytes() {
        return Ok(());
    }
    Err(Fail::from(want))
}

fn rows_of(alloc: Global, lines: &str) -> Result<Vec<StationRow>, Fail> {
    let mut rows = Vec::new(alloc);
    for line in lines.lines() {
        rows.push(row_of(alloc, line)?)?;
    }
    Ok(rows)
}

/// A station and its electors, and where it has a return its status, revision and slip, its votes,
/// and the blank and the spoiled ones.
fn row_of(alloc: Global, line: &str) -> Result<StationRow, Fail> {
    let (station, rest) = cut(line, " ");
    let (electors, rest) = cut(rest, " ");
    Ok(StationRow {
        station: code(station)?,
        electors: number(electors)?,
        found: return_of(alloc, rest)?,
    })
}

fn return_of(alloc: Global, text: &str) -> Result<Option<Return>, Fail> {
    if text.is_empty() {
        return Ok(None);
    }
    let (standing, votes) = cut(text, ": ");
    let (status, rest) = cut(standing, " ");
    let (rev, slip) = cut(rest, " ");
    Ok(Some(Return {
        rev: number(rev)?,
        slip: code(slip)?,
        status: status_of(status),
        note: String::from_str(alloc, "the sum, again")?,
        counts: counts(alloc, votes)?,
    }))
}

fn status_of(word: &str) -> Status {
    match word {
        "received" => Status::Received,
        "queried" => Status::Queried,
        "corrected" => Status::Corrected,
        _ => Status::Closed,
    }
}
