//! Looking up a constituency.

ghost use Rattle.std.specs.Prelude.{◌≡◌, IfOk, Some, option_and_then};
ghost use Rattle.sqlite_value.specs.Order.{column};
ghost use Rattle.tally_returns.specs.View.{FitsView};
ghost use Rattle.tally_store_schema.specs.Values.{number_of};
ghost use Rattle.tally_setup.specs.Limits.{most_stations};
ghost use Rattle.tally_store_schema.specs.Office.{IsFound, ShowsTable};
ghost use Rattle.tally_store_rows.specs.Reading.{status_of, sums_of};
ghost use Rattle.tally_store_entries.specs.internal.Constituencies.{FindsCertified};
ghost use Rattle.tally_store_entries.specs.internal.Constituencies.{FindsProgressRow};
ghost use Rattle.tally_store_entries.specs.internal.Constituencies.{FindsSums};
ghost use Rattle.tally_store_entries.specs.internal.Constituencies.{FindsView};
ghost use Rattle.tally_store_entries.specs.internal.Entries.{ChangesNothing, Finds, FindsFrom};
ghost use Rattle.tally_store_entries.specs.internal.Found.{AreRowsFound, AreWithin};
ghost use Rattle.tally_store_entries.specs.internal.Found.{FindsKnownStatuses};
ghost use Rattle.tally_store_entries.specs.internal.Found.{IsFoundIf};
ghost use Rattle.tally_store_entries.specs.internal.Found.{FindsStatus, IsStageAmong};
ghost use Rattle.tally_store_entries.specs.internal.Found.{certified_in, status_in};
ghost use Rattle.tally_store_entries.specs.internal.Found.{view_of_rows, with_station};
ghost use Rattle.tally_store_schema.specs.internal.Inside.{IsOpenInside, OnlyReads, StaysFrom};

use sqlite::{Alter, Error, ErrorCode, Row, Transaction};
use std::alloc::Global;
use std::marker::Model;
use tally_returns::{ConView, ProgressRow, Status};
use tally_setup::{Constituency, Setup};
use tally_store_rows::{
    ConTables, Statuses, Sums, standing_in, status_of, sums_in, view_from_tables,
};
use tally_store_schema::{KeyedTable, all_rows, number_at, rows_of_key, text_at};

/// Whether the constituency that has this row is certified. Other rows are an error.
fn certified_in(rows: &[Row], con: &str) -> Result<bool, Error>
    ensures { IfOk result (λ found. certified_in con.now rows.now ≡ Some found) }
{
    if rows.len() != 1 {
        return Err(Error::SqliteFailure(ErrorCode::DatabaseCorrupt));
    }
    match standing_in(&rows[0], con.as_bytes()) {
        Some(standing) => Ok(standing.certified),
        None => Err(Error::SqliteFailure(ErrorCode::DatabaseCorrupt)),
    }
}

/// The sums of the constituency whose rows these are. Other rows are an error.
fn sums_of_rows(alloc: Global, rows: &[Row], con: &str) -> Result<Sums, Error>
    ensures { IfOk result (λ found. sums_of con.now rows.now ≡ Some found) }
{
    match sums_in(alloc, rows, con.as_bytes()) {
        Ok(Some(sums)) => Ok(sums),
        Ok(None) => Err(Error::SqliteFailure(ErrorCode::DatabaseCorrupt)),
        Err(_) => Err(Error::SqliteFailure(ErrorCode::OutOfMemory)),
    }
}

/// Whether a constituency is certified.
pub fn find_certified<S: Alter>(tx: &mut Transaction<'_, S>, con: &str) -> Result<bool, Error>
    ensures reads { OnlyReads S.Store tx.old tx.new result }
    ensures found { Finds S.Store (FindsCertified con.now) tx.old tx.new result }
{
    let rows = rows_of_key(tx, KeyedTable::Cons, con)?;
    certified_in(&rows, con)
}

/// The sums of the closed returns of a constituency, by its rows of `totals`.
pub fn find_sums<S: Alter>(
    alloc: Global,
    tx: &mut Transaction<'_, S>,
    con: &str,
) -> Result<Sums, Error>
    ensures reads { OnlyReads S.Store tx.old tx.new result }
    ensures found { Finds S.Store (FindsSums con.now) tx.old tx.new result }
{
    let rows = rows_of_key(tx, KeyedTable::Totals, con)?;
    sums_of_rows(alloc, &rows, con)
}

/// The rows of a key in two tables, in the second one where they are asked for.
fn rows_of_two<S: Alter>(
    alloc: Global,
    tx: &mut Transaction<'_, S>,
    first: KeyedTable,
    second: KeyedTable,
    key: &str,
    with_second: bool,
) -> Result<(Vec<Row>, Vec<Row>), Error>
    ensures reads { OnlyReads S.Store tx.old tx.new result }
    ensures found { Finds S.Store (λ seen rows. IsFound first key.now seen rows.0.items ×
        IsFoundIf with_second second key.now seen rows.1.items) tx.old tx.new result }
{
    let of_first = rows_of_key(tx, first, key)?;
    if !with_second {
        return Ok((of_first, Vec::new(alloc)));
    }
    let of_second = rows_of_key(tx, second, key)?;
    Ok((of_first, of_second))
}

/// The rows of a constituency in the tables that have it for their key.
#[derive(Drop)]
struct ConRows {
    cons: Vec<Row>,
    lots: Vec<Row>,
    seats: Vec<Row>,
    gone: Vec<Row>,
    totals: Vec<Row>,
    past: Vec<Row>,
}

impl Model for ConRows {
    ghost use Rattle.tally_store_entries.specs.internal.Found.{Rows};

    ghost Value = { Rows };

    ghost view = { λ r. record {
      cons = r.cons.items;
      tables = record {
        lots = r.lots.items;
        seats = r.seats.items;
        gone = r.gone.items;
        totals = r.totals.items;
        past = r.past.items;
      };
    } };
}

/// The rows of a constituency, with those of its certificates on record or without them.
fn rows_of_con<S: Alter>(
    alloc: Global,
    tx: &mut Transaction<'_, S>,
    con: &str,
    with_past: bool,
) -> Result<ConRows, Error>
    ensures reads { OnlyReads S.Store tx.old tx.new result }
    ensures found { Finds S.Store (AreRowsFound with_past con.now) tx.old tx.new result }
{
    let (cons, lots) = rows_of_two(alloc, tx, KeyedTable::Cons, KeyedTable::Lots, con, true)?;
    let (seats, gone) = rows_of_two(alloc, tx, KeyedTable::Seats, KeyedTable::Gone, con, true)?;
    let (totals, past) = rows_of_two(
        alloc,
        tx,
        KeyedTable::Totals,
        KeyedTable::Past,
        con,
        with_past,
    )?;
    Ok(ConRows {
        cons,
        lots,
        seats,
        gone,
        totals,
        past,
    })
}

fn status_at(row: &Row) -> Option<Status>
    ensures { result ≡ option_and_then status_of (number_of (column row.now 4)) }
{
    status_of(number_at(row, 4)?)
}

/// The status of the return whose row this is, if there is a row. Other rows are an error.
fn status_in(rows: &[Row]) -> Result<Option<Status>, Error>
    ensures { IfOk result (λ found. status_in rows.now ≡ Some found) }
{
    if rows.is_empty() {
        return Ok(None);
    }
    if rows.len() != 1 {
        return Err(Error::SqliteFailure(ErrorCode::DatabaseCorrupt));
    }
    match status_at(&rows[0]) {
        Some(status) => Ok(Some(status)),
        None => Err(Error::SqliteFailure(ErrorCode::DatabaseCorrupt)),
    }
}

/// The status of the return of a station, if it has one.
fn find_status<S: Alter>(
    tx: &mut Transaction<'_, S>,
    station: &str,
) -> Result<Option<Status>, Error>
    ensures reads { OnlyReads S.Store tx.old tx.new result }
    ensures found { Finds S.Store (FindsStatus station.now) tx.old tx.new result }
{
    let rows = rows_of_key(tx, KeyedTable::Returns, station)?;
    status_in(&rows)
}

/// These numbers with one station more, whose return has this status, if there is one.
fn with_station(so_far: Statuses, status: Option<Status>) -> Statuses
    requires room { AreWithin most_stations so_far }
    ensures { result ≡ with_station so_far status }
{
    let mut now = so_far;
    now.stations += 1;
    match status {
        Some(Status::Received) => now.received += 1,
        Some(Status::Queried) => now.queried += 1,
        Some(Status::Corrected) => now.corrected += 1,
        Some(Status::Closed) => now.closed += 1,
        None => {}
    }
    now
}

/// How many stations a constituency has, and how many of their returns are in each status. Where
/// that is not known, each return is looked up by its station.
fn find_known<S: Alter>(
    tx: &mut Transaction<'_, S>,
    con: &Constituency,
    known: Option<Statuses>,
) -> Result<Statuses, Error>
    ensures stays { StaysFrom IsOpenInside S.Store tx.old tx.new }
    ensures found { FindsFrom IsOpenInside S.Store (FindsKnownStatuses con.now known)
        tx.old tx.new result }
    ensures same { ChangesNothing S.Store tx.old tx.new result }
{
    if let Some(statuses) = known {
        return Ok(statuses);
    }
    let mut found = Statuses {
        stations: 0,
        received: 0,
        queried: 0,
        corrected: 0,
        closed: 0,
    };
    let stations = con.stations.as_slice();
    for station in stations {
        let status = find_status(tx, station.code.as_str())?;
        found = with_station(found, status);
    }
    Ok(found)
}

/// The view of the constituency whose rows these are. Other rows are an error, and so are rows
/// that do not have the shape of a view of the constituency.
fn fitting_view(
    alloc: Global,
    con: &Constituency,
    statuses: Statuses,
    rows: &ConRows,
) -> Result<ConView, Error>
    ensures fits { IfOk result (λ view. FitsView con.now view) }
    ensures read { IfOk result (λ view. view_of_rows con.now statuses rows.now ≡ Some view) }
{
    if rows.cons.len() != 1 {
        return Err(Error::SqliteFailure(ErrorCode::DatabaseCorrupt));
    }
    let tables = ConTables {
        lots: &rows.lots,
        seats: &rows.seats,
        gone: &rows.gone,
        totals: &rows.totals,
        past: &rows.past,
    };
    match view_from_tables(alloc, con, statuses, &rows.cons[0], tables) {
        Ok(Some(view)) => {
            if !view.fits(con) {
                return Err(Error::SqliteFailure(ErrorCode::DatabaseCorrupt));
            }
            Ok(view)
        }
        Ok(None) => Err(Error::SqliteFailure(ErrorCode::DatabaseCorrupt)),
        Err(_) => Err(Error::SqliteFailure(ErrorCode::OutOfMemory)),
    }
}

/// The view of a constituency: its rows, its sums, and how many returns are in each status.
/// Where these numbers are not known, each return is looked up by its station. Certificates on
/// record are many; where they are not asked for they are not read, and the view has none. Rows
/// that do not have the shape of such a view are an error.
pub fn find_view<S: Alter>(
    alloc: Global,
    tx: &mut Transaction<'_, S>,
    setup: &Setup,
    con: &Constituency,
    known: Option<Statuses>,
    with_past: bool,
) -> Result<ConView, Error>
    ensures reads { OnlyReads S.Store tx.old tx.new result }
    ensures fits { IfOk result (λ view. FitsView con.now view) }
    ensures found { Finds S.Store (FindsView setup.now con.now known with_past)
        tx.old tx.new result }
{
    let rows = rows_of_con(alloc, tx, con.code.as_str(), with_past)?;
    let statuses = find_known(tx, con, known)?;
    fitting_view(alloc, con, statuses, &rows)
}

/// The rows of all constituencies in `cons`, in the order of their codes.
pub fn rows_of_cons<S: Alter>(tx: &mut Transaction<'_, S>) -> Result<Vec<Row>, Error>
    ensures reads { OnlyReads S.Store tx.old tx.new result }
    ensures found { Finds S.Store (λ seen rows. ShowsTable KeyedTable.Cons seen rows.items)
        tx.old tx.new result }
{
    all_rows(tx, KeyedTable::Cons)
}

/// Whether a row is that of a code before this one.
fn is_before(row: &Row, con: &[u8]) -> bool {
    match text_at(row, 0) {
        Some(code) => code < con,
        None => false,
    }
}

/// The edition of a constituency, and whether it is certified, by its row among these, which are in
/// the order of their codes. Where none of them is its row, that is an error.
fn stage_among(rows: &[Row], con: &str) -> Result<(u32, bool), Error>
    ensures { IfOk result (IsStageAmong con.now rows.now) }
{
    let place = rows.partition_point(|row| is_before(row, con.as_bytes()));
    if place < rows.len() {
        if let Some(standing) = standing_in(&rows[place], con.as_bytes()) {
            return Ok((standing.edition, standing.certified));
        }
    }
    Err(Error::SqliteFailure(ErrorCode::DatabaseCorrupt))
}

/// How far a constituency has come: its row among those of `cons`, and how many returns are in each
/// status. Where these numbers are not known, each return is looked up by its station.
pub fn find_progress_row<S: Alter>(
    tx: &mut Transaction<'_, S>,
    cons: &[Row],
    con: &Constituency,
    known: Option<Statuses>,
) -> Result<ProgressRow, Error>
    ensures stays { StaysFrom IsOpenInside S.Store tx.old tx.new }
    ensures found { FindsFrom IsOpenInside S.Store (FindsProgressRow con.now known cons.now)
        tx.old tx.new result }
    ensures same { ChangesNothing S.Store tx.old tx.new result }
{
    let (edition, certified) = stage_among(cons, con.code.as_str())?;
    let statuses = find_known(tx, con, known)?;
    Ok(ProgressRow {
        con: con.code,
        stations: statuses.stations,
        received: statuses.received,
        queried: statuses.queried,
        corrected: statuses.corrected,
        closed: statuses.closed,
        edition,
        certified,
    })
}
