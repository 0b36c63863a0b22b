//! Looking up the return of a station.

ghost use Rattle.std.specs.Prelude.{◌≡◌, [], None, IsErr};
ghost use Rattle.tally_store_rows.specs.Reading.{entries_in};
ghost use Rattle.tally_store_entries.specs.internal.Entries.{Finds, FindsReturn};
ghost use Rattle.tally_store_entries.specs.internal.Found.{FindsNone, FindsOne, GivesOnly};
ghost use Rattle.tally_store_schema.specs.internal.Inside.{OnlyReads};

use sqlite::{Alter, Error, ErrorCode, Row, Transaction};
use std::alloc::Global;
use tally_returns::Return;
use tally_setup::{Code, Setup};
use tally_store_rows::{ReturnFound, entries_in};
use tally_store_schema::{KeyedTable, rows_of_key};

/// The only return among those that were read, if there is one.
fn only_return(mut entries: Vec<ReturnFound>) -> Option<Return>
    ensures none { entries.items ≡ [] → result ≡ None }
    ensures one { GivesOnly entries.items result }
{
    let ReturnFound { standing, .. } = entries.pop()?;
    Some(standing)
}

/// The return whose rows these are, if there are any. Rows that read as nothing are an error.
fn return_in(
    alloc: Global,
    setup: &Setup,
    heads: &[Row],
    counts: &[Row],
) -> Result<Option<Return>, Error>
    ensures none { FindsNone (entries_in setup.now heads.now counts.now) result }
    ensures one { FindsOne (entries_in setup.now heads.now counts.now) result }
    ensures bad { entries_in setup.now heads.now counts.now ≡ None → IsErr result }
{
    match entries_in(alloc, setup, heads, counts) {
        Ok(Some(entries)) => Ok(only_return(entries)),
        Ok(None) => Err(Error::SqliteFailure(ErrorCode::DatabaseCorrupt)),
        Err(_) => Err(Error::SqliteFailure(ErrorCode::OutOfMemory)),
    }
}

/// The return of a station, by its row of `returns` and its rows of `counts`, if it has one. Where
/// it has no row of `returns`, those of `counts` are not looked up. Rows that belong to no return
/// of the setup are an error.
pub fn find_return<S: Alter>(
    alloc: Global,
    tx: &mut Transaction<'_, S>,
    setup: &Setup,
    station: Code,
) -> Result<Option<Return>, Error>
    ensures reads { OnlyReads S.Store tx.old tx.new result }
    ensures found { Finds S.Store (FindsReturn setup.now station) tx.old tx.new result }
{
    let heads = rows_of_key(tx, KeyedTable::Returns, station.as_str())?;
    if heads.is_empty() {
        return Ok(None);
    }
    let counts = rows_of_key(tx, KeyedTable::Counts, station.as_str())?;
    return_in(alloc, setup, &heads, &counts)
}
