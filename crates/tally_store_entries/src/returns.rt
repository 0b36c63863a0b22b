//! The return of a station in the tables `returns` and `counts`.

ghost use Rattle.std.specs.Prelude.{◌≤◌, length};
ghost use Rattle.tally_frac.specs.Limits.{most_lists};
ghost use Rattle.tally_store_schema.specs.Office.{Inserts};
ghost use Rattle.tally_store_schema.specs.declared.table.KeyedTable.TheVariants.{Returns};
ghost use Rattle.tally_store_rows.specs.Cells.{return_row};
ghost use Rattle.tally_store_entries.specs.internal.Entries.{AddsReturn, ChangesReturn};
ghost use Rattle.tally_store_entries.specs.internal.Entries.{CorrectsReturn};
ghost use Rattle.tally_store_entries.specs.internal.Written.{ReplacesHead};
ghost use Rattle.tally_store_schema.specs.internal.Inside.{InDatabase, Stays};

use crate::items::{insert_counts, update_counts};
use sqlite::{Alter, Error, Transaction};
use tally_returns::Return;
use tally_store_rows::status_number;
use tally_store_schema::{insert_return, update_return};

/// Adds the row of `returns` of a return.
fn insert_head<S: Alter>(
    tx: &mut Transaction<'_, S>,
    con: &str,
    station: &str,
    standing: &Return,
) -> Result<(), Error>
    ensures stays { Stays S.Store tx.old tx.new }
    ensures inserted { InDatabase S.Store
        (Inserts Returns (return_row con.now (station.now, standing.now))) tx.old tx.new result }
{
    insert_return(
        tx,
        station,
        con,
        standing.rev,
        standing.slip.as_str(),
        status_number(standing.status),
        standing.note.as_str(),
    )
}

/// Writes the return of a station of a constituency, where the station has none: its row of
/// `returns`, and a row of `counts` for each of its numbers.
pub fn add_return<S: Alter>(
    tx: &mut Transaction<'_, S>,
    con: &str,
    station: &str,
    standing: &Return,
) -> Result<(), Error>
    requires few { length standing.now.counts.votes ≤ most_lists }
    ensures stays { Stays S.Store tx.old tx.new }
    ensures added { InDatabase S.Store (AddsReturn con.now station.now standing.now)
        tx.old tx.new result }
{
    insert_head(tx, con, station, standing)?;
    insert_counts(tx, station, &standing.counts)
}

/// Changes the row of `returns` of a station. Its constituency stays.
fn update_head<S: Alter>(
    tx: &mut Transaction<'_, S>,
    station: &str,
    standing: &Return,
) -> Result<(), Error>
    ensures stays { Stays S.Store tx.old tx.new }
    ensures updated { InDatabase S.Store
        (ReplacesHead station.now standing.now) tx.old tx.new result }
{
    update_return(
        tx,
        station,
        standing.rev,
        standing.slip.as_str(),
        status_number(standing.status),
        standing.note.as_str(),
    )
}

/// Writes the return of a station in place of one that has the same counts: its row of `returns`.
pub fn change_return<S: Alter>(
    tx: &mut Transaction<'_, S>,
    station: &str,
    standing: &Return,
) -> Result<(), Error>
    ensures stays { Stays S.Store tx.old tx.new }
    ensures changed { InDatabase S.Store
        (ChangesReturn station.now standing.now) tx.old tx.new result }
{
    update_head(tx, station, standing)
}

/// Writes the return of a station in place of one for as many lists: its row of `returns`, and the
/// row of `counts` of each of its numbers.
pub fn correct_return<S: Alter>(
    tx: &mut Transaction<'_, S>,
    station: &str,
    standing: &Return,
) -> Result<(), Error>
    requires few { length standing.now.counts.votes ≤ most_lists }
    ensures stays { Stays S.Store tx.old tx.new }
    ensures corrected { InDatabase S.Store (CorrectsReturn station.now standing.now)
        tx.old tx.new result }
{
    update_head(tx, station, standing)?;
    update_counts(tx, station, &standing.counts)
}
