//! UPDATE of one row by its key.

ghost use Rattle.std.specs.Prelude.{◌≡◌, pos, ℕ};
ghost use Rattle.tally_store_schema.specs.internal.Inside.{InDatabase, Stays};
ghost use Rattle.tally_store_schema.specs.Office.{SetsItem, UpdatesCon, UpdatesReturn};
ghost use Rattle.tally_store_schema.specs.declared.table.KeyedTable.TheVariants.{Counts, Totals};

use crate::running::run;
use sqlite::{Alter, Error, Transaction, params};

/// Changes the row of a return. Its constituency stays.
pub fn update_return<S: Alter>(
    tx: &mut Transaction<'_, S>,
    station: &str,
    rev: u32,
    slip: &str,
    status: u32,
    note: &str,
) -> Result<(), Error>
    ensures stays { Stays S.Store tx.old tx.new }
    ensures updated { InDatabase S.Store (UpdatesReturn station.now rev slip.now status note.now)
        tx.old tx.new result }
{
    run(
        tx,
        "UPDATE returns SET rev = ?2, slip = ?3, status = ?4, note = ?5 WHERE station = ?1",
        params![station, rev, slip, status, note],
    )
}

/// Sets the number of an item of a return.
pub fn update_count<S: Alter>(
    tx: &mut Transaction<'_, S>,
    station: &str,
    item: u32,
    n: u32,
) -> Result<(), Error>
    ensures stays { Stays S.Store tx.old tx.new }
    ensures updated { InDatabase S.Store (SetsItem Counts station.now item n) tx.old tx.new result }
{
    run(
        tx,
        "UPDATE counts SET n = ?3 WHERE station = ?1 AND item = ?2",
        params![station, item, n],
    )
}

/// Changes the row of a constituency.
pub fn update_con<S: Alter>(
    tx: &mut Transaction<'_, S>,
    con: &str,
    edition: u32,
    certified: bool,
    note: &str,
) -> Result<(), Error>
    ensures stays { Stays S.Store tx.old tx.new }
    ensures updated { InDatabase S.Store (UpdatesCon con.now edition certified note.now)
        tx.old tx.new result }
{
    run(
        tx,
        "UPDATE cons SET edition = ?2, certified = ?3, note = ?4 WHERE con = ?1",
        params![con, edition, certified, note],
    )
}

/// Sets the sum of an item of a constituency.
pub fn update_total<S: Alter>(
    tx: &mut Transaction<'_, S>,
    con: &str,
    item: u32,
    n: i64,
) -> Result<(), Error>
    ensures stays { Stays S.Store tx.old tx.new }
    ensures updated { (m : ℕ) → n ≡ pos m → InDatabase S.Store
        (SetsItem Totals con.now item m)
        tx.old tx.new result }
{
    run(
        tx,
        "UPDATE totals SET n = ?3 WHERE con = ?1 AND item = ?2",
        params![con, item, n],
    )
}
