//! INSERT of one row into a table.

ghost use Rattle.std.specs.Prelude.{◌≡◌, pos, ℕ};
ghost use Rattle.tally_store_schema.specs.internal.Inside.{InDatabase, Stays};
ghost use Rattle.tally_store_schema.specs.Office.{Inserts, con_cells, gone_cells, item_cells};
ghost use Rattle.tally_store_schema.specs.Office.{return_cells};
ghost use Rattle.tally_store_schema.specs.declared.table.KeyedTable.TheVariants.{Returns, Cons};
ghost use Rattle.tally_store_schema.specs.declared.table.KeyedTable.TheVariants.{Gone, Totals};

use crate::running::run;
use sqlite::{Alter, Error, Transaction, params};

/// Adds the row of a return.
pub fn insert_return<S: Alter>(
    tx: &mut Transaction<'_, S>,
    station: &str,
    con: &str,
    rev: u32,
    slip: &str,
    status: u32,
    note: &str,
) -> Result<(), Error>
    ensures stays { Stays S.Store tx.old tx.new }
    ensures inserted { InDatabase S.Store
        (Inserts Returns (return_cells station.now con.now rev slip.now status note.now))
        tx.old tx.new result }
{
    run(
        tx,
        "INSERT INTO returns (station, con, rev, slip, status, note) \
         VALUES (?1, ?2, ?3, ?4, ?5, ?6)",
        params![station, con, rev, slip, status, note],
    )
}

/// Adds the row of a constituency.
pub fn insert_con<S: Alter>(
    tx: &mut Transaction<'_, S>,
    con: &str,
    edition: u32,
    certified: bool,
    note: &str,
) -> Result<(), Error>
    ensures stays { Stays S.Store tx.old tx.new }
    ensures inserted { InDatabase S.Store
        (Inserts Cons (con_cells con.now edition certified note.now))
        tx.old tx.new result }
{
    run(
        tx,
        "INSERT INTO cons (con, edition, certified, note) VALUES (?1, ?2, ?3, ?4)",
        params![con, edition, certified, note],
    )
}

/// Adds a candidate who is gone.
pub fn insert_gone<S: Alter>(
    tx: &mut Transaction<'_, S>,
    con: &str,
    list: u32,
    place: u32,
    note: &str,
) -> Result<(), Error>
    ensures stays { Stays S.Store tx.old tx.new }
    ensures inserted { InDatabase S.Store (Inserts Gone (gone_cells con.now list place note.now))
        tx.old tx.new result }
{
    run(
        tx,
        "INSERT INTO gone (con, list, place, note) VALUES (?1, ?2, ?3, ?4)",
        params![con, list, place, note],
    )
}

/// Adds the sum of an item of a constituency.
pub fn insert_total<S: Alter>(
    tx: &mut Transaction<'_, S>,
    con: &str,
    item: u32,
    n: i64,
) -> Result<(), Error>
    ensures stays { Stays S.Store tx.old tx.new }
    ensures inserted { (m : ℕ) → n ≡ pos m → InDatabase S.Store
        (Inserts Totals (item_cells con.now item m)) tx.old tx.new result }
{
    run(
        tx,
        "INSERT INTO totals (con, item, n) VALUES (?1, ?2, ?3)",
        params![con, item, n],
    )
}
