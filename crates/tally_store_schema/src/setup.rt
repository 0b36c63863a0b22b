//! The table `setup`, which has one row.

ghost use Rattle.tally_store_schema.specs.internal.Inside.{InDatabase, OnlyReadsFrom, Stays};
ghost use Rattle.tally_store_schema.specs.Office.{HasTables, InsertsSetup, SetsVersion};
ghost use Rattle.tally_store_schema.specs.Office.{ShowsAllSetup};

use crate::running::run;
use sqlite::{Alter, Error, Row, Transaction, params};

/// Adds the row of `setup`, with id 1.
pub fn insert_setup<S: Alter>(
    tx: &mut Transaction<'_, S>,
    version: u32,
    text: &str,
) -> Result<(), Error>
    ensures stays { Stays S.Store tx.old tx.new }
    ensures inserted { InDatabase S.Store (InsertsSetup version text.now) tx.old tx.new result }
{
    run(
        tx,
        "INSERT INTO setup (id, version, text) VALUES (1, ?1, ?2)",
        params![version, text],
    )
}

/// Changes the version of the tables. The text of the setup stays.
pub fn update_version<S: Alter>(tx: &mut Transaction<'_, S>, version: u32) -> Result<(), Error>
    ensures stays { Stays S.Store tx.old tx.new }
    ensures updated { InDatabase S.Store (SetsVersion version) tx.old tx.new result }
{
    run(tx, "UPDATE setup SET version = ?1", params![version])
}

/// The rows of `setup`, each as its id, its version and its text, in the order of the ids.
pub fn all_setup<S: Alter>(tx: &mut Transaction<'_, S>) -> Result<Vec<Row>, Error>
    ensures reads { OnlyReadsFrom HasTables S.Store tx.old tx.new result }
    ensures shown { InDatabase S.Store ShowsAllSetup tx.old tx.new result }
{
    tx.query_all("SELECT id, version, text FROM setup ORDER BY id", &[])
}
