//! Making the tables of an office that opens.

ghost use Rattle.std.specs.Prelude.{◌≡◌, ◌∷◌, [], false, IsTrue, Ok, OnOk};
ghost use Rattle.sqlite.specs.Held.{state};
ghost use Rattle.tally_setup.specs.Limits.{IsSetup};
ghost use Rattle.tally_rules.specs.Reading.{setup_of_text};
ghost use Rattle.tally_store_schema.specs.Tables.{schema_with};
ghost use Rattle.tally_store_schema.specs.internal.Inside.{InDatabase, Stays};
ghost use Rattle.tally_store_open.specs.Calls.{OnDisk, Yields};
ghost use Rattle.tally_store_open.specs.Crash.{EndsWhole};
ghost use Rattle.tally_store_open.specs.internal.Ending.{IsSettled};
ghost use Rattle.tally_store_open.specs.internal.Making.{no_list_rows, no_vote_rows};
ghost use Rattle.tally_store_open.specs.internal.Making.{IsNew, Made, MakesNew, Opened, Totalled};

use sqlite::{Alter, Connection, Error, Transaction};
use tally_setup::{Constituency, Setup};
use tally_store_rows::SPOILED_ITEM;
use tally_store_schema::{create_tables, insert_con, insert_setup, insert_total};

/// The version of the tables.
pub(crate) const VERSION: u32 = 2;

/// Adds a sum of 0 for each list.
fn insert_list_totals<S: Alter>(
    tx: &mut Transaction<'_, S>,
    con: &str,
    lists: u32,
) -> Result<(), Error>
    ensures stays { Stays S.Store tx.old tx.new }
    ensures added { InDatabase S.Store
        (Totalled (no_list_rows con.now lists)) tx.old tx.new result }
{
    for list in 0..lists {
        insert_total(tx, con, list + 1, 0)?;
    }
    Ok(())
}

/// Adds the sums of a constituency without returns.
fn insert_totals<S: Alter>(tx: &mut Transaction<'_, S>, con: &str, lists: u32) -> Result<(), Error>
    ensures stays { Stays S.Store tx.old tx.new }
    ensures added { InDatabase S.Store
        (Totalled (no_vote_rows con.now lists)) tx.old tx.new result }
{
    insert_total(tx, con, 0, 0)?;
    insert_list_totals(tx, con, lists)?;
    insert_total(tx, con, SPOILED_ITEM, 0)
}

/// Adds the rows of a constituency that opens.
fn insert_opening<S: Alter>(tx: &mut Transaction<'_, S>, con: &Constituency) -> Result<(), Error>
    ensures stays { Stays S.Store tx.old tx.new }
    ensures opened { InDatabase S.Store (Opened (con.now ∷ [])) tx.old tx.new result }
{
    insert_con(tx, con.code.as_str(), 1, false, "")?;
    insert_totals(tx, con.code.as_str(), con.lists.len() as u32)
}

/// Adds the rows of constituencies that open.
fn insert_openings<S: Alter>(
    tx: &mut Transaction<'_, S>,
    cons: &[Constituency],
) -> Result<(), Error>
    ensures stays { Stays S.Store tx.old tx.new }
    ensures opened { InDatabase S.Store (Opened cons.now) tx.old tx.new result }
{
    for con in cons {
        insert_opening(tx, con)?;
    }
    Ok(())
}

/// Makes the tables of an office that opens, in a database without tables.
fn make_office<S: Alter>(
    tx: &mut Transaction<'_, S>,
    setup: &Setup,
    text: &str,
) -> Result<(), Error>
    requires reads { setup_of_text text.now ≡ Ok setup.now }
    ensures stays { Stays S.Store tx.old tx.new }
    ensures made { InDatabase S.Store (Made setup.now text.now) tx.old tx.new result }
    ensures limits { OnOk result (IsSetup setup.now) }
{
    create_tables(tx)?;
    insert_setup(tx, VERSION, text)?;
    insert_openings(tx, setup.cons())
}

/// Makes the tables of an office that opens, in a database without tables, in one transaction. With
/// an error the database is as it was.
pub(crate) fn make_in<S: Alter>(
    conn: &mut Connection<S>,
    setup: &Setup,
    text: &str,
) -> Result<(), Error>
    requires reads { setup_of_text text.now ≡ Ok setup.now }
    requires autocommit { conn.old.in_transaction ≡ false }
    requires unset { (state S.Store conn.old).now.schema ≡ schema_with 0 }
    requires settled { IsSettled (state S.Store conn.old) }
    ensures ends { EndsWhole S.Store (λ _. IsNew setup.now text.now) conn.old conn.new result }
    ensures made { OnDisk S.Store (MakesNew setup.now text.now) conn.old conn.new result }
    ensures limits { OnOk result (IsSetup setup.now) }
    ensures open { OnDisk S.Store (Yields (λ _ _ s. IsTrue s.is_open)) conn.old conn.new result }
{
    let mut tx = conn.transaction();
    match make_office(&mut tx, setup, text) {
        Ok(()) => tx.commit(),
        Err(error) => {
            tx.rollback();
            Err(error)
        }
    }
}
