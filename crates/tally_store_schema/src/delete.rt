//! DELETE of the rows of a constituency.

ghost use Rattle.tally_store_schema.specs.internal.Inside.{InDatabase, Stays};
ghost use Rattle.tally_store_schema.specs.Office.{Deletes};
ghost use Rattle.tally_store_schema.specs.declared.table.KeyedTable.TheVariants.{Lots, Seats};

use crate::running::run;
use sqlite::{Alter, Error, Transaction, params};

/// Takes out the lot of a constituency.
pub fn delete_lot<S: Alter>(tx: &mut Transaction<'_, S>, con: &str) -> Result<(), Error>
    ensures stays { Stays S.Store tx.old tx.new }
    ensures deleted { InDatabase S.Store (Deletes Lots con.now) tx.old tx.new result }
{
    run(tx, "DELETE FROM lots WHERE con = ?1", params![con])
}

/// Takes out the seats of a constituency.
pub fn delete_seats<S: Alter>(tx: &mut Transaction<'_, S>, con: &str) -> Result<(), Error>
    ensures stays { Stays S.Store tx.old tx.new }
    ensures deleted { InDatabase S.Store (Deletes Seats con.now) tx.old tx.new result }
{
    run(tx, "DELETE FROM seats WHERE con = ?1", params![con])
}
