//! Running a statement in a transaction.

ghost use Rattle.sqlite.specs.Values.{bound};
ghost use Rattle.tally_store_schema.specs.internal.Inside.{InDatabase, Stays};
ghost use Rattle.tally_store_schema.specs.Office.{RunsWithValues};

use sqlite::types::ValueRef;
use sqlite::{Alter, Error, Transaction};

/// Runs a text that changes rows, with these values for its parameters.
pub(crate) fn run<S: Alter>(
    tx: &mut Transaction<'_, S>,
    sql: &str,
    params: &[ValueRef<'_>],
) -> Result<(), Error>
    ensures stays { Stays S.Store tx.old tx.new }
    ensures ran { InDatabase S.Store
        (RunsWithValues sql.now (bound params.now)) tx.old tx.new result }
{
    tx.execute(sql, params)?;
    Ok(())
}
