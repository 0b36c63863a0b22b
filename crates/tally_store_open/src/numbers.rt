//! How many returns of each constituency are in each status.

ghost use Rattle.std.specs.Prelude.{◌≡◌, OnOk};
ghost use Rattle.tally_store_open.specs.Numbers.{numbers_of};
ghost use Rattle.tally_store_open.specs.internal.Tree.{AreNumbered, numbers_at, with_numbers};

use std::alloc::AllocError;
use std::collections::BTreeMap;
use tally_keeper::Ledger;
use tally_setup::Code;
use tally_store_rows::{Statuses, statuses_of};

/// Puts the numbers of each constituency of the setup into a tree, by the returns in the ledger.
pub(crate) fn put_all(
    ledger: &Ledger,
    known: &mut BTreeMap<Code, Statuses>,
) -> Result<(), AllocError>
    ensures { OnOk result (AreNumbered ledger.now (numbers_of known.new)) }
{
    let cons = ledger.setup().cons();
    for con in cons {
        put_one(ledger, con.code, known)?;
    }
    Ok(())
}

/// Puts the numbers of the constituency of a code into a tree, if there is one.
fn put_one(
    ledger: &Ledger,
    con: Code,
    known: &mut BTreeMap<Code, Statuses>,
) -> Result<(), AllocError>
    ensures { OnOk result (numbers_of known.new ≡
        with_numbers con (numbers_at ledger.now con) (numbers_of known.old)) }
{
    let Some(view) = ledger.view(con) else {
        return Ok(());
    };
    known.insert(con, statuses_of(view))?;
    Ok(())
}
