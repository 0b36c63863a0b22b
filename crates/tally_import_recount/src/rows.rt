//! The rows of a text, one after another.

ghost use Rattle.std.specs.Prelude.{◌≡◌, ◌≤◌, List, [], Err, IfErr, IfSome, OnOk, false, true};
ghost use Rattle.tally_frac.specs.Limits.{most_lists};
ghost use Rattle.tally_returns_rows.specs.declared.import.Row.{Row};
ghost use Rattle.tally_returns_rows.specs.declared.source.ImportFault.TheVariants as cause;
ghost use Rattle.tally_import.specs.ReturnRowsValue.{unread_rows};
ghost use Rattle.tally_import_recount.specs.Recounts.{AreRowsOf};
ghost use Rattle.tally_import_recount.specs.internal.Finds.{IsFaultOfRows};
ghost use Rattle.tally_import_recount.specs.internal.Register.{TakesRows};

use crate::register::Register;
use std::alloc::Global;
use std::io::Read;
use tally_import::ReturnRows;
use tally_returns_rows::{ImportFault, ROW_LIMIT, RowSource};

/// Takes all rows of a text of which nothing was read. With a fault the register is of no further
/// use.
pub(crate) fn take_rows<R: Read>(
    alloc: Global,
    rows: &mut ReturnRows<R>,
    register: &mut Register,
) -> Result<(), ImportFault>
    requires unread { rows.old ≡ unread_rows rows.old.con rows.old.sep rows.old.text }
    requires lists { register.old.lists ≤ most_lists }
    requires none { register.old.passed ≡ 0 }
    ensures taken { OnOk result ((came : List Row) × TakesRows register.old came register.new
        × IfSome rows.old.text (λ text. AreRowsOf rows.old.con rows.old.sep text came)) }
    ensures fault { IfErr result (IsFaultOfRows rows.old) }
    ensures read { result ≡ Err cause.Read → rows.new.failed ≡ true }
    ensures all_read { OnOk result (rows.new.failed ≡ false) }
{
    for count in 0..ROW_LIMIT + 1 {
        let Some(row) = rows.next_row()? else {
            return Ok(());
        };
        register.take(alloc, row)?;
    }
    Err(ImportFault::TooLong)
}
