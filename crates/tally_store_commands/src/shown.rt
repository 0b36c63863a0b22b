//! A constituency, shown without its certificates on record.

ghost use Rattle.std.specs.Prelude.{◌≡◌, [], Some, IfOk, OnOk};
ghost use Rattle.tally_setup.specs.Constituency as value;
ghost use Rattle.tally_setup.specs.Setup.{constituency_with};
ghost use Rattle.tally_returns.specs.View.{FitsView};
ghost use Rattle.tally_store_entries.specs.internal.Entries.{Finds};
ghost use Rattle.tally_store_schema.specs.internal.Inside.{OnlyReads};
ghost use Rattle.tally_store_commands.specs.internal.Known.{ForgetsNone, known_of};
ghost use Rattle.tally_store_commands.specs.internal.Shown.{FindsKnown, FindsShown};

use crate::known::{known_at, remember};
use sqlite::{Alter, Error, Transaction};
use std::alloc::Global;
use std::collections::BTreeMap;
use tally_returns::{ConView, Refusal};
use tally_setup::{Code, Setup};
use tally_store_entries::find_view;
use tally_store_rows::{Statuses, statuses_of};
use tally_store_schema::{KeyedTable, rows_of_key};

/// Reads a row that is never there. A connection that is shut does not answer this. So a request
/// that reads nothing else, or an import without rows, gets to no commit there.
pub fn see_open<S: Alter>(tx: &mut Transaction<'_, S>) -> Result<(), Error>
    ensures reads { OnlyReads S.Store tx.old tx.new result }
{
    rows_of_key(tx, KeyedTable::Cons, "")?;
    Ok(())
}

/// Shows the constituency of a code, without its certificates on record, which are not read.
/// Nothing is written.
pub fn show_con_in<S: Alter>(
    alloc: Global,
    tx: &mut Transaction<'_, S>,
    setup: &Setup,
    known: &mut BTreeMap<Code, Statuses>,
    code: Code,
) -> Result<Result<ConView, Refusal>, Error>
    ensures reads { OnlyReads S.Store tx.old tx.new result }
    ensures fits { IfOk result (λ shown. IfOk shown (λ view. (con : value.Constituency)
        → constituency_with code setup.now ≡ Some con → FitsView con view)) }
    ensures bare { IfOk result (λ shown. IfOk shown (λ view. view.past ≡ [])) }
    ensures shown { Finds S.Store (FindsShown setup.now (known_of known.old) code)
        tx.old tx.new result }
    ensures known { Finds S.Store
        (λ seen _. FindsKnown setup.now (known_of known.old) (known_of known.new) seen)
        tx.old tx.new result }
    ensures forgets { OnOk result (ForgetsNone (known_of known.old) (known_of known.new)) }
{
    let Some(con) = setup.con(code) else {
        see_open(tx)?;
        return Ok(Err(Refusal::NoConstituency));
    };
    let view = find_view(alloc, tx, setup, con, known_at(known, con.code), false)?;
    remember(known, con.code, statuses_of(&view))?;
    // Where certificates were not read the view has none, but that is known only of a lawful
    // state.
    Ok(Ok(view.without_past()))
}
