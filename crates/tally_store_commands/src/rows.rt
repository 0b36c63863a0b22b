//! The rows of a source, lodged.

ghost use Rattle.std.specs.Prelude.{◌≡◌, ◌↔◌, ◌++◌, IfErr, IfOk};
ghost use Rattle.sqlite.specs.Held.{state};
ghost use Rattle.tally_returns_rows.specs.Delivery.{delivery};
ghost use Rattle.tally_returns_rows.specs.Import.{IsCodedRow};
ghost use Rattle.tally_keeper.specs.Keeper.{IsOwnFault};
ghost use Rattle.tally_returns_rows.specs.NamedRows.{named_row};
ghost use Rattle.tally_returns_rows.specs.declared.import.Row.{Row};
ghost use Rattle.tally_store_schema.specs.internal.Inside.{StaysInside};
ghost use Rattle.tally_store_commands.specs.internal.Inside.{StaysInState};
ghost use Rattle.tally_store_commands.specs.internal.Counting.{CountsRow};
ghost use Rattle.tally_store_commands.specs.internal.Requests.{LodgesRows, NamesImported};
ghost use Rattle.tally_store_commands.specs.internal.Lodging.{TakesRow, WritesOnlyLodgedRow};

use crate::returns::lodge;
use sqlite::{Alter, Error, ErrorCode, Transaction};
use std::alloc::Global;
use std::collections::BTreeMap;
use tally_returns::{Ask, LodgeReply, Refusal};
use tally_returns_rows::{
    ImportCount, ImportFault, NamedRow, ROW_LIMIT, Row, RowSource, name_bad, name_refused,
};
use tally_setup::{Code, Setup};
use tally_store_rows::Statuses;
use tally_store_schema::is_memory;

/// Lodges the rows of a source one by one. Refused and bad rows are passed over, and named. With a
/// fault, or where nothing is to be lodged, the caller undoes what was written, and forgets what
/// was known.
pub fn take_rows<S: Alter, R: RowSource>(
    alloc: Global,
    tx: &mut Transaction<'_, S>,
    setup: &Setup,
    known: &mut BTreeMap<Code, Statuses>,
    source: &mut R,
    named: &mut Vec<NamedRow>,
) -> Result<ImportCount, ImportFault>
    ensures stays { StaysInState setup.now S.Store tx.old tx.new }
    ensures lodges { LodgesRows S.Store setup.now (delivery R.RowSource source.old source.new)
        known.old known.new tx.old tx.new result }
    ensures named { NamesImported setup.now (delivery R.RowSource source.old source.new)
        named.old.items named.new.items
        (state S.Store tx.old.conn.now) (state S.Store tx.new.conn.now) result }
{
    // Called for what its contract says: the setup is within its limits.
    let _cons = setup.cons();
    let mut count = ImportCount::new();
    for before in 0..ROW_LIMIT + 1 {
        let Some(row) = source.next_row()? else {
            return Ok(count);
        };
        let answer = take_row(alloc, tx, setup, known, named, before + 1, row)?;
        count.add_row(before + 1, answer);
    }
    Err(ImportFault::TooLong)
}

/// Lodges a row, and names it where it is bad or refused. Only a Lodge has an answer. What a Lodge
/// brings has a function of its own, since the prover opens one enum at a time.
fn take_row<S: Alter>(
    alloc: Global,
    tx: &mut Transaction<'_, S>,
    setup: &Setup,
    known: &mut BTreeMap<Code, Statuses>,
    named: &mut Vec<NamedRow>,
    number: u32,
    row: Row,
) -> Result<Option<Result<LodgeReply, Refusal>>, ImportFault>
    ensures stays { StaysInside S.Store tx.old tx.new }
    ensures codes { IsCodedRow row }
    ensures taken { TakesRow setup.now row
        (state S.Store tx.old.conn.now) (state S.Store tx.new.conn.now) result }
    ensures known { CountsRow setup.now row known.old known.new result }
    ensures named { IfOk result (λ answer.
        named.new.items ≡ named.old.items ++ named_row number row answer) }
    ensures unwritten { WritesOnlyLodgedRow
        (state S.Store tx.old.conn.now) (state S.Store tx.new.conn.now) result }
    ensures own { IfErr result IsOwnFault }
{
    match row {
        Row::Lodge(ask) => take_ask(alloc, tx, setup, known, named, number, ask),
        Row::Bad(why) => Ok(name_bad(named, number, why)?),
    }
}

/// Lodges what a Lodge brings, and names the row where that is refused. Another request has no
/// answer. An error of the database is a fault of the import.
fn take_ask<S: Alter>(
    alloc: Global,
    tx: &mut Transaction<'_, S>,
    setup: &Setup,
    known: &mut BTreeMap<Code, Statuses>,
    named: &mut Vec<NamedRow>,
    number: u32,
    ask: Ask,
) -> Result<Option<Result<LodgeReply, Refusal>>, ImportFault>
    ensures stays { StaysInside S.Store tx.old tx.new }
    ensures codes { IsCodedRow (Row.Lodge ask) }
    ensures taken { TakesRow setup.now (Row.Lodge ask)
        (state S.Store tx.old.conn.now) (state S.Store tx.new.conn.now) result }
    ensures known { CountsRow setup.now (Row.Lodge ask) known.old known.new result }
    ensures named { IfOk result (λ answer.
        named.new.items ≡ named.old.items ++ named_row number (Row.Lodge ask) answer) }
    ensures unwritten { WritesOnlyLodgedRow
        (state S.Store tx.old.conn.now) (state S.Store tx.new.conn.now) result }
    ensures own { IfErr result IsOwnFault }
{
    let Ask::Lodge {
        station,
        slip,
        counts,
    } = ask
    else {
        return Ok(None);
    };
    // Called for what its contract says: a slip is a code.
    let _slip = slip.as_bytes();
    let answer = match lodge(alloc, tx, setup, known, station, slip, &counts) {
        Ok(answer) => answer,
        Err(error) => return Err(import_fault_of(&error)),
    };
    name_refused(named, number, station, &answer)?;
    Ok(Some(answer))
}

/// The fault with which an import ends where a call on the database failed.
pub fn import_fault_of(error: &Error) -> ImportFault
    ensures own { IsOwnFault result }
    ensures memory { result ≡ ImportFault.Memory ↔
        error.now ≡ Error.SqliteFailure ErrorCode.OutOfMemory }
{
    if is_memory(error) {
        ImportFault::Memory
    } else {
        ImportFault::Store
    }
}
