//! An import into a keeper in memory.

ghost use Rattle.std.specs.Prelude.{◌≡◌, ◌≢◌, ◌++◌, Some, true, IfErr, IfOk, OnOk};
ghost use Rattle.tally_returns_rows.specs.Delivery.{delivery};
ghost use Rattle.tally_keeper.specs.internal.Held.{after_row_in, lodge_answer_in, after_lodge_in};
ghost use Rattle.tally_keeper.specs.internal.Held.{row_answer_in, returns_without};
ghost use Rattle.tally_returns_rows.specs.Import.{IsCodedRow};
ghost use Rattle.tally_keeper.specs.Keeper.{IsImportFault, IsImportOf};
ghost use Rattle.tally_returns_rows.specs.NamedRows.{NamesRows, named_row};
ghost use Rattle.tally_returns_rows.specs.declared.import.Row.{Row};
ghost use Rattle.tally_returns_rows.specs.declared.source.ImportFault.TheVariants.{Store};
ghost use Rattle.tally_keeper.specs.Kept.{state_in};
ghost use Rattle.tally_setup.specs.Code.{is_code};

use super::answers::decide_first;
use std::alloc::{AllocError, Global};
use tally_keeper::Ledger;
use tally_returns::{Ask, Counts, LodgeReply, Refusal, Return};
use tally_returns_rows::{
    ImportCount, ImportFault, NamedRow, ROW_LIMIT, Row, RowSource, name_bad, name_refused,
};
use tally_setup::Code;

/// Lodges the rows of a source, and adds the stations that were lodged to a list, so that a fault
/// or a trial can be undone.
pub(super) fn take_source<R: RowSource>(
    alloc: Global,
    ledger: &mut Ledger,
    lodged: &mut Vec<Code>,
    source: &mut R,
    named: &mut Vec<NamedRow>,
) -> Result<ImportCount, ImportFault>
    ensures imported { IfOk result (λ count.
        IsImportOf ledger.old.setup (Some (state_in ledger.old))
        (delivery R.RowSource source.old source.new) count (Some (state_in ledger.new))) }
    ensures named { OnOk result (NamesRows ledger.old.setup (Some (state_in ledger.old))
        (delivery R.RowSource source.old source.new) named.old.items named.new.items) }
    ensures fault { IfErr result (IsImportFault (delivery R.RowSource source.old source.new)) }
    ensures own { IfErr result (λ fault. fault ≢ Store) }
    ensures kept { ledger.new ≡ record ledger.old { returns = ledger.new.returns } }
    ensures undone { returns_without lodged.new.items ledger.new.returns
        ≡ returns_without lodged.old.items ledger.old.returns }
{
    let mut count = ImportCount::new();
    for before in 0..ROW_LIMIT + 1 {
        let Some(row) = source.next_row()? else {
            return Ok(count);
        };
        let answer = take_row(alloc, ledger, lodged, named, before + 1, row)?;
        count.add_row(before + 1, answer);
    }
    Err(ImportFault::TooLong)
}

/// Lodges a row, and names it where it is bad or refused. Only a Lodge has an answer. What a Lodge
/// brings has a function of its own, since the prover opens one enum at a time.
fn take_row(
    alloc: Global,
    ledger: &mut Ledger,
    lodged: &mut Vec<Code>,
    named: &mut Vec<NamedRow>,
    number: u32,
    row: Row,
) -> Result<Option<Result<LodgeReply, Refusal>>, AllocError>
    ensures codes { IsCodedRow row }
    ensures answer { IfOk result (λ answer. row_answer_in ledger.old row ≡ answer) }
    ensures returns { OnOk result (ledger.new.returns ≡ after_row_in ledger.old row) }
    ensures named { IfOk result (λ answer.
        named.new.items ≡ named.old.items ++ named_row number row answer) }
    ensures kept { ledger.new ≡ record ledger.old { returns = ledger.new.returns } }
    ensures undone { returns_without lodged.new.items ledger.new.returns
        ≡ returns_without lodged.old.items ledger.old.returns }
{
    match row {
        Row::Lodge(ask) => take_ask(alloc, ledger, lodged, named, number, ask),
        Row::Bad(why) => name_bad(named, number, why),
    }
}

/// Lodges what a Lodge brings, and names the row where that is refused. Another request has no
/// answer.
fn take_ask(
    alloc: Global,
    ledger: &mut Ledger,
    lodged: &mut Vec<Code>,
    named: &mut Vec<NamedRow>,
    number: u32,
    ask: Ask,
) -> Result<Option<Result<LodgeReply, Refusal>>, AllocError>
    ensures codes { IsCodedRow (Row.Lodge ask) }
    ensures answer { IfOk result (λ answer. row_answer_in ledger.old (Row.Lodge ask) ≡ answer) }
    ensures returns { OnOk result (ledger.new.returns ≡ after_row_in ledger.old (Row.Lodge ask)) }
    ensures named { IfOk result (λ answer.
        named.new.items ≡ named.old.items ++ named_row number (Row.Lodge ask) answer) }
    ensures kept { ledger.new ≡ record ledger.old { returns = ledger.new.returns } }
    ensures undone { returns_without lodged.new.items ledger.new.returns
        ≡ returns_without lodged.old.items ledger.old.returns }
{
    let Ask::Lodge {
        station,
        slip,
        counts,
    } = ask
    else {
        return Ok(None);
    };
    let answer = take_return(alloc, ledger, lodged, station, slip, counts)?;
    name_refused(named, number, station, &answer)?;
    Ok(Some(answer))
}

/// Lodges a return, and adds its station to the list where one was lodged. Room for it comes first,
/// so that the list has every station that this import lodged.
fn take_return(
    alloc: Global,
    ledger: &mut Ledger,
    lodged: &mut Vec<Code>,
    station: Code,
    slip: Code,
    counts: Counts,
) -> Result<Result<LodgeReply, Refusal>, AllocError>
    ensures codes { is_code slip ≡ true }
    ensures answer { IfOk result (λ answer.
        answer ≡ lodge_answer_in ledger.old station slip counts) }
    ensures returns { OnOk result
        (ledger.new.returns ≡ after_lodge_in ledger.old station slip counts) }
    ensures kept { ledger.new ≡ record ledger.old { returns = ledger.new.returns } }
    ensures undone { returns_without lodged.new.items ledger.new.returns
        ≡ returns_without lodged.old.items ledger.old.returns }
{
    // Called for what its contract says: a slip is a code.
    let _slip = slip.as_bytes();
    let answer = decide_first(ledger, station, slip, &counts);
    let Ok(LodgeReply::Lodged { .. }) = answer else {
        return Ok(answer);
    };
    lodged.reserve(1)?;
    ledger.put(station, Return::lodged(alloc, slip, counts))?;
    lodged.push(station)?;
    Ok(answer)
}

/// Takes out the returns of these stations. It takes no memory.
pub(super) fn take_out(ledger: &mut Ledger, stations: &[Code])
    ensures { ledger.new ≡
        record ledger.old { returns = returns_without stations.now ledger.old.returns } }
{
    for station in stations {
        ledger.take_out(*station);
    }
}
