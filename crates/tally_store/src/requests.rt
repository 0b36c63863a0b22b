//! Requests and imports over a connection, each in a transaction of its own.

ghost use Rattle.std.specs.Prelude.{◌≡◌, ◌↔◌, [], ◌⊎◌, false, Err, Some, IfErr, IfOk, IsErr};
ghost use Rattle.std.specs.Prelude.{IsTrue, OnOk};
ghost use Rattle.sqlite.specs.State.{HasCleanDisk};
ghost use Rattle.sqlite.specs.Held.{state};
ghost use Rattle.tally_returns_rows.specs.Delivery.{delivery};
ghost use Rattle.tally_keeper.specs.Keeper.{IsImportFault};
ghost use Rattle.tally_returns_rows.specs.Source.{GaveAll};
ghost use Rattle.tally_store_open.specs.Crash.{IsUnwritten};
ghost use Rattle.tally_store_open.specs.internal.Ending.{EndsUnchanged};
ghost use Rattle.tally_keeper.specs.Shown.{IsReturnsRefusal, con_with};
ghost use Rattle.tally_machine_law.specs.Kinds.{IsReplyTo};
ghost use Rattle.tally_machine_law.specs.Runs.{is_act};
ghost use Rattle.tally_machine_law.specs.Step.{IsNotAccepted};
ghost use Rattle.tally_setup.specs.Constituency as value;
ghost use Rattle.tally_setup.specs.Setup.{constituency_with};
ghost use Rattle.tally_returns.specs.Named.{BringsCode};
ghost use Rattle.tally_returns.specs.View.{FitsView};
ghost use Rattle.tally_returns.specs.declared.ask.Ask.TheVariants.{ShowCon};
ghost use Rattle.tally_store.specs.Crash.{LeavesAsBefore, LeavesSame, LooksWithoutWriting};
ghost use Rattle.tally_store.specs.Crash.{WritesOnlyLodgedRows};
ghost use Rattle.tally_store_commands.specs.internal.Inside.{StaysInState};
ghost use Rattle.tally_store_commands.specs.internal.Known.{ForgetsNone, known_of};
ghost use Rattle.tally_store_commands.specs.internal.Requests.{LodgesRows, NamesImported};
ghost use Rattle.tally_store.specs.internal.Requests.{Answers};
ghost use Rattle.tally_store.specs.internal.Requests.{Does, DoesImport, DoesName, DoesShow};
ghost use Rattle.tally_store.specs.internal.Requests.{DoesShowReturns, DoesTry};
ghost use Rattle.tally_store.specs.internal.Requests.{EndsFrom, EndsImport, EndsRequest};
ghost use Rattle.tally_store.specs.internal.Requests.{EndsTransaction, IsNothing};
ghost use Rattle.tally_store.specs.internal.Requests.{IsRefusedByKeeper};
ghost use Rattle.tally_store.specs.internal.Requests.{KnowsAfter, KnowsImported, KnowsStill};
ghost use Rattle.tally_store.specs.Store.{IsOfLawfulState};
ghost use Rattle.tally_store.specs.internal.Served.{IsKnownOf};

use sqlite::{Alter, Connection, Error, ErrorCode, Transaction};
use std::alloc::Global;
use std::collections::BTreeMap;
use tally_returns::{Ask, ConView, Refusal, Reply, StationRow};
use tally_returns_rows::{ImportCount, ImportFault, NamedRow, RowSource};
use tally_setup::{Code, Setup};
use tally_store_commands::{
    answer_in, import_fault_of, see_open, show_con_in, show_returns_in, take_rows,
};
use tally_store_rows::Statuses;
use tally_store_schema::is_memory;

/// Answers a request by the database, and carries it out there.
///
/// Where the request is not accepted, the database is as it was, unless a disk failed and shut the
/// connection, and then the answer is Store. Where it does not act, nothing is written. The counts
/// that are kept are forgotten only where the answer is a fault; otherwise they are true of the
/// database afterwards.
pub(crate) fn answer_request<S: Alter>(
    alloc: Global,
    conn: &mut Connection<S>,
    setup: &Setup,
    known: &mut BTreeMap<Code, Statuses>,
    ask: &Ask,
) -> Result<Reply, Refusal>
    requires autocommit { conn.old.in_transaction ≡ false }
    requires office { IsOfLawfulState setup.now (state S.Store conn.old) }
    requires known { IsKnownOf setup.now (state S.Store conn.old) (known_of known.old) }
    ensures ends { EndsRequest setup.now ask.now (state S.Store conn.old) (state S.Store conn.new) }
    ensures codes { BringsCode ask.now }
    ensures kind { IfOk result (IsReplyTo setup.now ask.now) }
    ensures done { Does setup.now ask.now (state S.Store conn.old) (state S.Store conn.new) result }
    ensures known { KnowsAfter setup.now ask.now
        (state S.Store conn.old) (state S.Store conn.new) result (known_of known.new) }
    ensures shut { HasCleanDisk (state S.Store conn.new) →
        (state S.Store conn.new).is_open ≡ false → result ≡ Err Refusal.Store }
    ensures forgets { IsNotAccepted result
        ⊎ ForgetsNone (known_of known.old) (known_of known.new) }
    ensures unwritten { is_act result ≡ false →
        LeavesAsBefore (state S.Store conn.old) (state S.Store conn.new) result }
{
    // Called for what its contract says: a slip that a request brings is a code.
    let _slip = ask.slip();
    let mut tx = conn.transaction();
    let got = answer_in(alloc, &mut tx, setup, known, ask);
    let ended = end_request(tx, known, got);
    answer_after(conn, ended)
}

/// Shows a constituency by the database, without its certificates on record. Nothing is written.
/// The facts known then are still true of the database, or none is known. Nothing is forgotten
/// where the request was accepted or refused.
pub(crate) fn show_request<S: Alter>(
    alloc: Global,
    conn: &mut Connection<S>,
    setup: &Setup,
    known: &mut BTreeMap<Code, Statuses>,
    con: Code,
) -> Result<ConView, Refusal>
    requires autocommit { conn.old.in_transaction ≡ false }
    requires office { IsOfLawfulState setup.now (state S.Store conn.old) }
    requires known { IsKnownOf setup.now (state S.Store conn.old) (known_of known.old) }
    ensures ends { EndsRequest setup.now (ShowCon con)
        (state S.Store conn.old) (state S.Store conn.new) }
    ensures fits { IfOk result (λ view. (found : value.Constituency)
        → constituency_with con setup.now ≡ Some found → FitsView found view) }
    ensures bare { IfOk result (λ view. view.past ≡ []) }
    ensures done { DoesShow setup.now con (state S.Store conn.old) (state S.Store conn.new) result }
    ensures known { KnowsStill setup.now
        (state S.Store conn.old) (state S.Store conn.new) (known_of known.new) }
    ensures shut { HasCleanDisk (state S.Store conn.new) →
        (state S.Store conn.new).is_open ≡ false → result ≡ Err Refusal.Store }
    ensures forgets { IsNotAccepted (con_with [] result)
        ⊎ ForgetsNone (known_of known.old) (known_of known.new) }
    ensures unwritten { LeavesAsBefore (state S.Store conn.old) (state S.Store conn.new)
        (con_with [] result) }
{
    let mut tx = conn.transaction();
    let shown = show_con_in(alloc, &mut tx, setup, known, con);
    let ended = end_request(tx, known, shown);
    answer_after(conn, ended)
}

/// Shows the stations of a constituency by the database, with their returns. Nothing is written.
/// The known facts stay as they are, or the request was not accepted, and nothing is known.
pub(crate) fn show_stations<S: Alter>(
    alloc: Global,
    conn: &mut Connection<S>,
    setup: &Setup,
    known: &mut BTreeMap<Code, Statuses>,
    con: Code,
) -> Result<Vec<StationRow>, Refusal>
    requires autocommit { conn.old.in_transaction ≡ false }
    requires office { IsOfLawfulState setup.now (state S.Store conn.old) }
    requires known { IsKnownOf setup.now (state S.Store conn.old) (known_of known.old) }
    ensures ends { EndsFrom (LeavesSame (state S.Store conn.old))
        (state S.Store conn.old) (state S.Store conn.new) }
    ensures refused { IfErr result (IsReturnsRefusal setup.now con) }
    ensures done { DoesShowReturns setup.now con
        (state S.Store conn.old) (state S.Store conn.new) result }
    ensures known { KnowsStill setup.now
        (state S.Store conn.old) (state S.Store conn.new) (known_of known.new) }
    ensures shut { HasCleanDisk (state S.Store conn.new) →
        (state S.Store conn.new).is_open ≡ false → result ≡ Err Refusal.Store }
    ensures forgets { IsRefusedByKeeper result ⊎ (known_of known.new ≡ known_of known.old) }
    ensures unwritten { LooksWithoutWriting
        (state S.Store conn.old) (state S.Store conn.new) result }
{
    let mut tx = conn.transaction();
    let rows = show_returns_in(alloc, &mut tx, setup, con);
    let ended = end_request(tx, known, rows);
    answer_after(conn, ended)
}

/// Lodges the rows of a source in the database, and names those that are refused or bad. With a
/// fault the database is as it was, unless a disk that failed has shut the connection, and then the
/// fault is Store. Nothing is known then. An import that is done and lodged no row has written
/// nothing.
pub(crate) fn import_rows<S: Alter, R: RowSource>(
    alloc: Global,
    conn: &mut Connection<S>,
    setup: &Setup,
    known: &mut BTreeMap<Code, Statuses>,
    source: &mut R,
    named: &mut Vec<NamedRow>,
) -> Result<ImportCount, ImportFault>
    requires autocommit { conn.old.in_transaction ≡ false }
    requires office { IsOfLawfulState setup.now (state S.Store conn.old) }
    requires known { IsKnownOf setup.now (state S.Store conn.old) (known_of known.old) }
    ensures ends { EndsImport setup.now (delivery R.RowSource source.old source.new)
        (state S.Store conn.old) (state S.Store conn.new) }
    ensures done { DoesImport setup.now (delivery R.RowSource source.old source.new)
        (state S.Store conn.old) (state S.Store conn.new) result }
    ensures named { DoesName setup.now (delivery R.RowSource source.old source.new)
        (state S.Store conn.old) (state S.Store conn.new) result
        named.old.items named.new.items }
    ensures known { KnowsImported setup.now (delivery R.RowSource source.old source.new)
        (state S.Store conn.old) (state S.Store conn.new) result (known_of known.new) }
    ensures fault { IfErr result (IsImportFault (delivery R.RowSource source.old source.new)) }
    ensures shut { HasCleanDisk (state S.Store conn.new) →
        (state S.Store conn.new).is_open ≡ false → result ≡ Err ImportFault.Store }
    ensures forgets { OnOk result (ForgetsNone (known_of known.old) (known_of known.new)) }
    ensures unwritten { WritesOnlyLodgedRows
        (state S.Store conn.old) (state S.Store conn.new) result }
{
    match take_committed(alloc, conn, setup, known, source, named) {
        Ok(count) => Ok(count),
        Err(fault) => Err(unless_shut(conn, fault, ImportFault::Store)),
    }
}

/// Answers what `import_rows` would answer, with the rows that it would name, and lodges nothing.
/// Whatever it answers, the database is as it was, unless a disk that failed has shut the
/// connection, and then it answers the fault Store.
pub(crate) fn try_rows<S: Alter, R: RowSource>(
    alloc: Global,
    conn: &mut Connection<S>,
    setup: &Setup,
    source: &mut R,
    named: &mut Vec<NamedRow>,
) -> Result<ImportCount, ImportFault>
    requires autocommit { conn.old.in_transaction ≡ false }
    requires office { IsOfLawfulState setup.now (state S.Store conn.old) }
    ensures ends { EndsUnchanged (state S.Store conn.old) (state S.Store conn.new) }
    ensures tried { DoesTry setup.now (delivery R.RowSource source.old source.new)
        (state S.Store conn.old) (state S.Store conn.new) result }
    ensures named { DoesName setup.now (delivery R.RowSource source.old source.new)
        (state S.Store conn.old) (state S.Store conn.new) result
        named.old.items named.new.items }
    ensures fault { IfErr result (IsImportFault (delivery R.RowSource source.old source.new)) }
    ensures shut { HasCleanDisk (state S.Store conn.new) →
        (state S.Store conn.new).is_open ≡ false → result ≡ Err ImportFault.Store }
    ensures unwritten { IsUnwritten (state S.Store conn.old) (state S.Store conn.new) }
{
    let taken = take_undone(alloc, conn, setup, source, named);
    unless_shut(conn, taken, Err(ImportFault::Store))
}

/// Lodges the rows of a source in a transaction, and commits it, or with a fault undoes what was
/// written.
fn take_committed<S: Alter, R: RowSource>(
    alloc: Global,
    conn: &mut Connection<S>,
    setup: &Setup,
    known: &mut BTreeMap<Code, Statuses>,
    source: &mut R,
    named: &mut Vec<NamedRow>,
) -> Result<ImportCount, ImportFault>
    requires autocommit { conn.old.in_transaction ≡ false }
    requires office { IsOfLawfulState setup.now (state S.Store conn.old) }
    requires known { IsKnownOf setup.now (state S.Store conn.old) (known_of known.old) }
    ensures ends { EndsImport setup.now (delivery R.RowSource source.old source.new)
        (state S.Store conn.old) (state S.Store conn.new) }
    ensures done { DoesImport setup.now (delivery R.RowSource source.old source.new)
        (state S.Store conn.old) (state S.Store conn.new) result }
    ensures named { DoesName setup.now (delivery R.RowSource source.old source.new)
        (state S.Store conn.old) (state S.Store conn.new) result
        named.old.items named.new.items }
    ensures known { KnowsImported setup.now (delivery R.RowSource source.old source.new)
        (state S.Store conn.old) (state S.Store conn.new) result (known_of known.new) }
    ensures fault { IfErr result (IsImportFault (delivery R.RowSource source.old source.new)) }
    ensures shut { HasCleanDisk (state S.Store conn.new) →
        (state S.Store conn.new).is_open ≡ false → IsErr result }
    ensures forgets { OnOk result (ForgetsNone (known_of known.old) (known_of known.new)) }
    ensures unwritten { WritesOnlyLodgedRows
        (state S.Store conn.old) (state S.Store conn.new) result }
{
    let mut tx = conn.transaction();
    match take_open(alloc, &mut tx, setup, known, source, named) {
        Ok(count) => match tx.commit() {
            Ok(()) => Ok(count),
            Err(error) => {
                known.clear();
                Err(import_fault_of(&error))
            }
        },
        Err(fault) => {
            tx.rollback();
            known.clear();
            Err(fault)
        }
    }
}

/// Lodges the rows of a source in a transaction, and undoes what was written, whatever came of it.
fn take_undone<S: Alter, R: RowSource>(
    alloc: Global,
    conn: &mut Connection<S>,
    setup: &Setup,
    source: &mut R,
    named: &mut Vec<NamedRow>,
) -> Result<ImportCount, ImportFault>
    requires autocommit { conn.old.in_transaction ≡ false }
    requires office { IsOfLawfulState setup.now (state S.Store conn.old) }
    ensures ends { EndsUnchanged (state S.Store conn.old) (state S.Store conn.new) }
    ensures tried { DoesTry setup.now (delivery R.RowSource source.old source.new)
        (state S.Store conn.old) (state S.Store conn.new) result }
    ensures named { DoesName setup.now (delivery R.RowSource source.old source.new)
        (state S.Store conn.old) (state S.Store conn.new) result
        named.old.items named.new.items }
    ensures gave { OnOk result (GaveAll (delivery R.RowSource source.old source.new)) }
    ensures fault { IfErr result (IsImportFault (delivery R.RowSource source.old source.new)) }
{
    // What is known is of no use here: nothing is lodged.
    let mut known = BTreeMap::new(alloc);
    let mut tx = conn.transaction();
    let taken = take_open(alloc, &mut tx, setup, &mut known, source, named);
    tx.rollback();
    taken
}

/// Lodges the rows of a source, where the connection is open.
fn take_open<S: Alter, R: RowSource>(
    alloc: Global,
    tx: &mut Transaction<'_, S>,
    setup: &Setup,
    known: &mut BTreeMap<Code, Statuses>,
    source: &mut R,
    named: &mut Vec<NamedRow>,
) -> Result<ImportCount, ImportFault>
    ensures stays { StaysInState setup.now S.Store tx.old tx.new }
    ensures was_open { HasCleanDisk (state S.Store tx.new.conn.now) →
        OnOk result (IsTrue (state S.Store tx.old.conn.now).is_open) }
    ensures lodges { LodgesRows S.Store setup.now (delivery R.RowSource source.old source.new)
        known.old known.new tx.old tx.new result }
    ensures named { NamesImported setup.now (delivery R.RowSource source.old source.new)
        named.old.items named.new.items
        (state S.Store tx.old.conn.now) (state S.Store tx.new.conn.now) result }
{
    match see_open(tx) {
        Ok(()) => take_rows(alloc, tx, setup, known, source, named),
        Err(error) => Err(import_fault_of(&error)),
    }
}

/// Ends the transaction in which a request was answered. The answer is committed with what was
/// written. Where a call failed, or the commit, what was written is undone, and nothing is known:
/// the outer error says why.
fn end_request<S: Alter, T: Drop>(
    tx: Transaction<'_, S>,
    known: &mut BTreeMap<Code, Statuses>,
    got: Result<Result<T, Refusal>, Error>,
) -> Result<Result<T, Refusal>, Refusal>
    ensures { EndsTransaction got (known_of known.old) (known_of known.new)
        (state S.Store tx.entry.conn.now) (state S.Store tx.exit.0.now) result }
{
    match got {
        Ok(answer) => match tx.commit() {
            Ok(()) => Ok(answer),
            Err(error) => Err(forget(known, &error)),
        },
        Err(error) => {
            tx.rollback();
            Err(forget(known, &error))
        }
    }
}

/// Answers a request whose transaction ended so. The connection is looked at only where that was
/// undone.
fn answer_after<S: Alter, T: Drop>(
    conn: &mut Connection<S>,
    ended: Result<Result<T, Refusal>, Refusal>,
) -> Result<T, Refusal>
    requires { conn.old.in_transaction ≡ false }
    ensures { Answers S.Store conn.old conn.new ended result }
{
    match ended {
        Ok(answer) => answer,
        Err(why) => Err(unless_shut(conn, why, Refusal::Store)),
    }
}

/// Answers `said`, or `failed` where the connection is not seen to be open. A rollback does not say
/// that a failed disk has shut the connection. So the connection is given a text that is no
/// statement: only where it is open does it look at the text, and for that it needs no memory.
fn unless_shut<S: Alter, T: Drop>(conn: &mut Connection<S>, said: T, failed: T) -> T
    requires { conn.old.in_transaction ≡ false }
    ensures ends { EndsUnchanged (state S.Store conn.old) (state S.Store conn.new) }
    ensures shut { HasCleanDisk (state S.Store conn.new) →
        (state S.Store conn.new).is_open ≡ false → result ≡ failed }
    ensures one { (result ≡ said) ⊎ (result ≡ failed) }
{
    // Called for what its contract says: in no transaction, what an open connection has was
    // committed.
    let _settled = conn.is_autocommit();
    match conn.prepare("no statement") {
        Err(Error::SqlInputError(_)) => said,
        _ => failed,
    }
}

/// Forgets what was known, where a call failed, and says why a request was not accepted.
fn forget(known: &mut BTreeMap<Code, Statuses>, error: &Error) -> Refusal
    ensures forgot { IsNothing (known_of known.new) }
    ensures own { (result ≡ Refusal.Memory) ⊎ (result ≡ Refusal.Store) }
{
    let refusal = refusal_of(error);
    known.clear();
    refusal
}

fn refusal_of(error: &Error) -> Refusal
    ensures own { (result ≡ Refusal.Memory) ⊎ (result ≡ Refusal.Store) }
    ensures memory { result ≡ Refusal.Memory ↔
        error.now ≡ Error.SqliteFailure ErrorCode.OutOfMemory }
{
    if is_memory(error) {
        Refusal::Memory
    } else {
        Refusal::Store
    }
}
