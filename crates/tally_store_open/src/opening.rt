//! Opening a database.

ghost use Rattle.std.specs.Prelude.{◌≡◌, ◌↔◌, ◌⊎◌, false, IfErr, IfOk, IsTrue, Ok, option_map};
ghost use Rattle.sqlite.specs.State.{KeepsCounts};
ghost use Rattle.sqlite.specs.Held.{state};
ghost use Rattle.tally_rules.specs.Reading.{setup_of_text};
ghost use Rattle.tally_store_schema.specs.internal.Inside.{OnlyReadsFrom};
ghost use Rattle.tally_store_schema.specs.Office.{HasTables};
ghost use Rattle.sqlite.specs.Effect.{IsDatabase};
ghost use Rattle.tally_store_schema.specs.Tables.{office_schema};
ghost use Rattle.tally_store_rows.specs.TablesOfState.{version};
ghost use Rattle.tally_store_open.specs.Calls.{Accepts, OnDisk, Rejects, Yields};
ghost use Rattle.tally_store_open.specs.internal.Ending.{EndsUnchanged, IsSettled};
ghost use Rattle.tally_store_open.specs.internal.Opening.{CountsTables, HasSetupRow, IsJudged};
ghost use Rattle.tally_store_open.specs.internal.Opening.{Sees};
ghost use Rattle.tally_store_open.specs.internal.Opening.{IsJudgedFault, IsSetupFault};
ghost use Rattle.tally_store_open.specs.internal.Opening.{IsTodayFault};
ghost use Rattle.tally_store_open.specs.internal.Opening.{IsShownFault, IsShownSetup, IsTextFault};
ghost use Rattle.tally_store_open.specs.internal.Opening.{IsAnswerOf, setup_shown, shown_of_row};

use crate::judging::judge_office;
use crate::making::VERSION;
use sqlite::{Alter, Connection, Error, ErrorCode, Row, Transaction};
use std::alloc::Global;
use std::collections::BTreeMap;
use tally_keeper::OpenFault;
use tally_rules::{SetupFault, read_setup};
use tally_setup::{Code, Setup};
use tally_store_rows::Statuses;
use tally_store_schema::{all_setup, is_memory, number_at, text_at};

fn shown_of_row(row: &Row) -> Option<(u32, &[u8])>
    ensures { option_map (λ found. (found.0, found.1.now)) result ≡ shown_of_row row.now }
{
    if number_at(row, 0)? != 1 {
        return None;
    }
    let version = number_at(row, 1)?;
    let text = text_at(row, 2)?;
    Some((version, text))
}

/// The version of the tables and the text of the setup, where `setup` has its one row.
fn setup_shown(rows: &[Row]) -> Option<(u32, &[u8])>
    ensures { option_map (λ found. (found.0, found.1.now)) result ≡ setup_shown rows.now }
{
    if rows.len() != 1 {
        return None;
    }
    shown_of_row(&rows[0])
}

/// The setup that a stored text is.
fn stored_setup(alloc: Global, text: &[u8]) -> Result<Setup, OpenFault>
    ensures setup { IfOk result (λ setup. setup_of_text text.now ≡ Ok setup) }
    ensures fault { IfErr result (IsTextFault text.now) }
{
    match read_setup(alloc, text) {
        Ok(setup) => Ok(setup),
        Err(SetupFault::Memory) => Err(OpenFault::Memory),
        Err(fault) => Err(OpenFault::Setup(fault)),
    }
}

/// The setup of this version that is shown of the table `setup`. Where today's version is shown in
/// place of it, the table `past` is missing.
fn setup_of_version(alloc: Global, rows: &[Row], number: u32) -> Result<Setup, OpenFault>
    ensures setup { IfOk result (IsShownSetup number rows.now) }
    ensures fault { IfErr result (IsShownFault number rows.now) }
{
    let Some((found, text)) = setup_shown(rows) else {
        return Err(OpenFault::BadTables);
    };
    if found == number {
        return stored_setup(alloc, text);
    }
    if found == VERSION {
        return Err(OpenFault::NoTables);
    }
    Err(OpenFault::BadTables)
}

/// The setup whose text `setup` has, where it has its one row, of this version.
fn read_stored<S: Alter>(
    alloc: Global,
    tx: &mut Transaction<'_, S>,
    number: u32,
) -> Result<Result<Setup, OpenFault>, Error>
    ensures reads { OnlyReadsFrom HasTables S.Store tx.old tx.new result }
    ensures stored { Sees S.Store (Accepts (HasSetupRow number)) tx.old tx.new result }
    ensures fault { Sees S.Store (Rejects (IsSetupFault number)) tx.old tx.new result }
{
    let rows = all_setup(tx)?;
    Ok(setup_of_version(alloc, &rows, number))
}

/// The setup of this version, where the tables in today's form are those of a lawful state over it.
/// The numbers of its returns are put into a tree.
pub(crate) fn judge_stored<S: Alter>(
    alloc: Global,
    tx: &mut Transaction<'_, S>,
    number: u32,
    known: &mut BTreeMap<Code, Statuses>,
) -> Result<Result<Setup, OpenFault>, Error>
    ensures reads { OnlyReadsFrom HasTables S.Store tx.old tx.new result }
    ensures stored { Sees S.Store (Accepts (HasSetupRow number)) tx.old tx.new result }
    ensures judged { Sees S.Store (Accepts IsJudged) tx.old tx.new result }
    ensures fault { Sees S.Store (Rejects (IsJudgedFault number)) tx.old tx.new result }
    ensures numbers { Sees S.Store (Accepts (CountsTables known.new)) tx.old tx.new result }
{
    match read_stored(alloc, tx, number)? {
        Ok(setup) => judge_office(alloc, tx, setup, known),
        Err(fault) => Ok(Err(fault)),
    }
}

pub(crate) fn open_fault_of(error: &Error) -> OpenFault
    ensures own { (result ≡ OpenFault.Memory) ⊎ (result ≡ OpenFault.Store) }
    ensures memory { result ≡ OpenFault.Memory ↔
        error.now ≡ Error.SqliteFailure ErrorCode.OutOfMemory }
{
    if is_memory(error) {
        OpenFault::Memory
    } else {
        OpenFault::Store
    }
}

// What a call in a transaction answered, or why it failed.
fn answer_of(got: Result<Result<Setup, OpenFault>, Error>) -> Result<Setup, OpenFault>
    ensures { IsAnswerOf got result }
{
    match got {
        Ok(answer) => answer,
        Err(error) => Err(open_fault_of(&error)),
    }
}

/// The setup of an office whose tables are of today's version. Nothing is written. The numbers of
/// its returns are put into a tree.
pub(crate) fn open_today<S: Alter>(
    alloc: Global,
    conn: &mut Connection<S>,
    known: &mut BTreeMap<Code, Statuses>,
) -> Result<Setup, OpenFault>
    requires autocommit { conn.old.in_transaction ≡ false }
    requires schema { (state S.Store conn.old).now.schema ≡ office_schema }
    requires sound { IsTrue (state S.Store conn.old).is_open →
        IsDatabase (state S.Store conn.old).now }
    requires settled { IsSettled (state S.Store conn.old) }
    ensures ends { EndsUnchanged (state S.Store conn.old) (state S.Store conn.new) }
    ensures stored { OnDisk S.Store (Accepts (HasSetupRow version)) conn.old conn.new result }
    ensures judged { OnDisk S.Store (Accepts IsJudged) conn.old conn.new result }
    ensures fault { OnDisk S.Store (Rejects IsTodayFault) conn.old conn.new result }
    ensures counts { OnDisk S.Store (Yields (λ _. KeepsCounts)) conn.old conn.new result }
    ensures numbers { OnDisk S.Store (Accepts (CountsTables known.new)) conn.old conn.new result }
{
    let mut tx = conn.transaction();
    let judged = judge_stored(alloc, &mut tx, VERSION, known);
    tx.rollback();
    answer_of(judged)
}
