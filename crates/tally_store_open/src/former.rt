//! Opening a database of version 1: its tables are taken over.

ghost use Rattle.std.specs.Prelude.{◌≡◌, false, IsTrue};
ghost use Rattle.sqlite.specs.Held.{state};
ghost use Rattle.tally_store_schema.specs.Made.{HasFirstTables};
ghost use Rattle.tally_store_schema.specs.Tables.{former_schema};
ghost use Rattle.tally_store_schema.specs.internal.Inside.{StaysFrom};
ghost use Rattle.tally_store_open.specs.Calls.{Accepts, OnDisk, Rejects, Yields};
ghost use Rattle.tally_store_open.specs.Crash.{EndsWhole, LeavesTakenOver};
ghost use Rattle.tally_store_open.specs.Open.{IsOpened};
ghost use Rattle.tally_store_open.specs.internal.Ending.{IsSettled};
ghost use Rattle.tally_store_open.specs.internal.Opening.{AreTablesTakenOver, CountsFormer};
ghost use Rattle.tally_store_open.specs.internal.Opening.{EndsTakeover, HasFormerRowids, IsReady};
ghost use Rattle.tally_store_open.specs.internal.Opening.{IsFormerFault, SeesFormer};

use crate::making::VERSION;
use crate::opening::{judge_stored, open_fault_of};
use sqlite::{Alter, Connection, Error, Transaction};
use std::alloc::Global;
use std::collections::BTreeMap;
use tally_keeper::OpenFault;
use tally_setup::{Code, Setup};
use tally_store_rows::Statuses;
use tally_store_schema::{create_past, update_version};

/// The version of the tables before there was a table `past`.
const FORMER_VERSION: u32 = 1;

/// Makes the table `past`, and judges the tables with it.
fn judge_with_past<S: Alter>(
    alloc: Global,
    tx: &mut Transaction<'_, S>,
    known: &mut BTreeMap<Code, Statuses>,
) -> Result<Result<Setup, OpenFault>, Error>
    ensures stays { StaysFrom (HasFirstTables 8) S.Store tx.old tx.new }
    ensures ready { SeesFormer S.Store (Yields IsReady) tx.old tx.new result }
    ensures fault { SeesFormer S.Store (Rejects IsFormerFault) tx.old tx.new result }
    ensures numbers { SeesFormer S.Store (Accepts (CountsFormer known.new)) tx.old tx.new result }
{
    create_past(tx)?;
    judge_stored(alloc, tx, FORMER_VERSION, known)
}

/// Takes the tables of version 1 over, where they are those of a lawful state.
fn take_over<S: Alter>(
    alloc: Global,
    tx: &mut Transaction<'_, S>,
    known: &mut BTreeMap<Code, Statuses>,
) -> Result<Result<Setup, OpenFault>, Error>
    ensures stays { StaysFrom (HasFirstTables 8) S.Store tx.old tx.new }
    ensures taken { SeesFormer S.Store (Yields AreTablesTakenOver) tx.old tx.new result }
    ensures fault { SeesFormer S.Store (Rejects IsFormerFault) tx.old tx.new result }
    ensures numbers { SeesFormer S.Store (Accepts (CountsFormer known.new)) tx.old tx.new result }
{
    let judged = judge_with_past(alloc, tx, known)?;
    if judged.is_err() {
        return Ok(judged);
    }
    update_version(tx, VERSION)?;
    Ok(judged)
}

/// Ends the transaction in which the tables are taken over: with a commit where they were, and
/// where not, what was written is undone.
fn end_takeover<S: Alter>(
    tx: Transaction<'_, S>,
    got: Result<Result<Setup, OpenFault>, Error>,
) -> Result<Setup, OpenFault>
    ensures { EndsTakeover got
        (state S.Store tx.entry.conn.now) (state S.Store tx.exit.0.now) result }
{
    match got {
        Ok(Ok(setup)) => match tx.commit() {
            Ok(()) => Ok(setup),
            Err(error) => Err(open_fault_of(&error)),
        },
        Ok(Err(fault)) => {
            tx.rollback();
            Err(fault)
        }
        Err(error) => {
            tx.rollback();
            Err(open_fault_of(&error))
        }
    }
}

/// The setup of an office whose tables were of version 1. They are taken over in one transaction;
/// on a fault they are as they were. The numbers of its returns are put into a tree.
pub(crate) fn open_former<S: Alter>(
    alloc: Global,
    conn: &mut Connection<S>,
    known: &mut BTreeMap<Code, Statuses>,
) -> Result<Setup, OpenFault>
    requires autocommit { conn.old.in_transaction ≡ false }
    requires schema { (state S.Store conn.old).now.schema ≡ former_schema }
    requires rowids { IsTrue (state S.Store conn.old).is_open →
        HasFormerRowids (state S.Store conn.old).now }
    requires settled { IsSettled (state S.Store conn.old) }
    ensures ends { EndsWhole S.Store LeavesTakenOver conn.old conn.new result }
    ensures opened { OnDisk S.Store (Yields IsOpened) conn.old conn.new result }
    ensures fault { OnDisk S.Store (Rejects IsFormerFault) conn.old conn.new result }
    ensures numbers { OnDisk S.Store (Accepts (CountsFormer known.new)) conn.old conn.new result }
{
    let mut tx = conn.transaction();
    let got = take_over(alloc, &mut tx, known);
    end_takeover(tx, got)
}
