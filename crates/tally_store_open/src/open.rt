//! Opening a database, of today's version or of version 1.

ghost use Rattle.std.specs.Prelude.{◌≡◌, false, IfErr, IfOk, IsTrue, OnOk};
ghost use Rattle.sqlite.specs.Held.{state};
ghost use Rattle.tally_store_open.specs.Calls.{Accepts, OnDisk, Rejects, Yields};
ghost use Rattle.tally_store_open.specs.Crash.{CountsNothing, EndsWhole, IsUnwrittenToday};
ghost use Rattle.tally_store_open.specs.Crash.{LeavesTakenOver};
ghost use Rattle.tally_store_open.specs.Open.{CountsFound, IsOpenFault, IsOpened};
ghost use Rattle.tally_store_open.specs.internal.Opening.{HasRowids, IsFormerSchema, IsSchemaFault};
ghost use Rattle.tally_store_open.specs.internal.Opening.{IsTodaySchema};

use crate::former::open_former;
use crate::opening::{open_fault_of, open_today};
use sqlite::{Alter, Connection};
use sqlite_schema::schema::Schema;
use std::alloc::Global;
use std::collections::BTreeMap;
use tally_keeper::OpenFault;
use tally_setup::{Code, Setup};
use tally_store_rows::Statuses;
use tally_store_schema::{has_former_tables, has_past, is_former_schema, is_office_schema};

/// Whether the tables are those of today, or those of version 1.
fn is_of_today(alloc: Global, schema: &Schema) -> Result<bool, OpenFault>
    ensures today { IfOk result (λ today. IsTrue today → IsTodaySchema schema.now) }
    ensures former { IfOk result (λ today. today ≡ false → IsFormerSchema schema.now) }
    ensures fault { IfErr result (IsSchemaFault schema.now) }
{
    if !has_former_tables(schema) {
        return Err(OpenFault::NoTables);
    }
    if has_past(schema) {
        return match is_office_schema(alloc, schema) {
            Ok(true) => Ok(true),
            Ok(false) => Err(OpenFault::Store),
            Err(error) => Err(open_fault_of(&error)),
        };
    }
    match is_former_schema(alloc, schema) {
        Ok(true) => Ok(false),
        Ok(false) => Err(OpenFault::Store),
        Err(error) => Err(open_fault_of(&error)),
    }
}

/// The setup of an office whose tables are those of a lawful state. Tables of version 1 are taken
/// over. The numbers of its returns are put into a tree.
fn open_with_rowids<S: Alter>(
    alloc: Global,
    conn: &mut Connection<S>,
    known: &mut BTreeMap<Code, Statuses>,
) -> Result<Setup, OpenFault>
    requires autocommit { conn.old.in_transaction ≡ false }
    requires rowids { HasRowids (state S.Store conn.old) }
    ensures ends { EndsWhole S.Store LeavesTakenOver conn.old conn.new result }
    ensures opened { OnDisk S.Store (Yields IsOpened) conn.old conn.new result }
    ensures fault { OnDisk S.Store (Rejects IsOpenFault) conn.old conn.new result }
    ensures unwritten { IsUnwrittenToday (state S.Store conn.old) (state S.Store conn.new) }
    ensures counts { OnOk result (CountsNothing (state S.Store conn.old) (state S.Store conn.new)) }
    ensures numbers { OnDisk S.Store (Accepts (CountsFound known.new)) conn.old conn.new result }
{
    // Called for what its contract says: in no transaction, what an open connection has was
    // committed.
    let _settled = conn.is_autocommit();
    match is_of_today(alloc, conn.schema()) {
        Ok(true) => open_today(alloc, conn, known),
        Ok(false) => open_former(alloc, conn, known),
        Err(fault) => Err(fault),
    }
}

/// Opens the database of an office, of today's version or of version 1, and answers its setup: its
/// tables are those of a lawful state. Those of version 1 are taken over. The numbers of its
/// returns are put into a tree. The connection comes as a whole, and is given back, so that the
/// prover knows that the store of one that is open is not broken: the rowids of a table differ.
pub fn open_in<S: Alter>(
    alloc: Global,
    conn: Connection<S>,
    known: &mut BTreeMap<Code, Statuses>,
) -> (Connection<S>, Result<Setup, OpenFault>)
    requires autocommit { conn.in_transaction ≡ false }
    ensures ends { EndsWhole S.Store LeavesTakenOver conn result.0 result.1 }
    ensures opened { OnDisk S.Store (Yields IsOpened) conn result.0 result.1 }
    ensures fault { OnDisk S.Store (Rejects IsOpenFault) conn result.0 result.1 }
    ensures unwritten { IsUnwrittenToday (state S.Store conn) (state S.Store result.0) }
    ensures counts { OnOk result.1 (CountsNothing (state S.Store conn) (state S.Store result.0)) }
    ensures numbers { OnDisk S.Store (Accepts (CountsFound known.new)) conn result.0 result.1 }
{
    let mut conn = conn;
    let opened = open_with_rowids(alloc, &mut conn, known);
    (conn, opened)
}
