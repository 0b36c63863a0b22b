//! Making an office in a database, of the text of its setup. Errors are matched and returned, and
//! not passed on by `?`, since the `?` of an enum that holds a text (`CreateFault`) has no proof
//! yet.

ghost use Rattle.std.specs.Prelude.{◌≡◌, ◌↔◌, ◌⊎◌, false, IfErr, IfOk, IsTrue, Ok, OnOk};
ghost use Rattle.sqlite.specs.Held.{state};
ghost use Rattle.sqlite_schema.specs.declared.schema.Schema.{Schema};
ghost use Rattle.tally_setup.specs.Limits.{IsSetup};
ghost use Rattle.tally_rules.specs.Reading.{setup_of_text};
ghost use Rattle.tally_store_open.specs.Calls.{OnDisk, Yields};
ghost use Rattle.tally_store_open.specs.Crash.{EndsWhole, LeavesOpening};
ghost use Rattle.tally_store_open.specs.Create.{IsCreateFault, MakesOffice, no_schema};
ghost use Rattle.tally_store_open.specs.internal.Ending.{IsSettled};
ghost use Rattle.tally_store_open.specs.internal.Making.{IsFaultOfEachSetup};

use crate::making::make_in;
use sqlite::{Alter, Connection, Error, ErrorCode};
use sqlite_schema::schema::Schema;
use std::alloc::Global;
use std::str;
use tally_keeper::CreateFault;
use tally_rules::{SetupFault, read_setup};
use tally_setup::Setup;
use tally_store_schema::{is_memory, takes_office_name};

fn create_fault_of(error: &Error) -> CreateFault
    ensures own { (result ≡ CreateFault.Memory) ⊎ (result ≡ CreateFault.Store) }
    ensures memory { result ≡ CreateFault.Memory ↔
        error.now ≡ Error.SqliteFailure ErrorCode.OutOfMemory }
{
    if is_memory(error) {
        CreateFault::Memory
    } else {
        CreateFault::Store
    }
}

/// The setup that a text is, with the text. With a fault no office is made of it, in whatever
/// database.
fn setup_in(alloc: Global, text: &[u8]) -> Result<(Setup, &str), CreateFault>
    ensures setup { IfOk result (λ found. setup_of_text text.now ≡ Ok found.0) }
    ensures text { IfOk result (λ found. found.1.now ≡ text.now) }
    ensures fault { IfErr result (λ fault.
        (schema : Schema) → IsCreateFault text.now schema fault) }
{
    let setup = match read_setup(alloc, text) {
        Ok(setup) => setup,
        Err(SetupFault::Memory) => return Err(CreateFault::Memory),
        Err(fault) => return Err(CreateFault::Setup(fault)),
    };
    match str::from_utf8(text) {
        Ok(text) => Ok((setup, text)),
        Err(_) => Err(CreateFault::Setup(SetupFault::NotToml)),
    }
}

/// No table, no index and no view.
fn is_unset(schema: &Schema) -> bool
    ensures { IsTrue result → schema.now ≡ no_schema }
{
    schema.tables.as_slice().is_empty()
        && schema.indexes.as_slice().is_empty()
        && schema.views.as_slice().is_empty()
}

/// Checks that a database has no tables, and that all that is there was committed. With a fault no
/// office is made in it, of whatever setup.
fn check_unset<S: Alter>(conn: &Connection<S>) -> Result<(), CreateFault>
    requires autocommit { conn.now.in_transaction ≡ false }
    ensures unset { OnOk result ((state S.Store conn.now).now.schema ≡ no_schema) }
    ensures settled { OnOk result (IsSettled (state S.Store conn.now)) }
    ensures fault { IfErr result (IsFaultOfEachSetup (state S.Store conn.now).now.schema) }
{
    if takes_office_name(conn.schema()) {
        return Err(CreateFault::NotEmpty);
    }
    // Called for what its contract says: in no transaction, what an open connection has was
    // committed.
    let _settled = conn.is_autocommit();
    if !is_unset(conn.schema()) {
        return Err(CreateFault::Store);
    }
    Ok(())
}

/// Makes the tables of an office that opens, of the setup that the text is, in a database without
/// tables, in one transaction, and gives the setup. With a fault the tables are as they were.
pub fn create_in<S: Alter>(
    alloc: Global,
    conn: &mut Connection<S>,
    text: &[u8],
) -> Result<Setup, CreateFault>
    requires autocommit { conn.old.in_transaction ≡ false }
    ensures ends { EndsWhole S.Store (λ _. LeavesOpening text.now) conn.old conn.new result }
    ensures setup { IfOk result (λ setup. setup_of_text text.now ≡ Ok setup) }
    ensures limits { IfOk result IsSetup }
    ensures unset { OnOk result ((state S.Store conn.old).now.schema ≡ no_schema) }
    ensures made { OnDisk S.Store (Yields (MakesOffice text.now)) conn.old conn.new result }
    ensures open { OnDisk S.Store (Yields (λ _ _ s. IsTrue s.is_open)) conn.old conn.new result }
    ensures fault { IfErr result (IsCreateFault text.now (state S.Store conn.old).now.schema) }
{
    let (setup, text) = match setup_in(alloc, text) {
        Ok(found) => found,
        Err(fault) => return Err(fault),
    };
    if let Err(fault) = check_unset(conn) {
        return Err(fault);
    }
    match make_in(conn, &setup, text) {
        Ok(()) => Ok(setup),
        Err(error) => Err(create_fault_of(&error)),
    }
}
