//! Offices in a database in memory.

use sqlite::{Alter, Connection, MemStore};
use std::alloc::Global;
use std::test::Fail;
use tally_store::{CreateFault, OpenFault, Store};
use tally_test_scripts::check_answers;

// What is done to a connection or an office is written over any store. Over this one each of these
// functions takes the prover longer.
pub(crate) type Conn = Connection<MemStore>;

pub(crate) fn empty(alloc: Global) -> Result<Conn, Fail> {
    match Connection::open_in_memory(alloc) {
        Ok(conn) => Ok(conn),
        Err(_) => Err(Fail::from("no database")),
    }
}

/// The answer to making an office in a database, and its connection where none is made.
pub(crate) fn create<S: Alter + Drop>(
    alloc: Global,
    conn: Connection<S>,
    text: &str,
) -> Result<Store<S>, (Connection<S>, CreateFault)> {
    if !conn.is_autocommit() {
        return Err((conn, CreateFault::Store));
    }
    Store::create(alloc, conn, text.as_bytes())
}

/// A new office of the setup of a text.
fn made_in<S: Alter + Drop>(
    alloc: Global,
    conn: Connection<S>,
    text: &str,
) -> Result<Store<S>, Fail> {
    match create(alloc, conn, text) {
        Ok(office) => Ok(office),
        Err(_) => Err(Fail::from("not made")),
    }
}

/// As above, in memory.
pub(crate) fn made(alloc: Global, text: &str) -> Result<Store<MemStore>, Fail> {
    made_in(alloc, empty(alloc)?, text)
}

/// The answer to opening an office, and its connection where none is opened.
pub(crate) fn open<S: Alter + Drop>(
    alloc: Global,
    conn: Connection<S>,
) -> Result<Store<S>, (Connection<S>, OpenFault)> {
    if !conn.is_autocommit() {
        return Err((conn, OpenFault::Store));
    }
    Store::open(alloc, conn)
}

/// The office of a database.
pub(crate) fn opened<S: Alter + Drop>(
    alloc: Global,
    conn: Connection<S>,
) -> Result<Store<S>, Fail> {
    match open(alloc, conn) {
        Ok(office) => Ok(office),
        Err(_) => Err(Fail::from("not opened")),
    }
}

/// The database of an office after these commands, whose answers are given.
fn database_of<S: Alter + Drop>(
    alloc: Global,
    mut office: Store<S>,
    script: &str,
) -> Result<Connection<S>, Fail> {
    check_answers(alloc, &mut office, script)?;
    Ok(office.close())
}

/// That of a new office in memory of the setup of a text.
pub(crate) fn database(alloc: Global, text: &str, script: &str) -> Result<Conn, Fail> {
    database_of(alloc, made(alloc, text)?, script)
}
