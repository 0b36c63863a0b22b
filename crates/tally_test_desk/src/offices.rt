//! Offices in memory and in a database, and what they write to connections.

use sqlite::{Alter, Connection, MemStore};
use std::alloc::{AllocError, Global};
use std::test::Fail;
use tally_core::{Book, Keeper};
use tally_desk::{MemoryConn, MemoryDoor, serve};
use tally_store::Store;
use tally_test_scripts::setup;

/// A keeper of which new ones are made.
pub(crate) trait Office: Keeper + Drop {
    /// An office of the setup of a text, in which no return is recorded.
    fn made(alloc: Global, text: &str) -> Result<Self, Fail>;
}

impl Office for Book {
    fn made(alloc: Global, text: &str) -> Result<Book, Fail> {
        Ok(Book::new(alloc, setup(alloc, text)?)?)
    }
}

/// An office in a database in memory.
pub(crate) type Stored = Store<MemStore>;

/// A new office in a database.
fn new_store<S: Alter + Drop>(
    alloc: Global,
    conn: Connection<S>,
    text: &str,
) -> Result<Store<S>, Fail> {
    if !conn.is_autocommit() {
        return Err(Fail::from("a transaction"));
    }
    match Store::create(alloc, conn, text.as_bytes()) {
        Ok(office) => Ok(office),
        Err(_) => Err(Fail::from("no office")),
    }
}

impl Office for Store<MemStore> {
    fn made(alloc: Global, text: &str) -> Result<Store<MemStore>, Fail> {
        new_store(alloc, Connection::open_in_memory(alloc)?, text)
    }
}

/// The most bytes that a connection takes where its writes are not to fail.
pub(crate) const ROOM: usize = 4_096;

/// A connection that gives a text, or fails once this many bytes of it were given, and takes this
/// many bytes.
pub(crate) fn connection(
    alloc: Global,
    text: &str,
    read_fails: Option<usize>,
    room: usize,
) -> Result<MemoryConn, AllocError> {
    let input = Vec::from_slice(alloc, text.as_bytes())?;
    MemoryConn::new(alloc, input, read_fails, room)
}

fn first_written(alloc: Global, door: &MemoryDoor) -> Result<String, Fail> {
    match door.conns().first() {
        Some(conn) => Ok(String::from_utf8_lossy(alloc, conn.written())?),
        None => Err(Fail::from("no connection")),
    }
}

/// How many connections failed, and what was written, where an office serves one connection that
/// gives a text.
pub(crate) fn exchange<K: Keeper>(
    alloc: Global,
    office: &mut K,
    text: &str,
    read_fails: Option<usize>,
    room: usize,
) -> Result<(u32, String), Fail> {
    let mut conns = Vec::new(alloc);
    conns.push(connection(alloc, text, read_fails, room)?)?;
    let mut door = MemoryDoor::new(conns);
    let served = serve(alloc, office, &mut door, 1);
    let written = first_written(alloc, &door)?;
    Ok((served.failed, written))
}
