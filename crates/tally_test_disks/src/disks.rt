//! The two files of a database, in memory. Each lets this many calls through and then stops, or
//! refuses one.

use crate::deeds::Left;
use crate::faltering::Faltering;
use sqlite::{Connection, FileStore, Files, Options};
use sqlite_disk::{Crash, Disk, Memory};
use std::alloc::Global;
use std::test::Fail;

pub(crate) type Stopping = Faltering<Memory>;

/// A log and a database file.
pub type Disks = Files<Stopping>;

pub(crate) type Stored = FileStore<Stopping>;

pub(crate) type Conn = Connection<Stored>;

/// The contents of a log and a database file.
#[derive(Drop)]
pub struct Contents {
    pub log: Vec<u8>,
    pub db: Vec<u8>,
}

/// How many calls the log lets through, how many the database file, and how many each refuses after
/// them.
#[derive(Clone, Copy)]
pub struct Stop {
    pub log: u64,
    pub db: u64,
    pub refusals: u64,
}

/// No call is refused.
pub(crate) const NO_STOP: Stop = Stop {
    log: u64::MAX,
    db: u64::MAX,
    refusals: 0,
};

/// This many calls are refused after this many of the log, or else of the database file.
pub fn stop_after(calls: u64, of_log: bool, refusals: u64) -> Stop {
    let (log, db) = if of_log {
        (calls, u64::MAX)
    } else {
        (u64::MAX, calls)
    };
    Stop { log, db, refusals }
}

/// How many pages the log has before it is copied into the database file: those of some three
/// commits, so that a script meets copies of it.
const LOG_FRAMES: usize = 16;

/// The bytes of a sector.
const SECTOR: usize = 512;

fn copied(alloc: Global, bytes: &[u8]) -> Result<Vec<u8>, Fail> {
    let mut copy = Vec::new(alloc);
    copy.extend_from_slice(bytes)?;
    Ok(copy)
}

/// Those of no database.
pub fn no_contents(alloc: Global) -> Contents {
    Contents {
        log: Vec::new(alloc),
        db: Vec::new(alloc),
    }
}

/// A file of these bytes, synced, that lets this many calls through and refuses this many.
fn file(alloc: Global, bytes: &[u8], calls: u64, refusals: u64) -> Result<Stopping, Fail> {
    let mut memory = Memory::new(alloc);
    memory.write_at(0, bytes)?;
    memory.sync()?;
    Ok(Faltering::new(memory, calls, refusals))
}

/// Files of these contents that stop there.
pub fn files_with(alloc: Global, contents: &Contents, stop: Stop) -> Result<Disks, Fail> {
    let Stop { log, db, refusals } = stop;
    Ok(Files {
        log: file(alloc, contents.log.as_slice(), log, refusals)?,
        db: file(alloc, contents.db.as_slice(), db, refusals)?,
    })
}

/// Whether one of the files has refused a call.
pub fn have_stopped(files: &Disks) -> bool {
    files.log.has_refused() || files.db.has_refused()
}

/// A connection to files, which come back where there is none.
pub(crate) fn connected(alloc: Global, files: Disks) -> Result<Conn, Disks> {
    if !files.may_be_used() {
        return Err(files);
    }
    let options = Options {
        checkpoint_frames: LOG_FRAMES,
        ..Options::new(7)
    };
    match Connection::open_files(alloc, files, options) {
        Ok(conn) => Ok(conn),
        Err((_error, left)) => Err(left.into_files()),
    }
}

/// The files of a connection that copies its log into the database file, as far as it gets.
fn closed(conn: Conn) -> Disks {
    match conn.close_files() {
        Ok(files) => files,
        Err((_error, store)) => store.close(),
    }
}

/// The files of what is left of a connection.
pub(crate) fn files_of(left: Left<Stored>) -> Disks {
    match left {
        Left::Conn(conn) => closed(conn),
        Left::Store(store) => store.close(),
    }
}

/// Copies of these bytes.
fn copies(alloc: Global, log: &[u8], db: &[u8]) -> Result<Contents, Fail> {
    Ok(Contents {
        log: copied(alloc, log)?,
        db: copied(alloc, db)?,
    })
}

/// The bytes that were written to files, synced or not.
pub fn written(alloc: Global, files: &Disks) -> Result<Contents, Fail> {
    copies(alloc, files.log.inner().bytes(), files.db.inner().bytes())
}

/// The part of it that was synced.
pub fn synced(alloc: Global, mut files: Disks) -> Result<Contents, Fail> {
    files.log.crash();
    files.db.crash();
    written(alloc, &files)
}

/// The contents that a crash may leave, beside all that was written.
#[derive(Clone, Copy)]
pub enum Mixture {
    /// All that was synced.
    Synced,
    /// All that was written to the log, and all that was synced of the database file.
    WrittenLog,
    /// All that was synced of the log, and all that was written to the database file.
    WrittenDatabase,
    /// Sectors of both in turn.
    Sectors,
}

/// Each of them once.
pub const MIXTURES: [Mixture; 4] = [
    Mixture::Synced,
    Mixture::WrittenLog,
    Mixture::WrittenDatabase,
    Mixture::Sectors,
];

/// A sector of what was written, one of what was synced, and so on in turn.
fn sectors(alloc: Global, written: &[u8], synced: &[u8]) -> Result<Vec<u8>, Fail> {
    let mut mixed = copied(alloc, written)?;
    for at in 0..mixed.len() {
        if at / SECTOR % 2 == 1 {
            mixed[at] = synced.get(at).copied().unwrap_or(0);
        }
    }
    Ok(mixed)
}

/// Such a mixture of what was written and what was synced of it.
pub fn mixed(
    alloc: Global,
    written: &Contents,
    synced: &Contents,
    mixture: Mixture,
) -> Result<Contents, Fail> {
    let (written_log, synced_log) = (written.log.as_slice(), synced.log.as_slice());
    let (written_db, synced_db) = (written.db.as_slice(), synced.db.as_slice());
    match mixture {
        Mixture::Synced => copies(alloc, synced_log, synced_db),
        Mixture::WrittenLog => copies(alloc, written_log, synced_db),
        Mixture::WrittenDatabase => copies(alloc, synced_log, written_db),
        Mixture::Sectors => Ok(Contents {
            log: sectors(alloc, written_log, synced_log)?,
            db: sectors(alloc, written_db, synced_db)?,
        }),
    }
}

/// Whether files have the same bytes.
pub fn are_same(one: &Contents, other: &Contents) -> bool {
    one.log.as_slice() == other.log.as_slice() && one.db.as_slice() == other.db.as_slice()
}
