//! Offices in databases, each of them a file. Errors are matched and returned, and not passed on by
//! `?`, since the `?` of an enum that holds a text (`Trouble`) has no proof yet.

ghost use Rattle.std.specs.Prelude.{◌≡◌, ◌==◌, false, not, length, IfErr, IfOk, Ok};
ghost use Rattle.sqlite.specs.Held.{state};
ghost use Rattle.tally_rules.specs.Reading.{setup_of_text};
ghost use Rattle.tally_office_commands.specs.Made.{IsMakingTrouble};
ghost use Rattle.tally_office_trouble.specs.Trouble.{IsTroubleOfDatabase, create_trouble};

use sqlite::{Alter, Connection, Error, ErrorCode, FileFrom, FileStore, Wary};
use std::alloc::Global;
use std::fs::{self, File};
use std::io::{self, ErrorKind};
use std::net::{Ipv4Addr, TcpListener};
use tally_office_commands::Offices;
use tally_office_trouble::{MachineFiles, NamedFiles, Trouble, is_memory};
use tally_store::{CreateFault, Store};

/// The bytes of a page of an office's database. A database of one page has no tables.
const PAGE: u64 = 4_096;

/// A connection to a database in a file. After a crash its writes may be torn in any way.
type FileConnection = Connection<FileStore<FileFrom<Wary>>>;

/// The office's state in such a database.
type Office = Store<FileStore<FileFrom<Wary>>>;

/// The offices and the files of this machine: the path of an office is that of a database, a port
/// is one on 127.0.0.1.
pub struct Databases;

impl NamedFiles for Databases {
    type File = File;

    ghost Gives = { λ _ _ _. Unit {0} };

    fn open_file(&self, rt: &HostRuntime, path: &str) -> Result<File, Trouble> {
        MachineFiles.open_file(rt, path)
    }
}

impl Offices for Databases {
    type Office = Office;

    ghost Opens = { λ _ _ _. Unit {0} };

    ghost Finds = { λ _ _ _. Unit {0} };

    ghost Makes = { λ _ _ _ _. Unit {0} };

    ghost Closes = { λ _ _ _ _. Unit {0} };

    fn open_office(&self, rt: &HostRuntime, path: &str) -> Result<Office, Trouble> {
        if !names_file(path) {
            return Err(Trouble::Store);
        }
        match has_nothing(rt, path) {
            Ok(false) => {}
            Ok(true) => return Err(Trouble::NoTables),
            Err(error) => return Err(trouble_of(&error)),
        }
        let log = match log_path(rt, path) {
            Ok(log) => log,
            Err(error) => return Err(trouble_of(&error)),
        };
        let conn = match connect(rt, path, log.as_str(), false) {
            Ok(conn) => conn,
            Err(trouble) => return Err(trouble),
        };
        match Store::open(rt.alloc(), conn) {
            Ok(office) => Ok(office),
            Err((conn, fault)) => {
                let _closed = close(rt, path, conn, false);
                Err(Trouble::from_open(&fault))
            }
        }
    }

    /// Makes an office in a new file, or in one that has no tables yet. A file that it made and
    /// that has no tables is removed if that fails.
    fn make_office(&self, rt: &HostRuntime, path: &str, text: &[u8]) -> Result<Office, Trouble> {
        if !names_file(path) {
            return Err(Trouble::Store);
        }
        let log = match log_path(rt, path) {
            Ok(log) => log,
            Err(error) => return Err(trouble_of(&error)),
        };
        let was_made = File::create_new(rt, path).is_ok();
        let conn = match connect(rt, path, log.as_str(), was_made) {
            Ok(conn) => conn,
            Err(trouble) => return Err(trouble),
        };
        let (conn, fault, has_tables) = match create(rt.alloc(), conn, text) {
            Ok(office) => return Ok(office),
            Err(refused) => refused,
        };
        let is_unused = was_made && !has_tables;
        if is_unused {
            // As long as the connection is open, no other program has the files.
            let _ = remove_files(rt, path, log.as_str());
        }
        let _closed = close(rt, path, conn, is_unused);
        Err(Trouble::from_create(&fault))
    }

    fn listen(&self, rt: &HostRuntime, port: u16) -> Result<TcpListener, Trouble> {
        match TcpListener::bind(rt, (Ipv4Addr::LOCALHOST, port)) {
            Ok(listener) => Ok(listener),
            Err(_) => Err(Trouble::Port),
        }
    }

    fn close_office(&self, rt: &HostRuntime, path: &str, office: Office) -> bool {
        close(rt, path, office.close(), false)
    }
}

/// The trouble of a call about a database's files that failed.
fn trouble_of(error: &io::Error) -> Trouble
    ensures { IsTroubleOfDatabase result }
{
    if is_memory(error) {
        Trouble::Memory
    } else {
        Trouble::Store
    }
}

/// Whether a path names a file to SQLite, as these two kinds do not.
fn names_file(path: &str) -> bool {
    path != ":memory:" && !path.starts_with("file:")
}

/// Where the log of a database lies: beside the file to which a link leads.
fn log_path(rt: &HostRuntime, path: &str) -> io::Result<String> {
    let mut log = match fs::canonicalize(rt, path) {
        Ok(real) => real.as_str().to_string(rt.alloc())?,
        Err(error) if error.kind() == ErrorKind::NotFound => path.to_string(rt.alloc())?,
        Err(error) => return Err(error),
    };
    log.push_str("-wal")?;
    Ok(log)
}

fn remove_log(rt: &HostRuntime, path: &str) -> io::Result<()> {
    let log = log_path(rt, path)?;
    fs::remove_file(rt, log.as_str())
}

fn remove_files(rt: &HostRuntime, path: &str, log: &str) -> io::Result<()> {
    fs::remove_file(rt, path)?;
    fs::remove_file(rt, log)
}

/// Whether there is no database at a path, in a folder that is there: no file, or an empty one
/// without a log. Opening such a file would make a database of it.
fn has_nothing(rt: &HostRuntime, path: &str) -> io::Result<bool> {
    if !fs::exists(rt, path)? {
        fs::metadata(rt, folder_of(path))?;
        return Ok(true);
    }
    let found = fs::metadata(rt, path)?;
    if !found.is_file() || found.len() > 0 {
        return Ok(false);
    }
    let log = log_path(rt, path)?;
    Ok(!fs::exists(rt, log.as_str())?)
}

/// The folder in which a path is that of a file.
fn folder_of(path: &str) -> &str {
    match path.rsplit_once('/') {
        Some((folder, _)) if !folder.is_empty() => folder,
        Some(_) => "/",
        None => ".",
    }
}

/// Opens the database at a path. Where it cannot be opened, an empty log is removed, and so is a
/// file that was made for it and has no tables yet; but a file that another program has locked
/// stays.
fn connect(
    rt: &HostRuntime,
    path: &str,
    log: &str,
    was_made: bool,
) -> Result<FileConnection, Trouble>
    ensures autocommit { IfOk result (λ conn. conn.in_transaction ≡ false) }
    ensures named { IfErr result IsTroubleOfDatabase }
{
    match Connection::open_from(rt, path, false, Wary) {
        Ok(conn) => Ok(conn),
        Err((error, locked)) => {
            if locked.is_some() {
                let _ = remove_unused(rt, path, log, was_made);
            } else if was_made && !is_busy(&error) {
                let _ = remove_empty(rt, path, log);
            }
            match error {
                Error::SqliteFailure(ErrorCode::OutOfMemory) => Err(Trouble::Memory),
                _ => Err(Trouble::Store),
            }
        }
    }
}

fn is_busy(error: &Error) -> bool {
    matches!(error, Error::SqliteFailure(ErrorCode::DatabaseBusy))
}

fn remove_unused(rt: &HostRuntime, path: &str, log: &str, was_made: bool) -> io::Result<()> {
    if was_made && fs::metadata(rt, path)?.len() <= PAGE {
        return remove_files(rt, path, log);
    }
    if fs::metadata(rt, log)?.len() > 0 {
        return Ok(());
    }
    fs::remove_file(rt, log)
}

/// Removes a database that was made and never written to, and its log if that is an empty file too.
fn remove_empty(rt: &HostRuntime, path: &str, log: &str) -> io::Result<()> {
    if fs::metadata(rt, path)?.len() > 0 {
        return Ok(());
    }
    fs::remove_file(rt, path)?;
    let found = fs::symlink_metadata(rt, log)?;
    if !found.is_file() || found.len() > 0 {
        return Ok(());
    }
    fs::remove_file(rt, log)
}

/// Makes an office, or gives the connection back and whether the database has tables. It is over
/// any store, since a call over that of files takes long to prove.
fn create<S: Alter + Drop>(
    alloc: Global,
    conn: Connection<S>,
    text: &[u8],
) -> Result<Store<S>, (Connection<S>, CreateFault, bool)>
    requires { conn.in_transaction ≡ false }
    ensures setup { IfOk result (λ office. setup_of_text text.now ≡ Ok office.setup) }
    ensures trouble { IfErr result (λ e. IsMakingTrouble text.now (create_trouble e.1)) }
    ensures tables { IfErr result (λ e.
        e.2 ≡ not (length (state S.Store e.0).now.schema.tables == 0)) }
{
    match Store::create(alloc, conn, text) {
        Ok(office) => Ok(office),
        Err((conn, fault)) => {
            let has_tables = !conn.schema().tables.as_slice().is_empty();
            Err((conn, fault, has_tables))
        }
    }
}

/// Closes a database, so that all of it is in its one file, and answers whether that was done. It
/// is not where a disk that failed has shut the database. The log of an unused one is left: once
/// its files are removed, a log at its path is another's.
fn close(rt: &HostRuntime, path: &str, conn: FileConnection, is_unused: bool) -> bool {
    match conn.close_files() {
        // The files are held, and with them the lock, until the log is gone: it might be another's.
        Ok(_files) => {
            if !is_unused {
                let _ = remove_log(rt, path);
            }
            true
        }
        Err(_) => false,
    }
}
