//! What is done to a database until its store refuses, over any store.

use crate::lines::{answered, push_each, shown_again};
use crate::looks::push_looked;
use sqlite::{Alter, Connection};
use std::alloc::Global;
use std::io::ErrorKind;
use std::test::Fail;
use tally_core::{ImportCount, ImportFault, Keeper};
use tally_import::Sep;
use tally_store::{CreateFault, OpenFault, Store};
use tally_test_scripts::{Pieces, import_from};

/// Rows of a text, how many bytes a read gives, how a read fails at its end, and what their import
/// comes to.
#[derive(Clone, Copy)]
pub struct Rows<'a> {
    pub text: &'a str,
    pub sep: Sep,
    pub piece: usize,
    pub failure: Option<ErrorKind>,
    pub want: Result<ImportCount, ImportFault>,
}

/// The deed. The first four have steps, each of which is carried out or not.
#[derive(Clone, Copy)]
pub enum Deed<'a> {
    /// An office of this setup is made. Another fault than that of the store is shown.
    Create(&'a str),
    /// It is opened.
    Open,
    /// It answers these lines, a step each.
    Answer(&'a str),
    /// It lodges these rows.
    Import(Rows<'a>),
    /// It answers these lines up to one that its store refuses, and shows then what it shows. What
    /// was written is left as it is.
    Refuse(&'a str),
    /// It answers these lines, where one that its store refuses is given again, and shows after
    /// each what it shows.
    Repeat(&'a str),
    /// These statements run, and the log is not copied into the database file.
    Leave(&'a str),
    /// All that an office shows is shown.
    Look,
}

/// The rest of a connection: itself, or the store of one that was dropped as it is.
#[derive(Drop)]
pub(crate) enum Left<S: Alter> {
    Conn(Connection<S>),
    Store(S),
}

/// The rest after the steps that were acknowledged, how many these were, and what was shown.
#[derive(Drop)]
pub(crate) struct Work<S: Alter> {
    pub(crate) left: Left<S>,
    pub(crate) steps: usize,
    pub(crate) shown: String,
}

/// A connection as a stop leaves it.
fn stopped<S: Alter + Drop>(alloc: Global, conn: Connection<S>, steps: usize) -> Work<S> {
    Work {
        left: Left::Store(conn.into_store()),
        steps,
        shown: String::new(alloc),
    }
}

/// One whose log is copied into the database file.
fn ended<S: Alter + Drop>(alloc: Global, conn: Connection<S>, steps: usize) -> Work<S> {
    Work {
        left: Left::Conn(conn),
        steps,
        shown: String::new(alloc),
    }
}

/// The answer to making an office in a database, and its connection where none is made.
fn made<S: Alter + Drop>(
    alloc: Global,
    conn: Connection<S>,
    text: &str,
) -> Result<Store<S>, (Connection<S>, CreateFault)> {
    if !conn.is_autocommit() {
        return Err((conn, CreateFault::Store));
    }
    Store::create(alloc, conn, text.as_bytes())
}

/// The answer to opening an office, and its connection where none is opened.
pub(crate) fn open<S: Alter + Drop>(
    alloc: Global,
    conn: Connection<S>,
) -> Result<Store<S>, (Connection<S>, OpenFault)> {
    if !conn.is_autocommit() {
        return Err((conn, OpenFault::Store));
    }
    Store::open(alloc, conn)
}

fn create<S: Alter + Drop>(
    alloc: Global,
    conn: Connection<S>,
    text: &str,
) -> Result<Work<S>, Fail> {
    match made(alloc, conn, text) {
        Ok(office) => Ok(ended(alloc, office.close(), 1)),
        Err((conn, CreateFault::Store)) => Ok(stopped(alloc, conn, 0)),
        Err((conn, fault)) => {
            let mut work = ended(alloc, conn, 1);
            write!(work.shown, "{fault}")?;
            Ok(work)
        }
    }
}

fn answer<S: Alter + Drop>(
    alloc: Global,
    mut office: Store<S>,
    lines: &str,
) -> Result<Work<S>, Fail> {
    let (steps, is_all) = answered(alloc, &mut office, lines)?;
    if is_all {
        return Ok(ended(alloc, office.close(), steps));
    }
    Ok(stopped(alloc, office.close(), steps))
}

/// Whether an import of rows comes to what it should. `false` where the store refuses.
fn imported<K: Keeper>(alloc: Global, office: &mut K, rows: Rows<'_>) -> Result<bool, Fail> {
    let text = Pieces {
        text: rows.text.as_bytes(),
        piece: rows.piece,
        failure: rows.failure,
    };
    let came = import_from(alloc, office, text, rows.sep)?;
    if came == rows.want {
        return Ok(true);
    }
    match came {
        Err(ImportFault::Store) => Ok(false),
        _ => Err(Fail::from("another count or fault")),
    }
}

fn import<S: Alter + Drop>(
    alloc: Global,
    mut office: Store<S>,
    rows: Rows<'_>,
) -> Result<Work<S>, Fail> {
    if imported(alloc, &mut office, rows)? {
        return Ok(ended(alloc, office.close(), 1));
    }
    Ok(stopped(alloc, office.close(), 0))
}

fn refuse<S: Alter + Drop>(
    alloc: Global,
    mut office: Store<S>,
    lines: &str,
) -> Result<Work<S>, Fail> {
    let (steps, _is_all) = answered(alloc, &mut office, lines)?;
    let shown = shown_again(alloc, &mut office)?;
    Ok(Work {
        left: Left::Store(office.close().into_store()),
        steps,
        shown,
    })
}

fn repeat<S: Alter + Drop>(
    alloc: Global,
    mut office: Store<S>,
    lines: &str,
) -> Result<Work<S>, Fail> {
    let mut shown = String::new(alloc);
    let steps = push_each(alloc, &mut shown, &mut office, lines)?;
    Ok(Work {
        left: Left::Conn(office.close()),
        steps,
        shown,
    })
}

/// Carries out what is done to an office.
fn in_office<S: Alter + Drop>(
    alloc: Global,
    office: Store<S>,
    deed: Deed<'_>,
) -> Result<Work<S>, Fail> {
    match deed {
        Deed::Answer(lines) => answer(alloc, office, lines),
        Deed::Import(rows) => import(alloc, office, rows),
        Deed::Refuse(lines) => refuse(alloc, office, lines),
        Deed::Repeat(lines) => repeat(alloc, office, lines),
        _ => Ok(ended(alloc, office.close(), 1)),
    }
}

fn opened<S: Alter + Drop>(
    alloc: Global,
    conn: Connection<S>,
    deed: Deed<'_>,
) -> Result<Work<S>, Fail> {
    match open(alloc, conn) {
        Ok(office) => in_office(alloc, office, deed),
        Err((conn, OpenFault::Store)) => Ok(stopped(alloc, conn, 0)),
        Err(_) => Err(Fail::from("another fault")),
    }
}

fn leave<S: Alter + Drop>(
    alloc: Global,
    mut conn: Connection<S>,
    statements: &str,
) -> Result<Work<S>, Fail> {
    conn.execute_batch(statements)?;
    Ok(stopped(alloc, conn, 1))
}

fn look<S: Alter + Drop>(alloc: Global, conn: Connection<S>) -> Result<Work<S>, Fail> {
    let mut shown = String::new(alloc);
    let conn = push_looked(alloc, &mut shown, conn)?;
    Ok(Work {
        left: Left::Conn(conn),
        steps: 1,
        shown,
    })
}

/// Carries a deed out, as far as it goes.
pub(crate) fn carry_out<S: Alter + Drop>(
    alloc: Global,
    conn: Connection<S>,
    deed: Deed<'_>,
) -> Result<Work<S>, Fail> {
    match deed {
        Deed::Create(text) => create(alloc, conn, text),
        Deed::Leave(statements) => leave(alloc, conn, statements),
        Deed::Look => look(alloc, conn),
        _ => opened(alloc, conn, deed),
    }
}
