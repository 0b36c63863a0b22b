//! Why an office is not made or opened: each fault once. Many more changes of the tables are tried
//! from outside (`tests/program/test_database.py`).

use crate::offices::{create, database, empty, open};
use sqlite::{Alter, Connection};
use std::alloc::Global;
use std::test::*;
use tally_test_scripts::{CERTIFIED, TWIN_TOWN};

// What is done to the database of an office, and what its opening answers then.
const CHANGED: &str = " -> opened
UPDATE cons SET edition = 4 -> opened
DROP TABLE past -> the database lacks a table
UPDATE seats SET n = 3 - n -> the tables are those of no state
UPDATE setup SET version = 3 -> the tables are those of no state
UPDATE setup SET text = 'x' -> the stored setup: not TOML
CREATE TABLE other (n INTEGER NOT NULL) STRICT -> the database failed";

/// The answer to opening a database after these statements.
fn opening<S: Alter + Drop>(
    alloc: Global,
    mut conn: Connection<S>,
    statements: &str,
) -> Result<String, Fail> {
    conn.execute_batch(statements)?;
    match open(alloc, conn) {
        Ok(_) => Ok(String::from_str(alloc, "opened")?),
        Err((_conn, fault)) => Ok(format!(in alloc; "{fault}")?),
    }
}

#[test]
fn a_changed_office_is_opened_or_not(rt: HostRuntime) -> Result<(), Fail> {
    let alloc = rt.alloc();
    for line in CHANGED.lines() {
        let (statements, want) = line.split_once("-> ").ok_or("an answer")?;
        let conn = database(alloc, TWIN_TOWN, CERTIFIED)?;
        let got = opening(alloc, conn, statements)?;
        assert!(rt; got.as_str() == want, "{line}");
    }
    Ok(())
}

// What is done to an empty database, and what making an office in it answers then: of the setup
// above, or, after `!`, of a text that is not a setup.
const MADE: &str = " -> made
CREATE TABLE lots (n INTEGER) STRICT -> the database has such tables
CREATE TABLE other (n INTEGER) STRICT -> the database failed
CREATE TABLE lots (n INTEGER) STRICT !-> the setup: not TOML";

/// The answer to making an office in a database after these statements.
fn making<S: Alter + Drop>(
    alloc: Global,
    mut conn: Connection<S>,
    statements: &str,
    text: &str,
) -> Result<String, Fail> {
    conn.execute_batch(statements)?;
    match create(alloc, conn, text) {
        Ok(_) => Ok(String::from_str(alloc, "made")?),
        Err((_conn, fault)) => Ok(format!(in alloc; "{fault}")?),
    }
}

#[test]
fn an_office_is_made_in_an_empty_database_alone(rt: HostRuntime) -> Result<(), Fail> {
    let alloc = rt.alloc();
    for line in MADE.lines() {
        let (statements, want) = line.split_once("-> ").ok_or("an answer")?;
        let (statements, text) = match statements.strip_suffix("!") {
            Some(statements) => (statements, "x"),
            None => (statements, TWIN_TOWN),
        };
        let got = making(alloc, empty(alloc)?, statements, text)?;
        assert!(rt; got.as_str() == want, "{line}");
    }
    Ok(())
}

#[test]
fn an_office_is_made_once_and_found_where_it_was_made(rt: HostRuntime) -> Result<(), Fail> {
    let alloc = rt.alloc();
    let again = making(alloc, database(alloc, TWIN_TOWN, "")?, "", TWIN_TOWN)?;
    assert!(rt; again.as_str() == "the database has such tables", "{again}");
    let nowhere = opening(alloc, empty(alloc)?, "")?;
    assert!(rt;
        nowhere.as_str() == "the database lacks a table",
        "{nowhere}"
    );
    Ok(())
}
