//! What a database shows.

use crate::deeds::open;
use crate::lines::wrong;
use sqlite::{Alter, Connection};
use sqlite_value::value::Value;
use std::alloc::Global;
use std::test::Fail;
use tally_core::{Book, Keeper};
use tally_test_scripts::{setup, text_of_answers, text_of_stations};

/// A station or a constituency that the setup lacks is refused.
const SHOWN: &str = "return s1
return s2
return s3
return r1
return r2
show c1
show h
progress";

/// The text for no tables.
pub const NO_TABLES: &str = "version none, tables\nthe database lacks a table";

/// The start of what is shown of the tables of version 1.
pub const FORMER_TABLES: &str =
    "version 1, tables cons counts gone lots returns seats setup totals\n";

/// The start of what is shown of today's tables.
pub const TABLES: &str =
    "version 2, tables cons counts gone lots past returns seats setup totals\n";

/// A keeper's content: these returns, the constituencies, and the progress, a line each; and the
/// stations of the constituencies.
pub(crate) fn shown<K: Keeper>(alloc: Global, keeper: &mut K) -> Result<String, Fail> {
    let mut text = text_of_answers(alloc, keeper, SHOWN)?;
    text.push_str(text_of_stations(alloc, keeper, "c1")?.as_str())?;
    text.push_str(text_of_stations(alloc, keeper, "h")?.as_str())?;
    Ok(text)
}

/// Adds a value.
fn push_value(text: &mut String, value: &Value) -> Result<(), Fail> {
    match value {
        Value::Int(number) => write!(text, " {number}")?,
        Value::Text(bytes) => {
            text.push_str(" ")?;
            let bytes = std::str::from_utf8(bytes.as_slice());
            text.push_str(bytes.ok().ok_or("UTF-8")?)?;
        }
        _ => text.push_str(" ?")?,
    }
    Ok(())
}

/// Adds the first value of each row that a SELECT shows, or `none`.
fn push_values<S: Alter + Drop>(
    text: &mut String,
    conn: &mut Connection<S>,
    select: &str,
) -> Result<(), Fail> {
    let Ok(rows) = conn.query_all(select, &[]) else {
        return Ok(text.push_str(" none")?);
    };
    for row in &rows {
        push_value(text, &row.get::<Value>(0)?)?;
    }
    Ok(())
}

/// Adds the version and the tables.
fn push_outline<S: Alter + Drop>(text: &mut String, conn: &mut Connection<S>) -> Result<(), Fail> {
    text.push_str("version")?;
    push_values(text, conn, "SELECT version FROM setup")?;
    text.push_str(", tables")?;
    let tables = "SELECT name FROM sqlite_schema WHERE type = 'table' ORDER BY name";
    push_values(text, conn, tables)?;
    text.push_str("\n")?;
    Ok(())
}

/// Adds what the office of a database shows, or why there is none.
fn push_opened<S: Alter + Drop>(
    alloc: Global,
    text: &mut String,
    conn: Connection<S>,
) -> Result<Connection<S>, Fail> {
    match open(alloc, conn) {
        Ok(mut office) => {
            text.push_str(shown(alloc, &mut office)?.as_str())?;
            Ok(office.close())
        }
        Err((conn, fault)) => {
            write!(text, "{fault}")?;
            Ok(conn)
        }
    }
}

/// Adds what a database shows: the version, the tables, and the office's answers.
pub(crate) fn push_looked<S: Alter + Drop>(
    alloc: Global,
    text: &mut String,
    mut conn: Connection<S>,
) -> Result<Connection<S>, Fail> {
    push_outline(text, &mut conn)?;
    push_opened(alloc, text, conn)
}

/// Adds what a keeper shows that has answered these lines.
fn push_answered<K: Keeper>(
    alloc: Global,
    text: &mut String,
    keeper: &mut K,
    lines: &str,
) -> Result<(), Fail> {
    for line in lines.lines() {
        let wrong = wrong(alloc, keeper, line)?;
        if !wrong.is_empty() {
            return Err(Fail::from(wrong));
        }
    }
    text.push_str(shown(alloc, keeper)?.as_str())?;
    Ok(())
}

/// The text that a database should show for these tables, where the office has answered these
/// lines: as an office in memory shows it.
pub fn wanted(alloc: Global, tables: &str, setup_text: &str, lines: &str) -> Result<String, Fail> {
    let mut book = Book::new(alloc, setup(alloc, setup_text)?)?;
    let mut text = String::from_str(alloc, tables)?;
    push_answered(alloc, &mut text, &mut book, lines)?;
    Ok(text)
}
