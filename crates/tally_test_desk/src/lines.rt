//! Messages and answers as lines of text. A `|` in a body ends a line of it.

use crate::offices::{Office, ROOM, exchange};
use std::alloc::{AllocError, Global};
use std::test::Fail;
use tally_core::Keeper;

/// The texts before a mark and after it; where there is no mark, the whole text and an empty one.
pub(crate) fn cut<'a>(text: &'a str, mark: &str) -> (&'a str, &'a str) {
    text.split_once(mark).unwrap_or((text, ""))
}

/// The message of a line such as `POST /con/c1/certify {"edition":1}`.
pub(crate) fn message(alloc: Global, line: &str) -> Result<String, AllocError> {
    let (method, rest) = cut(line, " ");
    let (target, body) = cut(rest, " ");
    let body = body.replace(alloc, "|", "\n")?;
    let length = body.len();
    let mut text = format!(in alloc;
        "{method} {target} HTTP/1.1\r\nContent-Length: {length}\r\n\r\n"
    )?;
    text.push_str(body.as_str())?;
    Ok(text)
}

/// The type of a body: JSON, the CSV of returns, or a report.
fn type_of(body: &str) -> &'static str {
    if body.starts_with("{") || body.starts_with("[") {
        return "application/json";
    }
    if body.starts_with("station,") {
        return "text/csv; charset=utf-8";
    }
    "text/plain; charset=utf-8"
}

/// The answer of a line such as `200 OK|{"ok":"lodged","rev":1}`, by what its body begins with.
pub(crate) fn answer(alloc: Global, line: &str) -> Result<String, AllocError> {
    let (status, body) = cut(line, "|");
    let kind = type_of(body);
    let body = body.replace(alloc, "|", "\n")?;
    let length = body.len();
    let mut text = format!(in alloc;
        "HTTP/1.1 {status}\r\nContent-Type: {kind}\r\nContent-Length: {length}\r\n"
    )?;
    text.push_str("Connection: close\r\n\r\n")?;
    text.push_str(body.as_str())?;
    Ok(text)
}

/// The answer to the message of a line.
fn answered<K: Keeper>(alloc: Global, office: &mut K, line: &str) -> Result<String, Fail> {
    let message = message(alloc, line)?;
    let (_, got) = exchange(alloc, office, message.as_str(), None, ROOM)?;
    Ok(got)
}

/// Fails where a text is not the answer of a line.
fn check_answer(alloc: Global, got: String, line: &str) -> Result<(), Fail> {
    let want = answer(alloc, line)?;
    if got.as_str() == want.as_str() {
        return Ok(());
    }
    Err(Fail::from(got))
}

fn check<K: Keeper>(alloc: Global, office: &mut K, line: &str) -> Result<(), Fail> {
    let (said, want) = cut(line, " = ");
    check_answer(alloc, answered(alloc, office, said)?, want)
}

/// Fails at the first of these lines, a message and its answer, whose answer is another, with that
/// answer.
pub(crate) fn check_each<K: Keeper>(
    alloc: Global,
    office: &mut K,
    lines: &str,
) -> Result<(), Fail> {
    for line in lines.lines() {
        check(alloc, office, line)?;
    }
    Ok(())
}

/// A new office of a setup after these lines, whose answers are given.
pub(crate) fn office_after<K: Office>(alloc: Global, setup: &str, lines: &str) -> Result<K, Fail> {
    let mut office = K::made(alloc, setup)?;
    check_each(alloc, &mut office, lines)?;
    Ok(office)
}
