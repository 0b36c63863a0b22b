//! Answers of lines of text.

use crate::imports::{IMPORTS, import_answer};
use crate::lines::cut;
use crate::outcomes::{OUTCOMES, outcome_answer};
use crate::words::{WORDS, word_answer};
use std::alloc::{AllocError, Global};
use std::test::*;

/// The whole of an answer in JSON, of a line such as `200 OK|23|{"ok":"lodged","rev":1}`: its
/// status with the phrase, the length of its body, and the body.
fn json_answer(alloc: Global, line: &str) -> Result<String, AllocError> {
    let (status, rest) = cut(line, "|");
    let (length, body) = cut(rest, "|");
    let mut text = String::from_str(alloc, "HTTP/1.1 ")?;
    text.push_str(status)?;
    text.push_str("\r\nContent-Type: application/json\r\nContent-Length: ")?;
    text.push_str(length)?;
    text.push_str("\r\nConnection: close\r\n\r\n")?;
    text.push_str(body)?;
    Ok(text)
}

fn answered(alloc: Global, line: &str) -> Result<String, Fail> {
    let (kind, said) = cut(line, " ");
    match kind {
        "word" => word_answer(alloc, said),
        "import" => import_answer(alloc, said),
        _ => outcome_answer(alloc, line),
    }
}

/// Fails where a text is not the answer of a line.
fn check_answer(alloc: Global, got: String, line: &str) -> Result<(), Fail> {
    let want = json_answer(alloc, line)?;
    if got.as_str() == want.as_str() {
        return Ok(());
    }
    Err(Fail::from(got))
}

fn check(alloc: Global, line: &str) -> Result<(), Fail> {
    let (said, want) = cut(line, " = ");
    check_answer(alloc, answered(alloc, said)?, want)
}

/// Fails at the first of these lines whose answer is another, with that answer.
fn check_each(alloc: Global, lines: &str) -> Result<(), Fail> {
    for line in lines.lines() {
        check(alloc, line)?;
    }
    Ok(())
}

#[test]
fn each_has_its_answer(rt: HostRuntime) -> Result<(), Fail> {
    for lines in [OUTCOMES, IMPORTS, WORDS] {
        check_each(rt.alloc(), lines)?;
    }
    Ok(())
}
