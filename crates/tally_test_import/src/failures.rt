//! Reads that fail: what was complete before comes first, and no read is made again.

use crate::setups::fresh;
use std::alloc::{AllocError, Global};
use std::io::ErrorKind;
use std::test::*;
use tally_core::{Book, Keeper, RowSource};
use tally_import::{ReturnRows, Sep};
use tally_import_check::check_csv;
use tally_setup::Constituency;
use tally_test_scripts::{
    Failing, TWIN_TOWN, TWO_ROWS_AND_A_PIECE, check_answers, failing_reads, text_of_import_from,
};

// The rows that `TWO_ROWS_AND_A_PIECE` gives before a read fails.
const CUT_ROWS: &str = "\
Ok(Some(Lodge(Lodge { station: \"s1\", slip: \"p1\", counts: Counts { votes: [10, 20], blank: 0, spoiled: 0 } })))
Ok(Some(Bad(NoStation)))
Err(Read)
Err(Read)
";

/// Gives a text, fails this many times, and goes on.
fn failing<'a>(front: &'a str, failures: u32, kind: ErrorKind, back: &'a str) -> Failing<'a> {
    Failing {
        front: front.as_bytes(),
        failures,
        kind,
        back: back.as_bytes(),
    }
}

fn constituency(alloc: Global, book: &Book) -> Result<Constituency, Fail> {
    let con = book.setup().cons().first().ok_or("no constituency")?;
    Ok(con.try_copy(alloc)?)
}

/// The outcome of checking a reader's text, as text. It has to write nothing.
fn checked(alloc: Global, mut reader: Failing<'_>) -> Result<String, Fail> {
    let mut output = Vec::new(alloc);
    let outcome = check_csv(alloc, &mut reader, &mut output, Sep::Comma, true);
    if !output.is_empty() {
        return Err(Fail::from("a check with a fault has written"));
    }
    Ok(format!(in alloc; "{outcome:?}")?)
}

/// Fails where a text is another than is wanted.
fn check_text(got: String, wanted: &str) -> Result<(), Fail> {
    if got.as_str() == wanted {
        return Ok(());
    }
    Err(Fail::from(got))
}

/// Fails where the import of what a reader gives is answered otherwise, or where a return is
/// recorded then. 8 is NoReturn.
fn check_import(alloc: Global, reader: Failing<'_>, wanted: &str) -> Result<(), Fail> {
    let mut book = fresh(alloc, TWIN_TOWN)?;
    check_text(text_of_import_from(alloc, &mut book, reader)?, wanted)?;
    check_answers(alloc, &mut book, "return s1 = refused 8")
}

/// As above, or where the check of it is answered otherwise.
fn check_failing(
    alloc: Global,
    front: &str,
    failures: u32,
    kind: ErrorKind,
    back: &str,
    wanted: &str,
) -> Result<(), Fail> {
    check_import(alloc, failing(front, failures, kind, back), wanted)?;
    check_text(
        checked(alloc, failing(front, failures, kind, back))?,
        wanted,
    )
}

#[test]
fn reads_that_fail_once_or_for_ever(rt: HostRuntime) -> Result<(), Fail> {
    let alloc = rt.alloc();
    for (front, back, wanted) in &failing_reads(alloc)? {
        let front = front.as_str();
        check_failing(alloc, front, 1, ErrorKind::Interrupted, back, wanted)?;
        check_failing(alloc, front, 1, ErrorKind::BrokenPipe, back, wanted)?;
        check_failing(alloc, front, u32::MAX, ErrorKind::Interrupted, back, wanted)?;
    }
    Ok(())
}

fn push_row(text: &mut String, rows: &mut ReturnRows<Failing<'_>>) -> Result<(), AllocError> {
    let row = rows.next_row();
    writeln!(text, "{row:?}")
}

/// The first four rows that are given of what a reader gives.
fn first_rows(alloc: Global, mut rows: ReturnRows<Failing<'_>>) -> Result<String, AllocError> {
    let mut text = String::new(alloc);
    for _row in 0..4 {
        push_row(&mut text, &mut rows)?;
    }
    Ok(text)
}

#[test]
fn complete_rows_come_before_a_failed_read(rt: HostRuntime) -> Result<(), Fail> {
    let alloc = rt.alloc();
    let con = constituency(alloc, &fresh(alloc, TWIN_TOWN)?)?;
    let back = ",0,0,1,1\n";
    let reader = failing(TWO_ROWS_AND_A_PIECE, 1, ErrorKind::Interrupted, back);
    let rows = ReturnRows::new(alloc, reader, Sep::Comma, con);
    check_text(first_rows(alloc, rows)?, CUT_ROWS)
}
