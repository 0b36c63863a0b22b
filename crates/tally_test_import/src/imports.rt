//! Texts of returns that are imported into a keeper in memory.

use crate::setups::fresh;
use std::alloc::Global;
use std::io::ErrorKind;
use std::test::*;
use tally_core::{Book, ImportCount, ImportFault};
use tally_import::Sep;
use tally_test_scripts::{
    ALL_LODGED, CUT_RETURNS, MORE_STATIONS, NONE_LODGED, Pieces, QUOTED_RETURNS, RETURNS,
    TWIN_TOWN, check_answers, import_count, import_from, with_bad_rows,
};

/// A text, what separates its fields, how many bytes a read gives, how a read fails at its end,
/// what its import comes to, and lines with their answers.
#[derive(Clone, Copy)]
struct Case<'a> {
    text: &'a str,
    sep: Sep,
    piece: usize,
    failure: Option<ErrorKind>,
    want: Result<ImportCount, ImportFault>,
    lines: &'a str,
}

/// Fails where the import of a text comes to something else.
fn check_import(alloc: Global, book: &mut Book, case: &Case<'_>) -> Result<(), Fail> {
    let text = Pieces {
        text: case.text.as_bytes(),
        piece: case.piece,
        failure: case.failure,
    };
    if import_from(alloc, book, text, case.sep)? == case.want {
        return Ok(());
    }
    Err(Fail::from(format!(in alloc; "not {:?}", case.want)?))
}

/// As above for an import into a new keeper of three stations, or where the lines have other
/// answers then.
fn check_case(alloc: Global, case: &Case<'_>) -> Result<(), Fail> {
    let setup = format!(in alloc; "{TWIN_TOWN}{MORE_STATIONS}")?;
    let mut book = fresh(alloc, setup.as_str())?;
    check_import(alloc, &mut book, case)?;
    check_answers(alloc, &mut book, case.lines)
}

/// The three returns, by reads of this many bytes.
fn returns_by(piece: usize) -> Case<'static> {
    Case {
        text: RETURNS,
        sep: Sep::Comma,
        piece,
        failure: None,
        want: import_count([3, 0, 0, 0, 0], None),
        lines: ALL_LODGED,
    }
}

#[test]
fn a_text_however_it_is_written_and_read(rt: HostRuntime) -> Result<(), Fail> {
    let quoted = Case {
        text: QUOTED_RETURNS,
        sep: Sep::Semicolon,
        piece: 4_096,
        failure: None,
        want: import_count([3, 0, 0, 0, 0], None),
        lines: ALL_LODGED,
    };
    let cut = Case {
        text: CUT_RETURNS,
        sep: Sep::Comma,
        piece: 7,
        failure: Some(ErrorKind::BrokenPipe),
        want: Err(ImportFault::Read),
        lines: NONE_LODGED,
    };
    let empty = Case {
        text: "",
        sep: Sep::Comma,
        piece: 4_096,
        failure: None,
        want: Err(ImportFault::BadHeader),
        lines: NONE_LODGED,
    };
    for case in [
        quoted,
        cut,
        empty,
        returns_by(1),
        returns_by(2),
        returns_by(7),
    ] {
        check_case(rt.alloc(), &case)?;
    }
    Ok(())
}

#[test]
fn as_many_records_as_there_may_be_and_one_more(rt: HostRuntime) -> Result<(), Fail> {
    let alloc = rt.alloc();
    for (bad, want, lines) in [
        (
            19_999,
            import_count([1, 0, 0, 0, 19_999], Some((2, 0))),
            "close s1 1 = moved 2",
        ),
        (20_000, Err(ImportFault::TooLong), NONE_LODGED),
    ] {
        let text = with_bad_rows(alloc, bad)?;
        let case = Case {
            text: text.as_str(),
            sep: Sep::Comma,
            piece: 4_096,
            failure: None,
            want,
            lines,
        };
        check_case(alloc, &case)?;
    }
    Ok(())
}
