//! Imports into a keeper in memory.

ghost use Rattle.tally_returns_rows.specs.Source.{IsLodgeOrBad};

use crate::setups::fresh;
use std::alloc::Global;
use std::test::*;
use tally_core::{Ask, Book, ImportFault, Keeper, Row, RowSource};
use tally_returns_rows::{BadRow, Given};
use tally_test_scripts::{TWIN_TOWN, check_answers, command};

/// Gives rows of these commands, the last first; then it ends, or its reads fail.
#[derive(Drop)]
struct Script {
    rows: Vec<Ask>,
    fails: bool,
    over: bool,
    given: Given,
}

impl RowSource for Script {
    ghost use Rattle.std.specs.Prelude.{if◌then◌else◌, Some, None};
    ghost use Rattle.tally_returns_rows.specs.Given.{rows_of};
    ghost use Rattle.tally_returns_rows.specs.declared.source.ImportFault.TheVariants.{Read};

    ghost coming = { λ _. None };

    ghost given = { λ s. rows_of s.given };

    ghost ended = { λ s. if s.over then Some (if s.fails then Some Read else None) else None };

    ghost within = { λ _. tt };

    fn next_row(&mut self) -> Result<Option<Row>, ImportFault> {
        if !self.over {
            if let Some(ask) = self.rows.pop() {
                let next = Ok(Some(row_of(ask)));
                self.given.note(&next);
                return next;
            }
            self.over = true;
        }
        if self.fails {
            return Err(ImportFault::Read);
        }
        Ok(None)
    }
}

/// The row of a command: a bad one, where it is not a Lodge.
fn row_of(ask: Ask) -> Row
    ensures { IsLodgeOrBad result }
{
    let Ask::Lodge {
        station,
        slip,
        counts,
    } = ask
    else {
        return Row::Bad(BadRow::Fields(0));
    };
    Row::Lodge(Ask::Lodge {
        station,
        slip,
        counts,
    })
}

/// The rows of a text, of which each that is not a `lodge` is a bad one.
fn rows_of_text(alloc: Global, text: &str, fails: bool) -> Result<Script, Fail> {
    let mut rows = Vec::new(alloc);
    for line in text.split(";") {
        rows.push(command(alloc, line)?)?;
    }
    rows.reverse();
    Ok(Script {
        rows,
        fails,
        over: false,
        given: Given::new(),
    })
}

/// The outcome of importing these rows into a keeper, as text.
fn imported(alloc: Global, book: &mut Book, text: &str, fails: bool) -> Result<String, Fail> {
    let mut rows = rows_of_text(alloc, text, fails)?;
    let outcome = book.lodge_from(&mut rows, &mut Vec::new(alloc));
    Ok(format!(in alloc; "{outcome:?}")?)
}

/// The outcome of a trial of that import, as text.
fn tried(alloc: Global, book: &mut Book, text: &str, fails: bool) -> Result<String, Fail> {
    let mut rows = rows_of_text(alloc, text, fails)?;
    let outcome = book.trial_from(&mut rows, &mut Vec::new(alloc));
    Ok(format!(in alloc; "{outcome:?}")?)
}

/// Fails where it, or a trial before it, comes to something else, of a new keeper to which the
/// lines of a script come first, or where the lines of another script have other answers then.
fn check_import(
    alloc: Global,
    before: &str,
    rows: &str,
    fails: bool,
    wanted: &str,
    after: &str,
) -> Result<(), Fail> {
    let mut book = fresh(alloc, TWIN_TOWN)?;
    check_answers(alloc, &mut book, before)?;
    let trial = tried(alloc, &mut book, rows, fails)?;
    let got = imported(alloc, &mut book, rows, fails)?;
    if trial.as_str() != wanted || got.as_str() != wanted {
        return Err(Fail::from(got));
    }
    check_answers(alloc, &mut book, after)
}

const PASSED_OVER: &str =
    "show c1;lodge s1 p1 100,100;lodge s1 p1 100,100;lodge s1 p2 1,1;lodge zz p1 1,1;close s1 1";

const COUNTED: &str = "Ok(ImportCount { lodged: 1, same: 1, differs: 1, refused: 1, bad: 2, \
    first: Some(FirstRow { row: 1, number: 0 }) })";

// 8 is NoReturn: where a read fails an import leaves nothing, and an earlier return is still there.
#[test]
fn an_import_is_counted_or_leaves_nothing(rt: HostRuntime) -> Result<(), Fail> {
    for (before, rows, fails, wanted, after) in [
        ("", PASSED_OVER, false, COUNTED, "close s1 1 = moved 2"),
        (
            "",
            "lodge s1 p1 100,100;show c1",
            true,
            "Err(Read)",
            "close s1 1 = refused 8",
        ),
        (
            "lodge s1 p1 1,1 = lodged 1",
            "lodge s1 p1 1,1;show c1",
            true,
            "Err(Read)",
            "close s1 1 = moved 2",
        ),
    ] {
        check_import(rt.alloc(), before, rows, fails, wanted, after)?;
    }
    let mut rows = "show c1;".repeat(rt.alloc(), 20_000)?;
    rows.push_str("show c1")?;
    check_import(rt.alloc(), "", rows.as_str(), false, "Err(TooLong)", "")
}
