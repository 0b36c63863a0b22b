//! What is decided of a command on a constituency.

ghost use Rattle.std.specs.Prelude.{◌≡◌, Some, IsTrue};
ghost use Rattle.tally_returns.specs.Named.{con_named};

use crate::setups::fresh;
use std::alloc::Global;
use std::test::*;
use tally_core::{Ask, Book, Change, ConView, Keeper, Refusal, Reply, decide_con};
use tally_setup::Constituency;
use tally_test_scripts::{TWIN_TOWN, check_answers, code, command, text_of_refusal};

fn names(con: &Constituency, ask: &Ask) -> bool
    ensures { IsTrue result → con_named ask.now ≡ Some con.now.code }
{
    match ask.con() {
        Some(code) => code == con.code,
        None => false,
    }
}

/// The decision on a command. One that may not be decided is answered NoConstituency.
fn decided(
    alloc: Global,
    con: &Constituency,
    view: &ConView,
    ask: &Ask,
) -> Result<Change, Refusal> {
    if !names(con, ask) || !view.fits(con) {
        return Err(Refusal::NoConstituency);
    }
    decide_con(alloc, con, view, ask)
}

/// The decision on the command of a line, as text.
fn text_of_outcome(
    alloc: Global,
    con: &Constituency,
    view: &ConView,
    line: &str,
) -> Result<String, Fail> {
    match decided(alloc, con, view, &command(alloc, line)?) {
        Ok(change) => Ok(format!(in alloc; "{change:?}")?),
        Err(refusal) => text_of_refusal(alloc, &refusal),
    }
}

/// Fails at the first of these lines, `COMMAND = TEXT`, of which something else is decided.
fn check_lines(
    alloc: Global,
    con: &Constituency,
    view: &ConView,
    lines: &'static str,
) -> Result<(), Fail> {
    for line in lines.lines() {
        let (ask, wanted) = line.split_once(" = ").ok_or("no text")?;
        if text_of_outcome(alloc, con, view, ask)?.as_str() != wanted {
            return Err(Fail::from(line));
        }
    }
    Ok(())
}

/// A keeper's view of its constituency c1.
fn view_of(book: &mut Book) -> Result<ConView, Fail> {
    match book.answer(&Ask::ShowCon { con: code("c1")? }) {
        Ok(Reply::Con(view)) => Ok(view),
        _ => Err(Fail::from("no view")),
    }
}

/// Goes on with the script, and looks at what is decided of these lines then.
fn check_after(
    alloc: Global,
    book: &mut Book,
    script: &str,
    lines: &'static str,
) -> Result<(), Fail> {
    check_answers(alloc, book, script)?;
    let view = view_of(book)?;
    let con = book.setup().con(code("c1")?).ok_or("c1 is there")?;
    check_lines(alloc, con, &view, lines)
}

// 3 seats for two lists of 100 votes each.
const CLOSED: &str = "lodge s1 p1 100,100 = lodged 1
close s1 1 = moved 2";

const AT_CLOSED: &str = "certify c1 1 = lot of 1 2 for 1
draw c1 1 A,B,B = no order of 1 2
draw c1 1 B,A = SetLot([2, 1])
show c1 = Same";

const DRAWN: &str = "draw c1 1 B,A = edition 2";

const AT_DRAWN: &str = "certify c1 2 = SetCertified([1, 2])
certify c1 1 = stale 2";

const CERTIFIED: &str = "certify c1 2 = edition 3";

const AT_CERTIFIED: &str =
    "reopen c1 3 count again = SetReopened(\"count again\", Past { edition: 3, seats: [1, 2] })
vacate c1 A 1 resigned = SetGone(Gone { list: 1, place: 1, note: \"resigned\" }, Some(2))
vacate c1 B 1 resigned = SetGone(Gone { list: 2, place: 1, note: \"resigned\" }, None)";

#[test]
fn what_is_decided_of_commands(rt: HostRuntime) -> Result<(), Fail> {
    let alloc = rt.alloc();
    let mut book = fresh(alloc, TWIN_TOWN)?;
    check_after(alloc, &mut book, CLOSED, AT_CLOSED)?;
    check_after(alloc, &mut book, DRAWN, AT_DRAWN)?;
    check_after(alloc, &mut book, CERTIFIED, AT_CERTIFIED)
}
