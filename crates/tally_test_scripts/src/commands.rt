//! Commands of lines of text.

use crate::setups::{code, codes, number};
use std::alloc::Global;
use std::test::Fail;
use tally_returns::{Ask, Counts};
use tally_setup::Code;

/// The counts of a text such as `100,50 3 1`: the votes of the lists, and blank and spoiled ones if
/// there are any.
pub fn counts(alloc: Global, text: &str) -> Result<Counts, Fail> {
    let (lists, others) = text.split_once(" ").unwrap_or((text, "0"));
    let (blank, spoiled) = others.split_once(" ").unwrap_or((others, "0"));
    let mut votes = Vec::new(alloc);
    for votes_of_a_list in lists.split(",") {
        votes.push(number(votes_of_a_list)?)?;
    }
    Ok(Counts {
        votes,
        blank: number(blank)?,
        spoiled: number(spoiled)?,
    })
}

/// `lodge STATION SLIP COUNTS`, `progress`, or another command.
pub fn command(alloc: Global, line: &str) -> Result<Ask, Fail> {
    if line == "progress" {
        return Ok(Ask::ShowProgress);
    }
    let (verb, rest) = line.split_once(" ").ok_or("no name")?;
    let (named, rest) = rest.split_once(" ").unwrap_or((rest, ""));
    let named = code(named)?;
    if verb != "lodge" {
        return other_command(alloc, verb, named, rest);
    }
    let (slip, votes) = rest.split_once(" ").ok_or("no votes")?;
    Ok(Ask::Lodge {
        station: named,
        slip: code(slip)?,
        counts: counts(alloc, votes)?,
    })
}

/// The commands of these lines, each of them alone or with its answer.
pub fn commands(alloc: Global, lines: &str) -> Result<Vec<Ask>, Fail> {
    let mut asks = Vec::new(alloc);
    for line in lines.lines() {
        let (ask, _answer) = line.split_once(" = ").unwrap_or((line, ""));
        asks.push(command(alloc, ask)?)?;
    }
    Ok(asks)
}

fn other_command(alloc: Global, verb: &str, named: Code, rest: &str) -> Result<Ask, Fail> {
    match verb {
        "query" => move_command(alloc, verb, named, rest),
        "correct" => move_command(alloc, verb, named, rest),
        "close" => move_command(alloc, verb, named, rest),
        "confirm" => move_command(alloc, verb, named, rest),
        "vacate" => vacate_command(alloc, named, rest),
        "show" => Ok(Ask::ShowCon { con: named }),
        "return" => Ok(Ask::ShowReturn { station: named }),
        "draw" => edition_command(alloc, verb, named, rest),
        "certify" => edition_command(alloc, verb, named, rest),
        "reopen" => edition_command(alloc, verb, named, rest),
        _ => Err(Fail::from("no command has this name")),
    }
}

/// `query STATION REV NOTE`, `close STATION REV`, and `correct STATION REV SLIP COUNTS` or the same
/// with `confirm`.
fn move_command(alloc: Global, verb: &str, station: Code, rest: &str) -> Result<Ask, Fail> {
    let (rev, rest) = rest.split_once(" ").unwrap_or((rest, ""));
    let rev = number(rev)?;
    if verb == "close" {
        return Ok(Ask::Close { station, rev });
    }
    if verb == "query" {
        let note = String::from_str(alloc, rest)?;
        return Ok(Ask::Query { station, rev, note });
    }
    let (slip, votes) = rest.split_once(" ").ok_or("no votes")?;
    let slip = code(slip)?;
    let counts = counts(alloc, votes)?;
    if verb == "confirm" {
        return Ok(Ask::Confirm {
            station,
            rev,
            slip,
            counts,
        });
    }
    Ok(Ask::Correct {
        station,
        rev,
        slip,
        counts,
    })
}

/// `draw CONSTITUENCY EDITION LISTS`, `certify CONSTITUENCY EDITION`, `reopen CONSTITUENCY EDITION
/// NOTE`.
fn edition_command(alloc: Global, verb: &str, con: Code, rest: &str) -> Result<Ask, Fail> {
    let (edition, rest) = rest.split_once(" ").unwrap_or((rest, ""));
    let edition = number(edition)?;
    if verb == "certify" {
        return Ok(Ask::Certify { con, edition });
    }
    if verb == "draw" {
        let order = codes(alloc, rest)?;
        return Ok(Ask::Draw {
            con,
            edition,
            order,
        });
    }
    let note = String::from_str(alloc, rest)?;
    Ok(Ask::Reopen { con, edition, note })
}

/// `vacate CONSTITUENCY LIST PLACE NOTE`.
fn vacate_command(alloc: Global, con: Code, rest: &str) -> Result<Ask, Fail> {
    let (list, rest) = rest.split_once(" ").ok_or("no place")?;
    let (place, note) = rest.split_once(" ").unwrap_or((rest, ""));
    Ok(Ask::Vacate {
        con,
        list: code(list)?,
        place: number(place)?,
        note: String::from_str(alloc, note)?,
    })
}
