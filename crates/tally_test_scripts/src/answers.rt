//! Answers as text.

use crate::commands::{command, commands};
use crate::setups::code;
use std::alloc::Global;
use std::test::Fail;
use tally_keeper::{Keeper, run};
use tally_returns::{Ask, ConView, ListSet, ProgressRow, Refusal, Reply, Return, StationRow};
use tally_setup::Code;

/// The answer, as text: a word for it, and its numbers.
pub fn text_of_answer(alloc: Global, answer: &Result<Reply, Refusal>) -> Result<String, Fail> {
    match answer {
        Ok(reply) => text_of_reply(alloc, reply),
        Err(refusal) => text_of_refusal(alloc, refusal),
    }
}

fn text_of_reply(alloc: Global, reply: &Reply) -> Result<String, Fail> {
    match reply {
        Reply::Lodged { rev } => Ok(format!(in alloc; "lodged {rev}")?),
        Reply::Same { rev } => Ok(format!(in alloc; "same {rev}")?),
        Reply::Moved { rev } => Ok(format!(in alloc; "moved {rev}")?),
        Reply::Return(standing) => text_of_return(alloc, standing),
        Reply::Edition { edition } => Ok(format!(in alloc; "edition {edition}")?),
        Reply::Vacated { next } => Ok(format!(in alloc; "vacated {next:?}")?),
        Reply::Con(view) => text_of_view(alloc, view),
        Reply::Progress(rows) => text_of_progress(alloc, rows),
    }
}

/// The revision, slip, status, votes, blank and spoiled votes, and the note.
fn text_of_return(alloc: Global, standing: &Return) -> Result<String, Fail> {
    let Return {
        rev,
        slip,
        status,
        note,
        counts,
    } = standing;
    let mut text = format!(in alloc; "{rev} {slip} {status:?}")?;
    let (blank, spoiled) = (counts.blank, counts.spoiled);
    write!(text, " {:?} {blank} {spoiled} {note}", counts.votes)?;
    Ok(text)
}

/// Whether it is certified, the edition, how many returns are received, queried, corrected, and
/// closed, of how many stations; the votes, the blank and the spoiled ones, the lot, the seats; the
/// note of the last reopening; and who is gone, in the order of lists and places.
fn text_of_numbers(alloc: Global, view: &ConView) -> Result<String, Fail> {
    let certified = if view.certified { "certified" } else { "open" };
    let mut text = format!(in alloc; "{certified} {}", view.edition)?;
    push_returns(&mut text, view)?;
    push_votes(&mut text, view)?;
    push_notes(&mut text, view)?;
    Ok(text)
}

fn push_returns(text: &mut String, view: &ConView) -> Result<(), Fail> {
    write!(text, " {} {}", view.received, view.queried)?;
    write!(text, " {} {}", view.corrected, view.closed)?;
    write!(text, "/{}", view.stations)?;
    Ok(())
}

fn push_votes(text: &mut String, view: &ConView) -> Result<(), Fail> {
    write!(text, " {:?} {} {}", view.votes, view.blank, view.spoiled)?;
    write!(text, " {:?} {:?}", view.lot, view.seats)?;
    Ok(())
}

fn push_notes(text: &mut String, view: &ConView) -> Result<(), Fail> {
    if !view.note.is_empty() {
        write!(text, " {}", view.note)?;
    }
    for gone in &view.gone {
        write!(text, " {}.{} {}", gone.list, gone.place, gone.note)?;
    }
    Ok(())
}

/// As above, with the edition and the seats of each certificate that was reopened.
fn text_of_view(alloc: Global, view: &ConView) -> Result<String, Fail> {
    let mut text = text_of_numbers(alloc, view)?;
    for past in &view.past {
        write!(text, " past {} {:?}", past.edition, past.seats)?;
    }
    Ok(text)
}

fn text_of_progress(alloc: Global, rows: &[ProgressRow]) -> Result<String, Fail> {
    let mut text = String::from_str(alloc, "progress")?;
    for row in rows {
        push_row(&mut text, *row)?;
    }
    Ok(text)
}

/// The constituency, its stations, the returns of each status, the edition, whether it is
/// certified.
fn push_row(text: &mut String, row: ProgressRow) -> Result<(), Fail> {
    write!(text, " {} {}:", row.con, row.stations)?;
    write!(text, " {} {}", row.received, row.queried)?;
    write!(text, " {} {}", row.corrected, row.closed)?;
    write!(text, " {} {}", row.edition, row.certified)?;
    Ok(())
}

/// The text of a refusal, or its number.
pub fn text_of_refusal(alloc: Global, refusal: &Refusal) -> Result<String, Fail> {
    match refusal {
        Refusal::WrongStatus { status } => Ok(format!(in alloc; "status {status:?}")?),
        Refusal::Stale { now } => Ok(format!(in alloc; "stale {now}")?),
        Refusal::Differs { rev } => Ok(format!(in alloc; "differs {rev}")?),
        Refusal::NotAllClosed { left } => Ok(format!(in alloc; "left {left}")?),
        Refusal::LotWrongGroup { group } => text_of_group(alloc, "no order of", group),
        Refusal::LotMissing { group, seats } => {
            let mut text = text_of_group(alloc, "lot of", group)?;
            write!(text, " for {seats}")?;
            Ok(text)
        }
        _ => Ok(format!(in alloc; "refused {}", refusal.number())?),
    }
}

/// The places of a group after a text.
fn text_of_group(alloc: Global, front: &str, group: &ListSet) -> Result<String, Fail> {
    let mut text = String::from_str(alloc, front)?;
    for place in 1..=60u32 {
        if group.has(place) {
            write!(text, " {place}")?;
        }
    }
    Ok(text)
}

/// A keeper's answer to the command of a line, as text. A constituency is then shown once more,
/// without its certificates on record, and has to be shown alike.
fn answered<K: Keeper>(alloc: Global, keeper: &mut K, line: &str) -> Result<String, Fail> {
    let ask = command(alloc, line)?;
    let answer = keeper.answer(&ask);
    if let Ask::ShowCon { con } = ask {
        check_shown(alloc, keeper, con, &answer)?;
    }
    text_of_answer(alloc, &answer)
}

/// Fails where a constituency is shown otherwise without its certificates on record.
fn check_shown<K: Keeper>(
    alloc: Global,
    keeper: &mut K,
    con: Code,
    answer: &Result<Reply, Refusal>,
) -> Result<(), Fail> {
    let shown = text_of_shown(alloc, &keeper.show_con(con))?;
    if without_past(alloc, answer)?.as_str() == shown.as_str() {
        return Ok(());
    }
    Err(Fail::from(shown))
}

/// The answer to a ShowCon, without the certificates on record.
fn without_past(alloc: Global, answer: &Result<Reply, Refusal>) -> Result<String, Fail> {
    match answer {
        Ok(Reply::Con(view)) => text_of_numbers(alloc, view),
        _ => text_of_answer(alloc, answer),
    }
}

/// The view of a constituency, with whatever certificates on record it has.
fn text_of_shown(alloc: Global, shown: &Result<ConView, Refusal>) -> Result<String, Fail> {
    match shown {
        Ok(view) => text_of_view(alloc, view),
        Err(refusal) => text_of_refusal(alloc, refusal),
    }
}

/// A keeper's stations of a constituency, a line for each: its code, its electors,
/// and its return or `-`. Or what it refuses, on a line.
pub fn text_of_stations<K: Keeper>(
    alloc: Global,
    keeper: &mut K,
    con: &str,
) -> Result<String, Fail> {
    text_of_rows(alloc, &keeper.show_returns(code(con)?))
}

fn text_of_rows(alloc: Global, shown: &Result<Vec<StationRow>, Refusal>) -> Result<String, Fail> {
    let mut text = String::new(alloc);
    match shown {
        Ok(rows) => {
            for row in rows {
                push_station(alloc, &mut text, row)?;
            }
        }
        Err(refusal) => push_line(&mut text, text_of_refusal(alloc, refusal)?.as_str())?,
    }
    Ok(text)
}

fn push_station(alloc: Global, text: &mut String, row: &StationRow) -> Result<(), Fail> {
    write!(text, "{} {} ", row.station, row.electors)?;
    match &row.found {
        Some(standing) => push_line(text, text_of_return(alloc, standing)?.as_str()),
        None => push_line(text, "-"),
    }
}

fn push_line(text: &mut String, line: &str) -> Result<(), Fail> {
    text.push_str(line)?;
    text.push_str("\n")?;
    Ok(())
}

/// The first of these lines, `COMMAND = ANSWER`, whose answer is another, with that answer.
pub fn first_wrong<K: Keeper>(alloc: Global, keeper: &mut K, script: &str) -> Result<String, Fail> {
    for line in script.lines() {
        let (ask, wanted) = line.split_once(" = ").ok_or("no answer")?;
        let got = answered(alloc, keeper, ask)?;
        if got.as_str() != wanted {
            return Ok(format!(in alloc; "{line}, and not {got}")?);
        }
    }
    Ok(String::new(alloc))
}

/// Fails at the first of these lines whose answer is another.
pub fn check_answers<K: Keeper>(alloc: Global, keeper: &mut K, script: &str) -> Result<(), Fail> {
    let wrong = first_wrong(alloc, keeper, script)?;
    if wrong.is_empty() {
        return Ok(());
    }
    Err(Fail::from(wrong))
}

/// A keeper's answers to the commands of these lines in one run, a line each.
pub fn text_of_answers<K: Keeper>(
    alloc: Global,
    keeper: &mut K,
    lines: &str,
) -> Result<String, Fail> {
    let asks = commands(alloc, lines)?;
    let mut text = String::new(alloc);
    for answer in &run(alloc, keeper, &asks)? {
        text.push_str(text_of_answer(alloc, answer)?.as_str())?;
        text.push_str("\n")?;
    }
    Ok(text)
}

/// The first wrong line where all commands of the script are one run.
pub fn first_wrong_of_run<K: Keeper>(
    alloc: Global,
    keeper: &mut K,
    script: &str,
) -> Result<String, Fail> {
    let asks = commands(alloc, script)?;
    first_other(alloc, script, &run(alloc, keeper, &asks)?)
}

/// The first line of a script to which another answer came.
fn first_other(
    alloc: Global,
    script: &str,
    answers: &[Result<Reply, Refusal>],
) -> Result<String, Fail> {
    for (place, line) in script.lines().enumerate() {
        let (_ask, wanted) = line.split_once(" = ").ok_or("no answer")?;
        let got = text_of_answer(alloc, answers.get(place).ok_or("an answer is missing")?)?;
        if got.as_str() != wanted {
            return Ok(format!(in alloc; "{line}, and not {got}")?);
        }
    }
    Ok(String::new(alloc))
}
