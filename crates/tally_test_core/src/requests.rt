//! Requests of scripts, one of which may be refused its memory by `bench/refused_requests.py`.

use crate::setups::fresh;
use crate::shown::compare;
use std::alloc::Global;
use std::test::Fail;
use tally_core::{Ask, Book, Keeper, Refusal, Reply};
use tally_test_scripts::{command, setups_and_scripts, text_of_answer};

/// The requests of the lines of a script.
fn asks_of(alloc: Global, script: &str) -> Result<Vec<Ask>, Fail> {
    let mut asks = Vec::new(alloc);
    for line in script.lines() {
        let (ask, _) = line.split_once(" = ").ok_or("no answer")?;
        asks.push(command(alloc, ask)?)?;
    }
    Ok(asks)
}

/// A keeper of a setup that was asked these, with memory for each.
fn after(alloc: Global, setup: &str, asks: &[Ask]) -> Result<Book, Fail> {
    let mut book = fresh(alloc, setup)?;
    for ask in asks {
        if let Err(Refusal::Memory) = book.answer(ask) {
            return Err(Fail::new("no memory to ask it the same"));
        }
    }
    Ok(book)
}

/// The answer to the request at a place. Where it is out of memory, the keeper has to show what
/// one shows that was asked only those before it, and it is asked once more.
fn ask_at(
    rt: &HostRuntime,
    book: &mut Book,
    setup: &str,
    asks: &[Ask],
    place: usize,
) -> Result<Result<Reply, Refusal>, Fail> {
    let ask = asks.get(place).ok_or("no request")?;
    let answer = book.answer(ask);
    let Err(Refusal::Memory) = answer else {
        return Ok(answer);
    };
    println!(rt; "refused: {ask:?}")?;
    let mut other = after(rt.alloc(), setup, &asks[..place])?;
    compare(rt.alloc(), book, &mut other)?;
    Ok(book.answer(ask))
}

/// Fails where the request of the line at a place has another answer.
fn check_line(
    rt: &HostRuntime,
    book: &mut Book,
    setup: &str,
    asks: &[Ask],
    (place, line): (usize, &str),
) -> Result<(), Fail> {
    let (_, wanted) = line.split_once(" = ").ok_or("no answer")?;
    let answer = ask_at(rt, book, setup, asks, place)?;
    let got = text_of_answer(rt.alloc(), &answer)?;
    if got.as_str() == wanted {
        Ok(())
    } else {
        Err(Fail::from(line))
    }
}

/// Fails where a request of a script has another answer, or where the keeper shows something else
/// in the end than one that was asked the same.
fn check_script(rt: &HostRuntime, setup: &str, script: &str) -> Result<(), Fail> {
    let asks = asks_of(rt.alloc(), script)?;
    let mut book = fresh(rt.alloc(), setup)?;
    for at in script.lines().enumerate() {
        check_line(rt, &mut book, setup, &asks, at)?;
    }
    let mut other = after(rt.alloc(), setup, &asks)?;
    compare(rt.alloc(), &mut book, &mut other)
}

#[test]
fn requests_have_their_answers(rt: HostRuntime) -> Result<(), Fail> {
    for (setup, script) in &setups_and_scripts(rt.alloc())? {
        check_script(&rt, setup.as_str(), script)?;
    }
    Ok(())
}
