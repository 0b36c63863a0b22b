//! What keepers show.

use std::alloc::Global;
use std::test::Fail;
use tally_core::{Ask, Book, Keeper, Refusal};
use tally_setup::{Constituency, Setup};

/// Fails where one keeper shows something else than another one.
pub(crate) fn compare(alloc: Global, one: &mut Book, other: &mut Book) -> Result<(), Fail> {
    let (one, other) = (shown(alloc, one)?, shown(alloc, other)?);
    if one == other {
        Ok(())
    } else {
        Err(Fail::new("another state"))
    }
}

/// All that a keeper shows: how far it has come, each constituency and the return of each station.
fn shown(alloc: Global, book: &mut Book) -> Result<String, Fail> {
    let asks = shows_of(alloc, book.setup())?;
    let mut text = String::new(alloc);
    for ask in &asks {
        push_answer(&mut text, book, ask)?;
    }
    Ok(text)
}

fn push_answer(text: &mut String, book: &mut Book, ask: &Ask) -> Result<(), Fail> {
    let answer = book.answer(ask);
    if let Err(Refusal::Memory) = answer {
        return Err(Fail::new("no memory to show it"));
    }
    writeln!(text, "{answer:?}")?;
    Ok(())
}

fn shows_of(alloc: Global, setup: &Setup) -> Result<Vec<Ask>, Fail> {
    let mut asks = Vec::new(alloc);
    asks.push(Ask::ShowProgress)?;
    for con in setup.cons() {
        asks.push(Ask::ShowCon { con: con.code })?;
        push_shows_of(&mut asks, con)?;
    }
    Ok(asks)
}

fn push_shows_of(asks: &mut Vec<Ask>, con: &Constituency) -> Result<(), Fail> {
    for station in &con.stations {
        asks.push(Ask::ShowReturn {
            station: station.code,
        })?;
    }
    Ok(())
}
