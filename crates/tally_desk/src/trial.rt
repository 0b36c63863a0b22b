//! Trials of imports.

ghost use Rattle.std.specs.Prelude.{◌≡◌, IfOk, IfSome, IsSome, OnErr, string_bytes};
ghost use Rattle.tally_keeper.specs.StaysKeeper.{StaysKeeper};
ghost use Rattle.tally_desk_routes.specs.declared.routes.Route.TheVariants as route;
ghost use Rattle.tally_desk.specs.internal.Gives.{GivesBy, GivesOn};
ghost use Rattle.tally_desk.specs.Requests.{TriesText, trial_lines, trial_text};

use crate::command::{con_copy, import_word};
use crate::named::con_in_target;
use crate::room::{Room, done_answer};
use std::alloc::{AllocError, Global};
use tally_desk_answer::BodyType;
use tally_desk_message::Message;
use tally_import::room::{COUNT_ROOM, push_count};
use tally_import::{ReturnRows, Sep, list_codes, push_lines};
use tally_keeper::Keeper;
use tally_returns::Refusal;
use tally_returns_rows::{ImportCount, ImportFault, NamedRow};
use tally_setup::{Code, Constituency};

/// The six lines of an import, and a line for each row that it names.
fn trial_lines(
    alloc: Global,
    lists: &[Code],
    count: &ImportCount,
    named: &[NamedRow],
) -> Result<String, AllocError>
    ensures { IfOk result (λ text.
        string_bytes text ≡ trial_lines lists.now count.now named.now) }
{
    let mut text = String::with_capacity(alloc, COUNT_ROOM)?;
    push_count(&mut text, count);
    push_lines(&mut text, lists, named)?;
    Ok(text)
}

/// The answer to a trial of an import, written into the room where it is a word.
fn trial_answer(
    alloc: Global,
    room: Room,
    lists: &[Code],
    outcome: &Result<ImportCount, ImportFault>,
    named: &[NamedRow],
) -> Option<Vec<u8>>
    ensures text { IfSome result (λ text.
        text.items ≡ trial_text lists.now outcome.now named.now) }
    ensures failed { OnErr outcome.now (IsSome result) }
{
    match outcome {
        Ok(count) => match trial_lines(alloc, lists, count, named) {
            Ok(text) => done_answer(alloc, BodyType::Text, text.as_bytes()),
            Err(_) => None,
        },
        Err(fault) => Some(room.word(import_word(*fault))),
    }
}

/// Tries to lodge the rows of a text.
fn try_rows<K: Keeper>(
    alloc: Global,
    room: Room,
    keeper: &mut K,
    sep: Sep,
    con: Constituency,
    text: &[u8],
) -> Option<Vec<u8>>
    ensures stays { StaysKeeper K.Keeper keeper.old keeper.new }
    ensures tries { GivesBy K.Keeper (λ setup state. TriesText setup state con sep text.now)
        keeper.old result keeper.new }
{
    let Ok(lists) = list_codes(alloc, &con.lists) else {
        return None;
    };
    let mut rows = ReturnRows::new(alloc, text, sep, con);
    let mut named = Vec::new(alloc);
    let outcome = keeper.trial_from(&mut rows, &mut named);
    trial_answer(alloc, room, &lists, &outcome, &named)
}

/// Tries the import of the rows that a message has as its body.
pub(crate) fn trial<K: Keeper>(
    alloc: Global,
    keeper: &mut K,
    sep: Sep,
    message: &Message,
) -> Option<Vec<u8>>
    ensures stays { StaysKeeper K.Keeper keeper.old keeper.new }
    ensures gives { GivesOn K.Keeper (route.Trial sep) message.now keeper.old result keeper.new }
{
    let room = Room::reserve(alloc)?;
    let Some(code) = con_in_target(keeper.setup(), &message.target) else {
        return Some(room.refusal(Refusal::NoConstituency));
    };
    let con = con_copy(alloc, keeper.setup(), code)?;
    try_rows(alloc, room, keeper, sep, con, &message.body)
}
