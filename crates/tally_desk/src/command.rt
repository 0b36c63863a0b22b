//! Commands and imports.

ghost use Rattle.std.specs.Prelude.{◌≡◌, IfSome, Some, Result};
ghost use Rattle.tally_setup.specs.Setup.{constituency_with};
ghost use Rattle.tally_returns.specs.declared.refusal.Refusal.TheVariants.{NoConstituency};
ghost use Rattle.tally_returns.specs.declared.refusal.Refusal.TheVariants.{NoStation};
ghost use Rattle.tally_returns.specs.declared.refusal.Refusal.{Refusal};
ghost use Rattle.tally_keeper.specs.StaysKeeper.{StaysKeeper};
ghost use Rattle.tally_desk_routes.specs.declared.routes.Route.TheVariants as route;
ghost use Rattle.tally_desk.specs.internal.Gives.{Answered, GivesOn, OrdersRead};
ghost use Rattle.tally_desk.specs.internal.Named.{lists_of};
ghost use Rattle.tally_desk.specs.Requests.{ImportsText, import_word, imported_text};

use crate::named::{Subject, con_in_target, lists_of, station_in_target};
use crate::room::Room;
use std::alloc::Global;
use tally_desk_answer::Word;
use tally_desk_message::Message;
use tally_desk_routes::{ConCommand, StationCommand, ask_on_con, ask_on_station};
use tally_import::{ReturnRows, Sep};
use tally_keeper::Keeper;
use tally_returns::{Ask, Refusal};
use tally_returns_rows::{ImportCount, ImportFault};
use tally_setup::{Code, Constituency, Setup};

/// Carries out the command that a body was read as. Its answer takes no memory.
fn order<K: Keeper>(room: Room, keeper: &mut K, subject: Subject, ask: Option<Ask>) -> Vec<u8>
    ensures stays { StaysKeeper K.Keeper keeper.old keeper.new }
    ensures orders { Answered K.Keeper
        (λ setup state. OrdersRead setup state (lists_of setup subject) ask)
        keeper.old result.items keeper.new }
{
    let Some(ask) = ask else {
        return room.word(Word::BadBody);
    };
    let outcome = keeper.answer(&ask);
    room.outcome(lists_of(keeper.setup(), subject), &outcome)
}

/// Carries out the command on a station that a message has in its body.
pub(crate) fn order_on_station<K: Keeper>(
    alloc: Global,
    keeper: &mut K,
    command: StationCommand,
    message: &Message,
) -> Option<Vec<u8>>
    ensures stays { StaysKeeper K.Keeper keeper.old keeper.new }
    ensures gives { GivesOn K.Keeper (route.OnStation command) message.now
        keeper.old result keeper.new }
{
    let room = Room::reserve(alloc)?;
    let Some(station) = station_in_target(keeper.setup(), &message.target) else {
        return Some(room.refusal(Refusal::NoStation));
    };
    match ask_on_station(alloc, command, station, &message.body) {
        Ok(ask) => Some(order(room, keeper, Subject::Station(station), ask)),
        Err(_) => None,
    }
}

/// Carries out the command on a constituency that a message has in its body.
pub(crate) fn order_on_con<K: Keeper>(
    alloc: Global,
    keeper: &mut K,
    command: ConCommand,
    message: &Message,
) -> Option<Vec<u8>>
    ensures stays { StaysKeeper K.Keeper keeper.old keeper.new }
    ensures gives { GivesOn K.Keeper (route.OnCon command) message.now
        keeper.old result keeper.new }
{
    let room = Room::reserve(alloc)?;
    let Some(con) = con_in_target(keeper.setup(), &message.target) else {
        return Some(room.refusal(Refusal::NoConstituency));
    };
    match ask_on_con(alloc, command, con, &message.body) {
        Ok(ask) => Some(order(room, keeper, Subject::Con(con), ask)),
        Err(_) => None,
    }
}

/// The answer where an import was not done.
pub(crate) fn import_word(fault: ImportFault) -> Word
    ensures { result ≡ import_word fault }
{
    match fault {
        ImportFault::BadHeader => Word::BadHeader,
        ImportFault::TooLong => Word::TooLong,
        ImportFault::Read | ImportFault::Memory | ImportFault::Store => Word::Unavailable,
    }
}

/// The answer to an import.
fn import_answer(room: Room, outcome: &Result<ImportCount, ImportFault>) -> Vec<u8>
    ensures { result.items ≡ imported_text outcome.now }
{
    match outcome {
        Ok(count) => room.import(count),
        Err(fault) => room.word(import_word(*fault)),
    }
}

/// A copy of a constituency, which the rows of an import need.
pub(crate) fn con_copy(alloc: Global, setup: &Setup, code: Code) -> Option<Constituency>
    ensures { IfSome result (λ con. constituency_with code setup.now ≡ Some con) }
{
    setup.con(code)?.try_copy(alloc).ok()
}

/// Lodges the rows of a text. The answer takes no memory.
fn lodge_rows<K: Keeper>(
    alloc: Global,
    room: Room,
    keeper: &mut K,
    sep: Sep,
    con: Constituency,
    text: &[u8],
) -> Vec<u8>
    ensures stays { StaysKeeper K.Keeper keeper.old keeper.new }
    ensures imports { Answered K.Keeper (λ setup state. ImportsText setup state con sep text.now)
        keeper.old result.items keeper.new }
{
    let mut rows = ReturnRows::new(alloc, text, sep, con);
    let mut named = Vec::new(alloc);
    let outcome = keeper.lodge_from(&mut rows, &mut named);
    import_answer(room, &outcome)
}

/// Imports the rows that a message has as its body. The answer takes no memory once that is done.
pub(crate) fn import<K: Keeper>(
    alloc: Global,
    keeper: &mut K,
    sep: Sep,
    message: &Message,
) -> Option<Vec<u8>>
    ensures stays { StaysKeeper K.Keeper keeper.old keeper.new }
    ensures gives { GivesOn K.Keeper (route.Import sep) message.now keeper.old result keeper.new }
{
    let room = Room::reserve(alloc)?;
    let Some(code) = con_in_target(keeper.setup(), &message.target) else {
        return Some(room.refusal(Refusal::NoConstituency));
    };
    let con = con_copy(alloc, keeper.setup(), code)?;
    Some(lodge_rows(alloc, room, keeper, sep, con, &message.body))
}
