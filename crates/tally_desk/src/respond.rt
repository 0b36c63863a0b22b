//! Which answer a message gets.

ghost use Rattle.std.specs.Prelude.{◌≡◌, IfSome, Ok};
ghost use Rattle.tally_desk_routes.specs.Routes.{desk_rows, takes_get};
ghost use Rattle.tally_desk_answer.specs.Words.{word_text};
ghost use Rattle.tally_keeper.specs.StaysKeeper.{StaysKeeper};
ghost use Rattle.tally_desk.specs.internal.Gives.{GivesBy, GivesOn};
ghost use Rattle.tally_desk.specs.Respond.{IsAnswer, fault_word, other_method};

use crate::command::{import, order_on_con, order_on_station};
use crate::country::show_country;
use crate::results::{show_result, show_results};
use crate::room::Room;
use crate::show::{show_con, show_progress, show_report, show_return};
use crate::stations::show_rows;
use crate::trial::trial;
use matchit::Router;
use std::alloc::Global;
use tally_desk_answer::Word;
use tally_desk_message::{Message, MessageFault};
use tally_desk_routes::{Route, route_of, takes, takes_get};
use tally_keeper::Keeper;
use tally_report_names::StationsReport;

/// An answer that is a word alone.
fn say(alloc: Global, word: Word) -> Option<Vec<u8>>
    ensures { IfSome result (λ text. text.items ≡ word_text word) }
{
    Some(Room::reserve(alloc)?.word(word))
}

/// The word that answers a fault. A failed read has none: nothing is written then.
fn fault_word(fault: MessageFault) -> Option<Word>
    ensures { result ≡ fault_word fault }
{
    match fault {
        MessageFault::BadHead => Some(Word::BadHead),
        MessageFault::HeadTooLong => Some(Word::HeadTooLong),
        MessageFault::LengthRequired => Some(Word::LengthRequired),
        MessageFault::BadLength => Some(Word::BadLength),
        MessageFault::BodyTooLong => Some(Word::BodyTooLong),
        MessageFault::EndedEarly => Some(Word::EndedEarly),
        MessageFault::Read => None,
        MessageFault::Memory => Some(Word::Unavailable),
    }
}

fn other_method(route: Route) -> Word
    ensures { result ≡ other_method (takes_get route) }
{
    if takes_get(route) {
        return Word::GetOnly;
    }
    Word::PostOnly
}

/// Answers a message on its route.
fn answer_by_route<K: Keeper>(
    alloc: Global,
    keeper: &mut K,
    route: Route,
    message: &Message,
) -> Option<Vec<u8>>
    ensures stays { StaysKeeper K.Keeper keeper.old keeper.new }
    ensures gives { GivesOn K.Keeper route message.now keeper.old result keeper.new }
{
    match route {
        Route::Progress => show_progress(alloc, keeper),
        Route::Return => show_return(alloc, keeper, message),
        Route::Con => show_con(alloc, keeper, message),
        Route::Report(which) => show_report(alloc, keeper, message, which),
        Route::Returns => show_rows(alloc, keeper, message, StationsReport::Returns),
        Route::Stations => show_rows(alloc, keeper, message, StationsReport::Stations),
        Route::Country => show_country(alloc, keeper),
        Route::Result => show_result(alloc, keeper, message),
        Route::Results => show_results(alloc, keeper),
        Route::OnStation(command) => order_on_station(alloc, keeper, command, message),
        Route::OnCon(command) => order_on_con(alloc, keeper, command, message),
        Route::Import(sep) => import(alloc, keeper, sep, message),
        Route::Trial(sep) => trial(alloc, keeper, sep, message),
    }
}

/// Answers a message.
fn answer<K: Keeper>(
    alloc: Global,
    router: &Router<Route>,
    keeper: &mut K,
    message: &Message,
) -> Option<Vec<u8>>
    requires { router.now ≡ desk_rows }
    ensures stays { StaysKeeper K.Keeper keeper.old keeper.new }
    ensures gives { GivesBy K.Keeper (λ setup state. IsAnswer setup state (Ok message.now))
        keeper.old result keeper.new }
{
    let Some(route) = route_of(router, &message.target) else {
        return say(alloc, Word::NoRoute);
    };
    if !takes(route, &message.method) {
        return say(alloc, other_method(route));
    }
    answer_by_route(alloc, keeper, route, message)
}

/// Answers a message or a fault of one. `None` where the fault is a failed read, or where there is
/// no memory for an answer: nothing was accepted then.
pub(crate) fn respond<K: Keeper>(
    alloc: Global,
    router: &Router<Route>,
    keeper: &mut K,
    message: &Result<Message, MessageFault>,
) -> Option<Vec<u8>>
    requires { router.now ≡ desk_rows }
    ensures stays { StaysKeeper K.Keeper keeper.old keeper.new }
    ensures gives { GivesBy K.Keeper (λ setup state. IsAnswer setup state message.now)
        keeper.old result keeper.new }
{
    match message {
        Ok(message) => answer(alloc, router, keeper, message),
        Err(fault) => say(alloc, fault_word(*fault)?),
    }
}
