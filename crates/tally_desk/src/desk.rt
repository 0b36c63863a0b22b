//! Serving connections from a keeper.

ghost use Rattle.std.specs.Prelude.{◌≡◌, ◌+◌, IfSome};
ghost use Rattle.tally_desk_routes.specs.Routes.{desk_rows};
ghost use Rattle.tally_desk_answer.specs.Words.{word_text};
ghost use Rattle.tally_desk_answer.specs.declared.word.Word.TheVariants.{Unavailable};
ghost use Rattle.tally_desk.specs.Serving.{IsServing};
ghost use Rattle.tally_desk.specs.Respond.{Answers, Office, office_of};

use crate::respond::respond;
use crate::responder::Responder;
use crate::serving::{self, Served};
use matchit::Router;
use std::alloc::Global;
use std::marker::Model;
use tally_desk_answer::unavailable_text;
use tally_desk_message::{Door, Message, MessageFault};
use tally_desk_routes::{Route, desk_router};
use tally_keeper::Keeper;

/// The routes of a desk.
#[derive(Drop)]
pub(crate) struct Desk {
    router: Option<Router<Route>>,
}

impl Model for Desk {
    ghost Value = { Unit {0} };

    ghost view = { λ _. tt };

    ghost invariant = { λ d. IfSome d.router (λ r. r ≡ desk_rows) };
}

impl Desk {
    /// A desk. Where there was no memory for its routes, they are made for each message.
    pub(crate) fn new(alloc: Global) -> Desk {
        Desk {
            router: desk_router(alloc).ok(),
        }
    }
}

impl<K: Keeper> Responder<K> for Desk {
    ghost Content = { Office };

    ghost content = { office_of K.Keeper };

    ghost IsTrusted = { K.IsTrusted };

    ghost Answers = { Answers };

    ghost unavailable = { word_text Unavailable };

    fn respond(
        &self,
        alloc: Global,
        keeper: &mut K,
        message: &Result<Message, MessageFault>,
    ) -> Option<Vec<u8>> {
        match &self.router {
            Some(router) => respond(alloc, router, keeper, message),
            None => respond(alloc, &desk_router(alloc).ok()?, keeper, message),
        }
    }

    fn unavailable(&self) -> &'static [u8] {
        unavailable_text()
    }
}

/// Serves this many connections of a door, one after the other: each message is answered from the
/// keeper. A connection counts as failed where the door had none, where a read of its message
/// failed, and where its answer was not written whole.
pub fn serve<K: Keeper, D: Door>(alloc: Global, keeper: &mut K, door: &mut D, count: u32) -> Served
    ensures count { result.answered + result.failed ≡ count }
    ensures trusted { K.IsTrusted keeper.new → K.IsTrusted keeper.old }
    ensures serves { IsServing Answers (K.IsTrusted keeper.new) count result.answered
        (D.known door.old) (D.known door.new)
        (office_of K.Keeper keeper.old) (office_of K.Keeper keeper.new) }
{
    let desk = Desk::new(alloc);
    serving::serve(alloc, &desk, keeper, door, count)
}
