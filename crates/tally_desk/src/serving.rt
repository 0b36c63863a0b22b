//! Serving the connections of a door.

ghost use Rattle.std.specs.Prelude.{◌≡◌, ◌+◌, true, length, nat_le};
ghost use Rattle.tally_desk_message.specs.Connection.{ChangesCurrent, after_text};
ghost use Rattle.tally_desk.specs.Serving.{IsExchange, IsServing, text_or};
ghost use Rattle.tally_desk.specs.internal.Next.{IsNextServed};

use crate::responder::Responder;
use std::alloc::Global;
use tally_desk_message::{Door, MessageFault, read_message, write_all};

/// How many connections were answered whole, and how many failed.
#[derive(Clone, Copy, Debug, PartialEq, Eq)]
pub struct Served {
    pub answered: u32,
    pub failed: u32,
}

/// Writes an answer, and says whether it was written whole.
fn send_answer<K, R: Responder<K>, D: Door>(
    responder: &R,
    door: &mut D,
    text: &Option<Vec<u8>>,
) -> bool
    requires { D.connected door.old ≡ true }
    ensures { ChangesCurrent (D.known door.old) (D.known door.new)
        (λ c d. (d ≡ after_text c (text_or R.unavailable text.now))
        × (result ≡ nat_le (length (text_or R.unavailable text.now)) c.room)) }
{
    match text {
        Some(text) => write_all(door, text).is_ok(),
        None => write_all(door, responder.unavailable()).is_ok(),
    }
}

/// Reads a message and answers it, and says whether the answer was written whole.
fn exchange<K, R: Responder<K>, D: Door>(
    alloc: Global,
    responder: &R,
    keeper: &mut K,
    door: &mut D,
) -> bool
    requires { D.connected door.old ≡ true }
    ensures trusted { R.IsTrusted keeper.new → R.IsTrusted keeper.old }
    ensures exchange { ChangesCurrent (D.known door.old) (D.known door.new)
        (λ c d. R.IsTrusted keeper.new
        → IsExchange R.Answers (R.content keeper.old) c result d (R.content keeper.new)) }
{
    let message = read_message(alloc, door);
    if let Err(MessageFault::Read) = message {
        return false;
    }
    let text = responder.respond(alloc, keeper, &message);
    send_answer(responder, door, &text)
}

/// Takes the next connection and answers it. False counts as failed.
fn serve_next<K, R: Responder<K>, D: Door>(
    alloc: Global,
    responder: &R,
    keeper: &mut K,
    door: &mut D,
) -> bool
    ensures trusted { R.IsTrusted keeper.new → R.IsTrusted keeper.old }
    ensures next { IsNextServed R.Answers (R.IsTrusted keeper.new) result
        (D.known door.old) (D.known door.new) (R.content keeper.old) (R.content keeper.new) }
{
    match door.next() {
        Ok(()) => exchange(alloc, responder, keeper, door),
        Err(_) => false,
    }
}

/// Serves this many connections of a door, one after the other: from each it reads a message, and
/// writes its answer. A connection counts as failed where the door had none, where a read of its
/// message failed, and where its answer was not written whole.
pub fn serve<K, R: Responder<K>, D: Door>(
    alloc: Global,
    responder: &R,
    keeper: &mut K,
    door: &mut D,
    count: u32,
) -> Served
    ensures count { result.answered + result.failed ≡ count }
    ensures trusted { R.IsTrusted keeper.new → R.IsTrusted keeper.old }
    ensures serves { IsServing R.Answers (R.IsTrusted keeper.new) count result.answered
        (D.known door.old) (D.known door.new) (R.content keeper.old) (R.content keeper.new) }
{
    let mut answered = 0;
    let mut failed = 0;
    for at in 0..count {
        if serve_next(alloc, responder, keeper, door) {
            answered += 1;
        } else {
            failed += 1;
        }
    }
    Served { answered, failed }
}
