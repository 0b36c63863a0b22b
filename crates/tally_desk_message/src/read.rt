//! Reading a message.

ghost use Rattle.std.specs.Prelude.{◌≡◌, true};
ghost use Rattle.tally_desk_message.specs.Connection.{ChangesCurrent};
ghost use Rattle.tally_desk_message.specs.Message.{HasReadMessage, TakesWithinLimits, FailsAs};

use crate::body::read_body;
use crate::door::Door;
use crate::head::{FIELD_LIMIT, HEAD_LIMIT, read_head};
use crate::message::{Message, MessageFault};
use crate::start::start_in;
use httparse::spans::EMPTY_HEADER_SPAN;
use std::alloc::Global;

/// Reads a message from the current connection. What follows its body is not looked at. Nothing is
/// written.
pub fn read_message<D: Door>(alloc: Global, door: &mut D) -> Result<Message, MessageFault>
    requires { D.connected door.old ≡ true }
    ensures connected { D.connected door.new ≡ true }
    ensures message { ChangesCurrent (D.known door.old) (D.known door.new) (HasReadMessage result) }
    ensures failed { ChangesCurrent (D.known door.old) (D.known door.new) (FailsAs result) }
    ensures taken { ChangesCurrent (D.known door.old) (D.known door.new)
        (TakesWithinLimits result) }
{
    let mut room = [0u8; HEAD_LIMIT];
    let mut count = 0;
    let mut headers = [EMPTY_HEADER_SPAN; FIELD_LIMIT];
    let head = read_head(door, &mut room, &mut count, &mut headers)?;
    let mut start = start_in(alloc, &room[..count], &headers, head)?;
    // The head is taken apart by now, so what is still to come of the body goes by way of its room.
    read_body(door, &mut room, &mut start.body, start.length)?;
    Ok(Message {
        method: start.method,
        target: start.target,
        body: start.body,
    })
}
