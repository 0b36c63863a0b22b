//! Reading a body.

ghost use Rattle.std.specs.Prelude.{◌≡◌, ◌<◌, ◌≤◌, true, length, vec_len};
ghost use Rattle.tally_desk_message.specs.Connection.{ChangesCurrent};
ghost use Rattle.tally_desk_message.specs.Message.{TakesAtMost};
ghost use Rattle.tally_desk_message.specs.internal.Reading.{ReadsBody};

use crate::door::Door;
use crate::input::{Input, read_more};
use crate::message::MessageFault;

/// Reads the rest of a body of `count` bytes, of which the first may have come. It comes by way of
/// `piece`.
pub(crate) fn read_body<D: Door>(
    door: &mut D,
    piece: &mut [u8],
    body: &mut Vec<u8>,
    count: usize,
) -> Result<(), MessageFault>
    requires connected { D.connected door.old ≡ true }
    requires piece { 0 < length piece.old }
    requires within { vec_len body.old ≤ count }
    ensures connected { D.connected door.new ≡ true }
    ensures known { ChangesCurrent (D.known door.old) (D.known door.new)
        (ReadsBody body.old.items count result body.new.items) }
    ensures taken { ChangesCurrent (D.known door.old) (D.known door.new) (TakesAtMost count) }
{
    while body.len() < count {
        let most = piece.len().min(count - body.len());
        let room = &mut piece[..most];
        let mut came = 0;
        match read_more(door, room, &mut came) {
            Input::Bytes => body.extend_from_slice(&room[..came])?,
            Input::End => return Err(MessageFault::EndedEarly),
            Input::Failure => return Err(MessageFault::Read),
        }
    }
    Ok(())
}
