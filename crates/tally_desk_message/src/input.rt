//! Reading what comes next of a connection.

ghost use Rattle.std.specs.Prelude.{◌≡◌, ◌≤◌, ◌<◌, ◌-◌, true, length, take};
ghost use Rattle.tally_desk_message.specs.Connection.{ChangesCurrent};
ghost use Rattle.tally_desk_message.specs.Message.{TakesAtMost};
ghost use Rattle.tally_desk_message.specs.internal.Reading.{ReadsOnto};
ghost use Rattle.tally_desk_message.specs.declared.input.Input.TheVariants.{Bytes};

use crate::door::Door;

/// The outcome of a read of a connection.
#[derive(Clone, Copy)]
pub(crate) enum Input {
    Bytes,
    End,
    Failure,
}

/// Reads some of what the current connection still gives, at most as many bytes as there is room
/// for, and puts it after the first `count` bytes, which came before.
pub(crate) fn read_more<D: Door>(door: &mut D, room: &mut [u8], count: &mut usize) -> Input
    requires connected { D.connected door.old ≡ true }
    requires room { count.old < length room.old }
    ensures connected { D.connected door.new ≡ true }
    ensures more { result ≡ Bytes → count.old < count.new }
    ensures within { count.new ≤ length room.new }
    ensures further { count.old ≤ count.new }
    ensures kept { take count.old room.new ≡ take count.old room.old }
    ensures taken { ChangesCurrent (D.known door.old) (D.known door.new)
        (TakesAtMost (length room.old - count.old)) }
    ensures known { ChangesCurrent (D.known door.old) (D.known door.new)
        (ReadsOnto (take count.old room.old) result (take count.new room.new)) }
{
    let Ok(came) = door.read(&mut room[*count..]) else {
        return Input::Failure;
    };
    if came == 0 {
        return Input::End;
    }
    *count += came;
    Input::Bytes
}
