//! What a door is.

ghost use Rattle.std.specs.Prelude.{◌≡◌, ◌≤◌, Bool, true, Option, length, is_ok, IfOk};
ghost use Rattle.tally_desk_message.specs.Connection.{Connections, ChangesCurrent, HasRead};
ghost use Rattle.tally_desk_message.specs.Connection.{HasWritten};
ghost use Rattle.tally_desk_message.specs.Connection.{TakesNext};

/// Why a door, a read or a write failed.
#[derive(Clone, Copy)]
pub enum DoorFault {
    Failed,
}

/// Connections one after the other, of which at most one is current.
pub trait Door {
    /// Its connections, as far as they are known.
    ghost known: { Self → Option Connections };

    /// Whether one is current.
    ghost connected: { Self → Bool };

    /// Ends the current connection and takes the next one. Where that fails none is current.
    fn next(&mut self) -> Result<(), DoorFault>
        ensures connected { connected self.new ≡ is_ok result }
        ensures known { TakesNext (known self.old) result (known self.new) };

    /// Reads from the current connection: 0 bytes into a buffer that is not empty are its end.
    fn read(&mut self, buf: &mut [u8]) -> Result<usize, DoorFault>
        requires { connected self.old ≡ true }
        ensures within { IfOk result (λ n. n ≤ length buf.new) }
        ensures connected { connected self.new ≡ true }
        ensures known { ChangesCurrent (known self.old) (known self.new)
            (λ c d. HasRead c buf.new result d) };

    /// Writes to the current connection, and answers how many of the bytes it took.
    fn write(&mut self, bytes: &[u8]) -> Result<usize, DoorFault>
        requires { connected self.old ≡ true }
        ensures within { IfOk result (λ n. n ≤ length bytes.now) }
        ensures connected { connected self.new ≡ true }
        ensures known { ChangesCurrent (known self.old) (known self.new)
            (λ c d. HasWritten c bytes.now result d) };
}
