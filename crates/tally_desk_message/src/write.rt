//! Writing a whole text.

ghost use Rattle.std.specs.Prelude.{◌≡◌, true, length, is_ok, nat_le};
ghost use Rattle.tally_desk_message.specs.Connection.{ChangesCurrent, after_text};

use crate::door::{Door, DoorFault};

/// Writes a whole text to the current connection. A write that takes nothing fails.
pub fn write_all<D: Door>(door: &mut D, text: &[u8]) -> Result<(), DoorFault>
    requires { D.connected door.old ≡ true }
    ensures connected { D.connected door.new ≡ true }
    ensures written { ChangesCurrent (D.known door.old) (D.known door.new)
        (λ c d. d ≡ after_text c text.now) }
    ensures whole { ChangesCurrent (D.known door.old) (D.known door.new)
        (λ c _. is_ok result ≡ nat_le (length text.now) c.room) }
{
    let mut at = 0;
    while at < text.len() {
        let count = door.write(&text[at..])?;
        if count == 0 {
            return Err(DoorFault::Failed);
        }
        at += count;
    }
    Ok(())
}
