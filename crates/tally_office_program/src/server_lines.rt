//! The lines of a server: one when it listens, and one when it has ended.

ghost use Rattle.std.specs.Prelude.{◌≡◌, ◌≤◌, ◌+◌, ◌++◌, string_bytes, string_len, string_capacity};
ghost use Rattle.tally_office_program.specs.Served.{listening_line, served_line};

use itoa::Buffer;
use tally_import::room::push;

/// The most bytes of the line of a server that listens.
pub(crate) const LISTENING_ROOM: usize = 64;

/// The most bytes of the line of a server that has ended.
pub(crate) const SERVED_ROOM: usize = 64;

/// Appends where a server listens and for how many connections to a text that has the room. It
/// takes no memory.
pub(crate) fn listening_text(text: &mut String, port: u16, count: u32)
    requires { string_len text.old + LISTENING_ROOM ≤ string_capacity text.old }
    ensures { string_bytes text.new ≡ string_bytes text.old ++ listening_line port count }
{
    let mut digits = Buffer::new();
    push(text, "listening on 127.0.0.1:");
    push(text, digits.format(port));
    push(text, " for ");
    push(text, digits.format(count));
    push(text, " connections\n");
}

/// Appends how many connections were answered and how many failed to a text that has the room. It
/// takes no memory.
pub(crate) fn served_text(text: &mut String, answered: u32, failed: u32)
    requires { string_len text.old + SERVED_ROOM ≤ string_capacity text.old }
    ensures { string_bytes text.new ≡ string_bytes text.old ++ served_line answered failed }
{
    let mut digits = Buffer::new();
    push(text, "answered ");
    push(text, digits.format(answered));
    push(text, " failed ");
    push(text, digits.format(failed));
    push(text, "\n");
}
