//! Appending to a text that has room, which takes no memory.

ghost use Rattle.std.specs.Prelude.{◌≡◌, ◌≤◌, ◌+◌, ◌++◌, Some, length, string_bytes, string_len};
ghost use Rattle.std.specs.Prelude.{string_capacity};
ghost use Rattle.tally_import.specs.CountLines.{count_text, first_text, named_number};

use itoa::Buffer;
use tally_returns_rows::{FirstRow, ImportCount};

/// The most bytes of the six lines of an import.
pub const COUNT_ROOM: usize = 128;

/// Appends a piece to a text that has room for it.
pub fn push(text: &mut String, piece: &str)
    requires { string_len text.old + length piece.now ≤ string_capacity text.old }
    ensures bytes { string_bytes text.new ≡ string_bytes text.old ++ piece.now }
    ensures len { string_len text.new ≡ string_len text.old + length piece.now }
    ensures room { string_capacity text.old ≤ string_capacity text.new }
{
    match text.push_str(piece) {
        Ok(()) => {}
        Err(_) => unreachable!(),
    }
}

/// Appends a line of a name and a number to a text that has room for it.
pub fn push_number(text: &mut String, name: &str, number: u32)
    requires { string_len text.old + length name.now + 12 ≤ string_capacity text.old }
    ensures bytes { string_bytes text.new
        ≡ string_bytes text.old ++ named_number name.now number }
    ensures len { string_len text.new ≤ string_len text.old + length name.now + 12 }
    ensures room { string_capacity text.old ≤ string_capacity text.new }
{
    let mut digits = Buffer::new();
    push(text, name);
    push(text, " ");
    push(text, digits.format(number));
    push(text, "\n");
}

/// Appends the six lines of an import to a text that has room for them.
pub fn push_count(text: &mut String, count: &ImportCount)
    requires { string_len text.old + COUNT_ROOM ≤ string_capacity text.old }
    ensures bytes { string_bytes text.new ≡ string_bytes text.old ++ count_text count.now }
    ensures len { string_len text.new ≤ string_len text.old + COUNT_ROOM }
    ensures room { string_capacity text.old ≤ string_capacity text.new }
{
    push_number(text, "lodged", count.lodged);
    push_number(text, "same", count.same);
    push_number(text, "differs", count.differs);
    push_number(text, "refused", count.refused);
    push_number(text, "bad", count.bad);
    push_first(text, count.first);
}

fn push_first(text: &mut String, first: Option<FirstRow>)
    requires { string_len text.old + 32 ≤ string_capacity text.old }
    ensures bytes { string_bytes text.new ≡ string_bytes text.old ++ first_text first }
    ensures len { string_len text.new ≤ string_len text.old + 32 }
    ensures room { string_capacity text.old ≤ string_capacity text.new }
{
    match first {
        Some(first) => push_row(text, first),
        None => push(text, "first -\n"),
    }
}

fn push_row(text: &mut String, first: FirstRow)
    requires { string_len text.old + 32 ≤ string_capacity text.old }
    ensures bytes { string_bytes text.new
        ≡ string_bytes text.old ++ first_text (Some first) }
    ensures len { string_len text.new ≤ string_len text.old + 32 }
    ensures room { string_capacity text.old ≤ string_capacity text.new }
{
    let mut digits = Buffer::new();
    push(text, "first ");
    push(text, digits.format(first.row));
    push(text, " ");
    push(text, digits.format(first.number));
    push(text, "\n");
}
