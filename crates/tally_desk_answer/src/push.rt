//! Writing into room that is there.

ghost use Rattle.std.specs.Prelude.{◌≡◌, ◌≤◌, ◌+◌, ◌++◌, length, decimal, vec_len, vec_capacity};

use itoa::Buffer;

/// Appends a text, for which there is room.
pub(crate) fn push(out: &mut Vec<u8>, text: &[u8])
    requires { vec_len out.old + length text.now ≤ vec_capacity out.old }
    ensures items { out.new.items ≡ out.old.items ++ text.now }
    ensures len { vec_len out.new ≡ vec_len out.old + length text.now }
    ensures room { vec_capacity out.old ≤ vec_capacity out.new }
{
    match out.extend_from_slice(text) {
        Ok(()) => {}
        Err(_) => unreachable!(),
    }
}

/// Appends a text, a number in decimal and a text.
pub(crate) fn push_around(out: &mut Vec<u8>, before: &[u8], number: u32, after: &[u8])
    requires { vec_len out.old + length before.now + 10 + length after.now
        ≤ vec_capacity out.old }
    ensures items { out.new.items ≡ out.old.items ++ (before.now ++ decimal number ++ after.now) }
    ensures len { vec_len out.new ≤ vec_len out.old + length before.now + 10 + length after.now }
    ensures room { vec_capacity out.old ≤ vec_capacity out.new }
{
    let mut digits = Buffer::new();
    push(out, before);
    push(out, digits.format(number).as_bytes());
    push(out, after);
}
