//! The answer to an import.

ghost use Rattle.std.specs.Prelude.{◌≡◌, ◌≤◌, ◌+◌, ◌++◌, [], vec_len, vec_capacity};
ghost use Rattle.tally_desk_answer.specs.Import.{counts_before, counts_after, first_value};
ghost use Rattle.tally_desk_answer.specs.Import.{import_body};
ghost use Rattle.tally_desk_answer.specs.Import.{import_text};

use crate::answer::write_answer;
use crate::outcome::{ANSWER_ROOM, BODY_ROOM};
use crate::push::{push, push_around};
use crate::status::{AnswerStatus, BodyType};
use tally_returns_rows::{FirstRow, ImportCount};

fn push_before(out: &mut Vec<u8>, count: &ImportCount)
    requires { vec_len out.old + 64 ≤ vec_capacity out.old }
    ensures items { out.new.items ≡ out.old.items ++ counts_before count.now }
    ensures len { vec_len out.new ≤ vec_len out.old + 64 }
    ensures room { vec_capacity out.old ≤ vec_capacity out.new }
{
    push_around(out, b"{\"bad\":", count.bad, b",\"differs\":");
    push_around(out, b"", count.differs, b",\"first\":");
}

fn push_first(out: &mut Vec<u8>, first: &Option<FirstRow>)
    requires { vec_len out.old + 32 ≤ vec_capacity out.old }
    ensures items { out.new.items ≡ out.old.items ++ first_value first.now }
    ensures len { vec_len out.new ≤ vec_len out.old + 32 }
    ensures room { vec_capacity out.old ≤ vec_capacity out.new }
{
    match first {
        Some(first) => {
            push_around(out, b"[", first.row, b",");
            push_around(out, b"", first.number, b"]");
        }
        None => push(out, b"null"),
    }
}

fn push_after(out: &mut Vec<u8>, count: &ImportCount)
    requires { vec_len out.old + 96 ≤ vec_capacity out.old }
    ensures items { out.new.items ≡ out.old.items ++ counts_after count.now }
    ensures len { vec_len out.new ≤ vec_len out.old + 96 }
    ensures room { vec_capacity out.old ≤ vec_capacity out.new }
{
    push_around(
        out,
        b",\"lodged\":",
        count.lodged,
        b",\"ok\":\"import\",\"refused\":",
    );
    push_around(out, b"", count.refused, b",\"same\":");
    push_around(out, b"", count.same, b"}");
}

fn push_import(out: &mut Vec<u8>, count: &ImportCount)
    requires { vec_len out.old + 192 ≤ vec_capacity out.old }
    ensures items { out.new.items ≡ out.old.items ++ import_body count.now }
    ensures len { vec_len out.new ≤ vec_len out.old + 192 }
{
    push_before(out, count);
    push_first(out, &count.first);
    push_after(out, count);
}

/// Writes the answer to an import by way of its body, into buffers that are empty and have
/// `ANSWER_ROOM` and `BODY_ROOM`. It takes no memory.
pub fn write_import(out: &mut Vec<u8>, body: &mut Vec<u8>, count: &ImportCount)
    requires empty { out.old.items ≡ [] }
    requires no_body { body.old.items ≡ [] }
    requires room { ANSWER_ROOM ≤ vec_capacity out.old }
    requires body_room { BODY_ROOM ≤ vec_capacity body.old }
    ensures { out.new.items ≡ import_text count.now }
{
    push_import(body, count);
    write_answer(out, AnswerStatus::Done, BodyType::Json, body);
}
