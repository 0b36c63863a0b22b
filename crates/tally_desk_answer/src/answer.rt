//! The head of an answer, and its body.

ghost use Rattle.std.specs.Prelude.{◌≡◌, ◌≤◌, ◌+◌, ◌++◌, [], IfOk, length, vec_len};
ghost use Rattle.std.specs.Prelude.{vec_capacity};
ghost use Rattle.tally_desk_answer.specs.Answer.{status_line, type_line, length_line, fields_text};
ghost use Rattle.tally_desk_answer.specs.Answer.{head_text, answer_text};

use crate::push::{push, push_around};
use crate::status::{AnswerStatus, BodyType, allow_of, code_of, name_of, phrase_of};
use itoa::Buffer;
use std::alloc::{AllocError, Global};

/// The room that the head of an answer needs.
pub const HEAD_ROOM: usize = 256;

fn push_status(out: &mut Vec<u8>, status: AnswerStatus)
    requires { vec_len out.old + 64 ≤ vec_capacity out.old }
    ensures items { out.new.items ≡ out.old.items ++ status_line status }
    ensures len { vec_len out.new ≤ vec_len out.old + 64 }
    ensures room { vec_capacity out.old ≤ vec_capacity out.new }
{
    push_around(out, b"HTTP/1.1 ", u32::from(code_of(status).as_u16()), b" ");
    push(out, phrase_of(status).as_bytes());
    push(out, b"\r\n");
}

fn push_type(out: &mut Vec<u8>, body: BodyType)
    requires { vec_len out.old + 64 ≤ vec_capacity out.old }
    ensures items { out.new.items ≡ out.old.items ++ type_line body }
    ensures len { vec_len out.new ≤ vec_len out.old + 64 }
    ensures room { vec_capacity out.old ≤ vec_capacity out.new }
{
    push(out, b"Content-Type: ");
    push(out, name_of(body));
    push(out, b"\r\n");
}

fn push_length(out: &mut Vec<u8>, length: usize)
    requires { vec_len out.old + 40 ≤ vec_capacity out.old }
    ensures items { out.new.items ≡ out.old.items ++ length_line length }
    ensures len { vec_len out.new ≤ vec_len out.old + 40 }
    ensures room { vec_capacity out.old ≤ vec_capacity out.new }
{
    let mut digits = Buffer::new();
    push(out, b"Content-Length: ");
    push(out, digits.format(length).as_bytes());
    push(out, b"\r\n");
}

fn push_fields(out: &mut Vec<u8>, status: AnswerStatus, body: BodyType, length: usize)
    requires { vec_len out.old + 152 ≤ vec_capacity out.old }
    ensures items { out.new.items ≡ out.old.items ++ fields_text status body length }
    ensures len { vec_len out.new ≤ vec_len out.old + 152 }
    ensures room { vec_capacity out.old ≤ vec_capacity out.new }
{
    push_type(out, body);
    push_length(out, length);
    push(out, allow_of(status));
    push(out, b"Connection: close\r\n\r\n");
}

fn push_head(out: &mut Vec<u8>, status: AnswerStatus, body: BodyType, length: usize)
    requires { vec_len out.old + HEAD_ROOM ≤ vec_capacity out.old }
    ensures items { out.new.items ≡ out.old.items ++ head_text status body length }
    ensures len { vec_len out.new ≤ vec_len out.old + HEAD_ROOM }
    ensures room { vec_capacity out.old ≤ vec_capacity out.new }
{
    push_status(out, status);
    push_fields(out, status, body, length);
}

/// Writes an answer of this status, type and body into a buffer that is empty and has room for it:
/// that of the body and `HEAD_ROOM`. It takes no memory.
pub fn write_answer(out: &mut Vec<u8>, status: AnswerStatus, body: BodyType, text: &[u8])
    requires empty { out.old.items ≡ [] }
    requires room { length text.now + HEAD_ROOM ≤ vec_capacity out.old }
    ensures { out.new.items ≡ answer_text status body text.now }
{
    push_head(out, status, body, text.len());
    push(out, text);
}

/// An answer of this status, type and body.
pub fn answer_of(
    alloc: Global,
    status: AnswerStatus,
    body: BodyType,
    text: &[u8],
) -> Result<Vec<u8>, AllocError>
    ensures { IfOk result (λ out. out.items ≡ answer_text status body text.now) }
{
    let mut out = Vec::with_capacity(alloc, text.len() + HEAD_ROOM)?;
    write_answer(&mut out, status, body, text);
    Ok(out)
}
