//! Reading a head.

ghost use Rattle.std.specs.Prelude.{◌≡◌, ◌≤◌, true, length, take, IfOk, IfErr, IfSome, IfNone};
ghost use Rattle.httparse.specs.Grammar.{HasNoRequest};
ghost use Rattle.httparse.specs.Spans.{IsRequestWithin, IsRequestOf, RequestOverflows};
ghost use Rattle.tally_desk_message.specs.Connection.{ChangesCurrent};
ghost use Rattle.tally_desk_message.specs.Message.{head_limit, field_limit, TakesAtMost};
ghost use Rattle.tally_desk_message.specs.internal.Lines.{lines_of};
ghost use Rattle.tally_desk_message.specs.internal.Reading.{ReadsHead};
ghost use Rattle.tally_desk_message.specs.declared.message.MessageFault.TheVariants.{BadHead};

use crate::door::Door;
use crate::input::{Input, read_more};
use crate::lines::Lines;
use crate::message::MessageFault;
use httparse::Status;
use httparse::spans::{HeaderSpan, RequestSpans, parse_request};

/// The most bytes of a head.
pub(crate) const HEAD_LIMIT: usize = 16_384;

/// The most fields of a head.
pub(crate) const FIELD_LIMIT: usize = 64;

/// The head that the bytes begin with, or none where it is not whole yet.
fn head_in(bytes: &[u8], headers: &mut [HeaderSpan]) -> Result<Option<RequestSpans>, MessageFault>
    requires { length headers.old ≡ field_limit }
    ensures within { IfOk result (λ found. IfSome found (IsRequestWithin bytes.now headers.new)) }
    ensures head { IfOk result (λ found. IfSome found (IsRequestOf bytes.now headers.new)) }
    ensures none { IfOk result (λ found. IfNone found (HasNoRequest bytes.now)) }
    ensures err { IfErr result
        (λ fault. (fault ≡ BadHead) × RequestOverflows field_limit bytes.now) }
{
    match parse_request(bytes, headers) {
        Ok(Status::Complete(head)) => Ok(Some(head)),
        Ok(Status::Partial) => Ok(None),
        Err(_) => Err(MessageFault::BadHead),
    }
}

/// As `head_in`, where the first `before` bytes came earlier: `lines` are theirs, and they begin
/// with no head.
fn head_since(
    bytes: &[u8],
    before: usize,
    lines: &mut Lines,
    headers: &mut [HeaderSpan],
) -> Result<Option<RequestSpans>, MessageFault>
    requires fields { length headers.old ≡ field_limit }
    requires before { before ≤ length bytes.now }
    requires lines { lines.old ≡ lines_of (take before bytes.now) }
    requires no_head { HasNoRequest (take before bytes.now) }
    ensures fields { length headers.new ≡ field_limit }
    ensures within { IfOk result (λ found. IfSome found (IsRequestWithin bytes.now headers.new)) }
    ensures head { IfOk result (λ found. IfSome found (IsRequestOf bytes.now headers.new)) }
    ensures none { IfOk result (λ found. IfNone found (HasNoRequest bytes.now)) }
    ensures lines { IfOk result (λ found. IfNone found (lines.new ≡ lines_of bytes.now)) }
    ensures err { IfErr result
        (λ fault. (fault ≡ BadHead) × RequestOverflows field_limit bytes.now) }
{
    for place in before..bytes.len() {
        if lines.end_with(bytes[place]) {
            if let Some(head) = head_in(bytes, headers)? {
                return Ok(Some(head));
            }
        }
    }
    Ok(None)
}

/// Reads up to the end of the head, and perhaps some of what follows it: the first `count` bytes of
/// the room.
pub(crate) fn read_head<D: Door>(
    door: &mut D,
    room: &mut [u8],
    count: &mut usize,
    headers: &mut [HeaderSpan],
) -> Result<RequestSpans, MessageFault>
    requires connected { D.connected door.old ≡ true }
    requires room { length room.old ≡ head_limit }
    requires empty { count.old ≡ 0 }
    requires fields { length headers.old ≡ field_limit }
    ensures connected { D.connected door.new ≡ true }
    ensures short { count.new ≤ head_limit }
    ensures within { IfOk result (IsRequestWithin (take count.new room.new) headers.new) }
    ensures head { IfOk result (IsRequestOf (take count.new room.new) headers.new) }
    ensures known { ChangesCurrent (D.known door.old) (D.known door.new)
        (ReadsHead result (take count.new room.new)) }
    ensures taken { ChangesCurrent (D.known door.old) (D.known door.new) (TakesAtMost head_limit) }
{
    let mut lines = Lines::new();
    while *count < HEAD_LIMIT {
        let before = *count;
        match read_more(door, room, count) {
            Input::Bytes => {}
            Input::End => return Err(MessageFault::BadHead),
            Input::Failure => return Err(MessageFault::Read),
        }
        if let Some(head) = head_since(&room[..*count], before, &mut lines, headers)? {
            return Ok(head);
        }
    }
    Err(MessageFault::HeadTooLong)
}
