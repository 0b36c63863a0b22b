//! What the bytes that were read of a message say of it.

ghost use Rattle.std.specs.Prelude.{◌≡◌, ◌≤◌, length, map, take, IfOk, IfErr, MatchResult};
ghost use Rattle.http.specs.Token.{IsToken};
ghost use Rattle.httparse.specs.Spans.{IsRequestWithin, IsRequestOf, span_bytes, header_bytes};
ghost use Rattle.tally_desk_message.specs.Message.{head_limit, field_limit, announced_length};
ghost use Rattle.tally_desk_message.specs.internal.Start.{IsStart, IsFaultyStart};
ghost use Rattle.tally_desk_message.specs.declared.message.MessageFault.TheVariants.{Memory};

use crate::fields::body_length;
use crate::message::MessageFault;
use http::Method;
use http::method::MethodError;
use httparse::spans::{HeaderSpan, RequestSpans};
use std::alloc::Global;

/// The start of a message: what its head says, and the bytes of its body that came with it.
#[derive(Drop)]
pub(crate) struct Start {
    pub(crate) method: Method,
    pub(crate) target: Vec<u8>,
    pub(crate) length: usize,
    pub(crate) body: Vec<u8>,
}

/// The method that a head names.
fn method_of(alloc: Global, name: &[u8]) -> Result<Method, MessageFault>
    requires { IsToken name.now }
    ensures { MatchResult result (λ method. method ≡ name.now) (λ fault. fault ≡ Memory) }
{
    match Method::from_bytes(alloc, name) {
        Ok(method) => Ok(method),
        Err(MethodError::Invalid) => unreachable!(),
        Err(MethodError::OutOfMemory) => Err(MessageFault::Memory),
    }
}

/// How many bytes of body a head announces.
fn length_in(
    bytes: &[u8],
    headers: &[HeaderSpan],
    head: RequestSpans,
) -> Result<usize, MessageFault>
    requires { IsRequestWithin bytes.now headers.now head }
    ensures { result ≡ announced_length (span_bytes bytes.now head.method)
        (map (header_bytes bytes.now) (take head.headers headers.now)) }
{
    body_length(head.method.of(bytes), bytes, &headers[..head.headers])
}

/// The first bytes of a body, up to its length.
fn body_in(alloc: Global, rest: &[u8], length: usize) -> Result<Vec<u8>, MessageFault>
    ensures { MatchResult result (λ body. body.items ≡ take length rest.now)
        (λ fault. fault ≡ Memory) }
{
    let mut body = Vec::with_capacity(alloc, length)?;
    body.extend_from_slice(&rest[..length.min(rest.len())])?;
    Ok(body)
}

/// The content of a whole head and the bytes after it.
pub(crate) fn start_in(
    alloc: Global,
    bytes: &[u8],
    headers: &[HeaderSpan],
    head: RequestSpans,
) -> Result<Start, MessageFault>
    requires within { IsRequestWithin bytes.now headers.now head }
    requires head { IsRequestOf bytes.now headers.now head }
    requires short { length bytes.now ≤ head_limit }
    requires room { length headers.now ≡ field_limit }
    ensures ok { IfOk result (IsStart bytes.now) }
    ensures err { IfErr result (IsFaultyStart bytes.now) }
{
    let length = length_in(bytes, headers, head)?;
    let method = method_of(alloc, head.method.of(bytes))?;
    let target = Vec::from_slice(alloc, head.path.of(bytes))?;
    let body = body_in(alloc, &bytes[head.len..], length)?;
    Ok(Start {
        method,
        target,
        length,
        body,
    })
}
