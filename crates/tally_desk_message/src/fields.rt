//! What a head's fields say of the length of its body.

ghost use Rattle.std.specs.Prelude.{◌≡◌, true, length, map, None, is_some, All, IfOk, IfErr};
ghost use Rattle.std.specs.Char.{is_ascii_digit};
ghost use Rattle.std.specs.List.{list_all, list_any};
ghost use Rattle.std.specs.Str.{str_eq_ignore_ascii_case};
ghost use Rattle.httparse.specs.Spans.{IsHeaderWithin, header_bytes};
ghost use Rattle.tally_desk_message.specs.Message.{is_field_named, single_value, is_content_length};
ghost use Rattle.tally_desk_message.specs.Message.{content_length, announced_length};
ghost use Rattle.tally_desk_message.specs.internal.Fields.{SeenAs, values_in};
ghost use Rattle.tally_desk_message.specs.declared.message.MessageFault.TheVariants.{BadLength};

use crate::message::MessageFault;
use httparse::spans::HeaderSpan;

/// The most bytes of a body.
const BODY_LIMIT: u64 = 1_048_576;

/// Whether two names are the same except for the case of ASCII letters.
fn is_same_name(found: &[u8], name: &[u8]) -> bool
    ensures { result ≡ str_eq_ignore_ascii_case found.now name.now }
{
    found.eq_ignore_ascii_case(name)
}

/// Whether a field has this name.
fn has_field(bytes: &[u8], headers: &[HeaderSpan], name: &[u8]) -> bool
    requires { All (IsHeaderWithin (length bytes.now)) headers.now }
    ensures { result
        ≡ list_any (is_field_named name.now) (map (header_bytes bytes.now) headers.now) }
{
    for header in headers {
        if is_same_name(header.name.of(bytes), name) {
            return true;
        }
    }
    false
}

/// The value of a field that may be given once, where it was not given before.
fn first_value<'b>(before: Option<&'b [u8]>, value: &'b [u8]) -> Result<&'b [u8], MessageFault>
    ensures first { IfOk result (λ first. (before.entry ≡ None) × (first.now ≡ value.now)) }
    ensures again { IfErr result
        (λ fault. (is_some before.entry ≡ true) × (fault ≡ BadLength)) }
{
    match before {
        Some(_) => Err(MessageFault::BadLength),
        None => Ok(value),
    }
}

/// The value of a field that may be given once.
fn field_value<'b>(
    bytes: &'b [u8],
    headers: &[HeaderSpan],
    name: &[u8],
) -> Result<Option<&'b [u8]>, MessageFault>
    requires { All (IsHeaderWithin (length bytes.now)) headers.now }
    ensures { SeenAs result (single_value (values_in bytes.now headers.now name.now)) }
{
    let mut found = None;
    for header in headers {
        if is_same_name(header.name.of(bytes), name) {
            found = Some(first_value(found, header.value.of(bytes))?);
        }
    }
    Ok(found)
}

fn is_all_digits(value: &[u8]) -> bool
    ensures { result ≡ list_all is_ascii_digit value.now }
{
    value.iter().all(|b| b.is_ascii_digit())
}

fn is_length(value: &[u8]) -> bool
    ensures { result ≡ is_content_length value.now }
{
    if value.is_empty() || value.len() > 18 {
        return false;
    }
    is_all_digits(value)
}

/// The length that the digits of a value write.
fn length_of(value: &[u8]) -> Result<usize, MessageFault>
    ensures { result ≡ content_length value.now }
{
    if !is_length(value) {
        return Err(MessageFault::BadLength);
    }
    let mut number = 0u64;
    for digit in value {
        number = number * 10 + u64::from(*digit - b'0');
        if number > BODY_LIMIT {
            return Err(MessageFault::BodyTooLong);
        }
    }
    Ok(number as usize)
}

/// How many bytes of body follow a head.
pub(crate) fn body_length(
    method: &[u8],
    bytes: &[u8],
    headers: &[HeaderSpan],
) -> Result<usize, MessageFault>
    requires { All (IsHeaderWithin (length bytes.now)) headers.now }
    ensures { result ≡ announced_length method.now (map (header_bytes bytes.now) headers.now) }
{
    if has_field(bytes, headers, b"transfer-encoding") {
        return Err(MessageFault::LengthRequired);
    }
    match field_value(bytes, headers, b"content-length")? {
        Some(value) => length_of(value),
        None => {
            if method == b"POST".as_slice() {
                Err(MessageFault::LengthRequired)
            } else {
                Ok(0)
            }
        }
    }
}
