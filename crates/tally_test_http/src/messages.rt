//! Which message or fault the bytes of a connection are.

use crate::pieces::{Pieces, reading, reading_from};
use std::alloc::{AllocError, Global};
use std::test::Fail;

const HEAD: &[u8] = b"POST /station/s1/lodge HTTP/1.1\r\nContent-Length: 51\r\n\r\n";

const BODY: &[u8] = b"{\"slip\":\"p1\",\"votes\":[50,40],\"blank\":2,\"spoiled\":1}";

const READ: &str =
    "POST /station/s1/lodge {\"slip\":\"p1\",\"votes\":[50,40],\"blank\":2,\"spoiled\":1}";

// Two parts of a text, one after the other.
fn joined(alloc: Global, first: &[u8], second: &[u8]) -> Result<Vec<u8>, AllocError> {
    let mut text = Vec::from_slice(alloc, first)?;
    text.extend_from_slice(second)?;
    Ok(text)
}

// What each prefix of the worked message is, where it comes this many bytes at a time and then
// ends or fails.
fn is_cut_right(alloc: Global, size: usize, fails: bool) -> Result<bool, Fail> {
    let text = joined(alloc, HEAD, BODY)?;
    for cut in 0..text.len() {
        let expected = if fails {
            "Read"
        } else if cut < HEAD.len() {
            "BadHead"
        } else {
            "EndedEarly"
        };
        if reading(alloc, &text[..cut], size, fails)?.as_str() != expected {
            return Ok(false);
        }
    }
    Ok(reading(alloc, &text, size, fails)?.as_str() == READ)
}

#[test]
fn a_message_is_the_same_however_its_bytes_are_cut(rt: HostRuntime) -> Result<(), Fail> {
    let alloc = rt.alloc();
    for size in [1, 2, 7, 4_096] {
        assert!(rt;
            is_cut_right(alloc, size, false)?,
            "{size} bytes, then the end"
        );
        assert!(rt;
            is_cut_right(alloc, size, true)?,
            "{size} bytes, then a failure"
        );
    }
    Ok(())
}

// Heads with their bodies, and what they are.
const ROWS: [(&[u8], &str); 17] = [
    (b"", "BadHead"),
    (b"GET /progress HTTP/1.1\r\n\r\n", "GET /progress "),
    (b"\r\n\n\r\nGET /progress HTTP/1.1\n\n", "GET /progress "),
    (
        b"GET /progress HTTP/1.1\r\n\r\nGET /progress HTTP/1.1\r\n\r\n",
        "GET /progress ",
    ),
    (
        b"GET / HTTP/1.1\r\ncontent-LENGTH: \t02 \r\n\r\nabc",
        "GET / ab",
    ),
    (b"GET / HTTP/2.0\r\n\r\n", "BadHead"),
    (b"GET / HTTP/1.1\r\n a: b\r\n\r\n", "BadHead"),
    (b"POST / HTTP/1.1\r\n\r\n", "LengthRequired"),
    (
        b"POST / HTTP/1.1\r\nContent-Length: 1\r\nTransfer-Encoding: chunked\r\n\r\n1",
        "LengthRequired",
    ),
    (
        b"GET / HTTP/1.1\r\ntransfer-encoding: chunked\r\n\r\n",
        "LengthRequired",
    ),
    (b"POST / HTTP/1.1\r\nContent-Length: x\r\n\r\n", "BadLength"),
    (
        b"POST / HTTP/1.1\r\nContent-Length: +1\r\n\r\n1",
        "BadLength",
    ),
    (
        b"POST / HTTP/1.1\r\nContent-Length: 1\r\nContent-Length: 1\r\n\r\n1",
        "BadLength",
    ),
    (
        b"POST / HTTP/1.1\r\nContent-Length: 0000000000000000001\r\n\r\n1",
        "BadLength",
    ),
    (
        b"POST / HTTP/1.1\r\nContent-Length: 000000000000000001\r\n\r\n1",
        "POST / 1",
    ),
    (
        b"POST / HTTP/1.1\r\nContent-Length: 1048577\r\n\r\n",
        "BodyTooLong",
    ),
    (
        b"POST / HTTP/1.1\r\nContent-Length: 999999999999999999\r\n\r\n",
        "BodyTooLong",
    ),
];

#[test]
fn heads_and_lengths_have_their_messages_and_faults(rt: HostRuntime) -> Result<(), Fail> {
    let alloc = rt.alloc();
    for (text, expected) in ROWS {
        assert!(rt; reading(alloc, text, 4_096, false)?.as_str() == expected);
    }
    Ok(())
}

// Texts after which a read fails, and what they are.
const STOPPED: [(&[u8], &str); 6] = [
    (b"", "Read"),
    (b"GET /progress HTTP/2.0\r\n", "Read"),
    (b"\x16\x03\x01\x02\x00", "Read"),
    (b"GET /progress HTTP/2.0\r\n\r\n", "BadHead"),
    (b"POST / HTTP/1.1\r\nContent-Length: 2\r\n\r\n1", "Read"),
    (b"GET /progress HTTP/1.1\r\n\r\n", "GET /progress "),
];

#[test]
fn a_failed_read_is_one_whatever_came_before(rt: HostRuntime) -> Result<(), Fail> {
    for size in [1, 4_096] {
        for (text, expected) in STOPPED {
            assert!(rt; reading(rt.alloc(), text, size, true)?.as_str() == expected);
        }
    }
    Ok(())
}

// A head of this many bytes, most of them in the value of a field.
fn long_head(alloc: Global, size: usize) -> Result<Vec<u8>, AllocError> {
    let mut text = Vec::from_slice(alloc, b"GET / HTTP/1.1\r\na: ")?;
    for _ in text.len() + 4..size {
        text.push(b'b')?;
    }
    text.extend_from_slice(b"\r\n\r\n")?;
    Ok(text)
}

// A head with this many fields.
fn many_fields(alloc: Global, count: u32) -> Result<Vec<u8>, AllocError> {
    let mut text = Vec::from_slice(alloc, b"GET / HTTP/1.1\r\n")?;
    for _ in 0..count {
        text.extend_from_slice(b"a: b\r\n")?;
    }
    text.extend_from_slice(b"\r\n")?;
    Ok(text)
}

// What heads at the limits and beyond them are, where they come this many bytes at a time.
fn limits_of_heads(alloc: Global, size: usize) -> Result<bool, Fail> {
    let whole = long_head(alloc, 16_384)?;
    let long = long_head(alloc, 16_385)?;
    Ok(
        reading(alloc, &whole, size, false)?.as_str() == "GET / "
            && reading(alloc, &long, size, false)?.as_str() == "HeadTooLong",
    )
}

fn limits_of_fields(alloc: Global, size: usize) -> Result<bool, Fail> {
    let few = many_fields(alloc, 64)?;
    let many = many_fields(alloc, 65)?;
    Ok(
        reading(alloc, &few, size, false)?.as_str() == "GET / "
            && reading(alloc, &many, size, false)?.as_str() == "BadHead",
    )
}

#[test]
fn a_head_has_16384_bytes_and_64_fields_at_most(rt: HostRuntime) -> Result<(), Fail> {
    for size in [1, 4_096] {
        assert!(rt;
            limits_of_heads(rt.alloc(), size)?,
            "{size} bytes at a time"
        );
        assert!(rt;
            limits_of_fields(rt.alloc(), size)?,
            "{size} bytes at a time"
        );
    }
    Ok(())
}

// A POST that announces 1,048,576 bytes and has this many.
fn long_body(alloc: Global, size: usize) -> Result<Vec<u8>, AllocError> {
    let mut text = Vec::from_slice(alloc, b"POST / HTTP/1.1\r\nContent-Length: 1048576\r\n\r\n")?;
    for _ in 0..size {
        text.push(b'b')?;
    }
    Ok(text)
}

#[test]
fn a_body_has_1048576_bytes_at_most(rt: HostRuntime) -> Result<(), Fail> {
    let alloc = rt.alloc();
    let whole = long_body(alloc, 1_048_576)?;
    assert!(rt; reading(alloc, &whole, 4_096, false)?.len() == 1_048_583);
    let cut = long_body(alloc, 1_048_575)?;
    assert!(rt; reading(alloc, &cut, 4_096, false)?.as_str() == "EndedEarly");
    Ok(())
}

#[test]
fn a_head_without_a_body_is_read_no_further(rt: HostRuntime) -> Result<(), Fail> {
    let mut door = Pieces {
        text: b"\r\nGET / HTTP/1.1\na: b\r\n\nmore",
        size: 1,
        fails: false,
    };
    assert!(rt; reading_from(rt.alloc(), &mut door)?.as_str() == "GET / ");
    assert!(rt; door.text == b"more".as_slice());
    Ok(())
}
