//! Codes: their order, and how they are written.

use std::test::Fail;
use tally_setup::Code;

/// Whether one text is a code, another is one, and the first comes before the second.
fn is_before(first: &str, second: &str) -> bool {
    match (Code::new(first.as_bytes()), Code::new(second.as_bytes())) {
        (Some(first), Some(second)) => first < second,
        _ => false,
    }
}

#[test]
fn codes_are_in_the_order_of_their_bytes_and_case_counts(rt: HostRuntime) {
    let rising = [
        "-", "0", "10", "9", "A", "AA", "B", "Z", "_", "a", "aA", "b",
    ];
    for (left, first) in rising.into_iter().enumerate() {
        for (right, second) in rising.into_iter().enumerate() {
            assert!(rt; is_before(first, second) == (left < right));
        }
    }
    assert!(rt; Code::new(b"").is_none() && Code::new(b"s 1").is_none());
}

#[test]
fn codes_are_written_as_they_are_and_padded_as_asked(rt: HostRuntime) -> Result<(), Fail> {
    let code = Code::new(b"s-1").ok_or("s-1 is a code")?;
    let text = format!(in rt.alloc(); "{code:<5}|{code:>5}|{code:?}")?;
    assert!(rt; text.as_str() == "s-1  |  s-1|\"s-1\"");
    assert!(rt; code.as_str() == "s-1" && code.as_bytes() == b"s-1".as_slice());
    Ok(())
}
