//! Checks of a text from a reader that gives few bytes at a time or fails, and into a writer that
//! fails. What a text comes to is shown on the program, in `tests/program/test_check.py`.

use crate::writers::Room;
use std::alloc::{AllocError, Global};
use std::io::ErrorKind;
use std::test::Fail;
use tally_import::{CheckFault, Sep};
use tally_import_check::check_csv;
use tally_test_scripts::{HEADER, Pieces};

const RETURNS: &[u8] = b"\
station,slip,blank,spoiled,A,B
s1,p1,2,1,50,40
s2,p2,0,0,30,60
s1,p1,2,1,50,40
s2,p2,0,0,31,60
s3,p3,0,0,x,5
s4,p4,0,0,900000,200000
";

const CHECKED: &[u8] = b"\
lodged 2
same 1
differs 1
refused 1
bad 1
first 4 7
blank 2
spoiled 1
A 80
B 100
row 4 7 differs s2
row 5 0 bad_number A
row 6 6 too_many_votes s4
";

/// Whether the check of what a reader gives writes just this, with this fault after it or none.
fn comes_to(
    alloc: Global,
    mut reader: Pieces,
    sep: Sep,
    text: &[u8],
    fault: Option<CheckFault>,
) -> bool {
    let mut output = Vec::new(alloc);
    let found = check_csv(alloc, &mut reader, &mut output, sep, true).err();
    output.as_slice() == text && found == fault
}

/// Whether a read that fails after this text is answered so, however few bytes come at a time.
fn fails_after(alloc: Global, text: &[u8], sep: Sep, fault: CheckFault) -> bool {
    for (piece, kind) in [
        (1, ErrorKind::BrokenPipe),
        (2, ErrorKind::Interrupted),
        (7, ErrorKind::BrokenPipe),
        (4096, ErrorKind::BrokenPipe),
    ] {
        let reader = Pieces {
            text,
            piece,
            failure: Some(kind),
        };
        if !comes_to(alloc, reader, sep, b"", Some(fault)) {
            return false;
        }
    }
    true
}

#[test]
fn reads_of_few_bytes(rt: HostRuntime) {
    for piece in [1, 2, 7, 4096] {
        let reader = Pieces {
            text: RETURNS,
            piece,
            failure: None,
        };
        assert!(rt; comes_to(rt.alloc(), reader, Sep::Comma, CHECKED, None));
    }
}

#[test]
fn a_read_that_fails_at_any_byte(rt: HostRuntime) {
    for came in 0..=RETURNS.len() {
        let front = &RETURNS[..came];
        assert!(rt; fails_after(rt.alloc(), front, Sep::Comma, CheckFault::Read));
        // with semicolons the first line is not a header, once its end has come
        let other = if came < HEADER.len() {
            CheckFault::Read
        } else {
            CheckFault::BadHeader
        };
        assert!(rt; fails_after(rt.alloc(), front, Sep::Semicolon, other));
    }
}

#[test]
fn a_read_that_fails_after_20_000_rows(rt: HostRuntime) -> Result<(), Fail> {
    let mut text = Vec::new(rt.alloc());
    text.extend_from_slice(HEADER.as_bytes())?;
    for _row in 0..20_000 {
        text.extend_from_slice(b"x\n")?;
    }
    text.push(b'x')?;
    // a row that a read cuts off is not looked at
    assert!(rt; fails_after(rt.alloc(), &text, Sep::Comma, CheckFault::Read));
    text.push(b'\n')?;
    assert!(rt; fails_after(rt.alloc(), &text, Sep::Comma, CheckFault::TooLong));
    Ok(())
}

// Whether the check of the example into a writer of so much room, which then fails or takes
// nothing, leaves there what there is room for, and answers whether that was all.
fn fills_room(alloc: Global, left: usize, fails: bool) -> bool {
    let mut reader = RETURNS;
    let mut writer = Room {
        taken: Vec::new(alloc),
        left,
        fails,
    };
    let answer = check_csv(alloc, &mut reader, &mut writer, Sep::Comma, true);
    // a writer that fails once it is full fails to flush too
    let wanted = if left == CHECKED.len() && !fails {
        Ok(())
    } else {
        Err(CheckFault::Write)
    };
    let taken = writer.taken.as_slice();
    taken.len() == left && CHECKED.starts_with(taken) && answer == wanted
}

#[test]
fn a_write_that_fails_or_takes_nothing_at_any_byte(rt: HostRuntime) {
    for left in 0..=CHECKED.len() {
        for fails in [true, false] {
            assert!(rt; fills_room(rt.alloc(), left, fails), "at {left}");
        }
    }
}
