//! Reads that fail, of imports into an office in a database. What was complete before comes first,
//! no read is made again, and the import leaves nothing.

use crate::offices::made;
use std::alloc::Global;
use std::io::ErrorKind;
use std::test::*;
use tally_core::Keeper;
use tally_test_scripts::{Failing, TWIN_TOWN, check_answers, failing_reads, text_of_import_from};

/// Fails where an import of a text whose reads fail this many times is answered otherwise, or where
/// a return is recorded then. 8 is NoReturn.
fn check_import<K: Keeper>(
    alloc: Global,
    office: &mut K,
    (front, failures, back): (&str, u32, &str),
    wanted: &str,
) -> Result<(), Fail> {
    let reader = Failing {
        front: front.as_bytes(),
        failures,
        kind: ErrorKind::Interrupted,
        back: back.as_bytes(),
    };
    let got = text_of_import_from(alloc, office, reader)?;
    if got.as_str() != wanted {
        return Err(Fail::from(got));
    }
    check_answers(alloc, office, "return s1 = refused 8")
}

#[test]
fn imports_whose_reads_fail_once_or_for_ever(rt: HostRuntime) -> Result<(), Fail> {
    let alloc = rt.alloc();
    let mut office = made(alloc, TWIN_TOWN)?;
    for (front, back, wanted) in &failing_reads(alloc)? {
        let front = front.as_str();
        check_import(alloc, &mut office, (front, 1, *back), wanted)?;
        check_import(alloc, &mut office, (front, u32::MAX, *back), wanted)?;
    }
    Ok(())
}
