//! The count of an import.

use std::test::*;
use tally_core::{FirstRow, ImportCount, LodgeReply, Refusal};

/// The count of a row that was lodged, one that was recorded already, and one that differs.
fn counted() -> ImportCount {
    let mut count = ImportCount::new();
    count.add(1, Some(Ok(LodgeReply::Lodged { rev: 1 })));
    count.add(2, Some(Ok(LodgeReply::Same { rev: 1 })));
    count.add(3, Some(Err(Refusal::Differs { rev: 2 })));
    count
}

fn wanted() -> ImportCount {
    ImportCount {
        lodged: 1,
        same: 1,
        differs: 1,
        refused: 0,
        bad: 0,
        first: Some(FirstRow { row: 3, number: 7 }),
    }
}

#[test]
fn the_count_of_an_import(rt: HostRuntime) {
    assert!(rt; counted() == wanted());
}
