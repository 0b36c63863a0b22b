//! The answers to imports.

use crate::lines::{cut, number};
use std::alloc::Global;
use std::test::Fail;
use tally_desk_answer::{ANSWER_ROOM, BODY_ROOM, write_import};
use tally_returns_rows::{FirstRow, ImportCount};

// Rows that are bad, differ, were lodged, were refused and were there already; then the first row
// that was neither lodged nor there already, with the number of its refusal.
pub(crate) const IMPORTS: &str =
    r#"import 0 1 0 0 2: 2 7 = 200 OK|81|{"bad":0,"differs":1,"first":[2,7],"lodged":0,"ok":"import","refused":0,"same":2}
import 0 0 3 0 0: = 200 OK|80|{"bad":0,"differs":0,"first":null,"lodged":3,"ok":"import","refused":0,"same":0}
import 2 0 1 0 0: 2 0 = 200 OK|81|{"bad":2,"differs":0,"first":[2,0],"lodged":1,"ok":"import","refused":0,"same":0}
import 11 22 333 444 555: 6 21 = 200 OK|90|{"bad":11,"differs":22,"first":[6,21],"lodged":333,"ok":"import","refused":444,"same":555}
import 4294967295 4294967295 4294967295 4294967295 4294967295: 4294967295 4294967295 = 200 OK|144|{"bad":4294967295,"differs":4294967295,"first":[4294967295,4294967295],"lodged":4294967295,"ok":"import","refused":4294967295,"same":4294967295}"#;

fn imported(line: &str) -> ImportCount {
    let (counts, first) = cut(line, ":");
    let (bad, counts) = cut(counts, " ");
    let (differs, counts) = cut(counts, " ");
    let (lodged, counts) = cut(counts, " ");
    let (refused, same) = cut(counts, " ");
    ImportCount {
        bad: number(bad),
        differs: number(differs),
        first: first_other(first.trim()),
        lodged: number(lodged),
        refused: number(refused),
        same: number(same),
    }
}

fn first_other(text: &str) -> Option<FirstRow> {
    let (row, refused) = text.split_once(" ")?;
    Some(FirstRow {
        row: number(row),
        number: number(refused),
    })
}

pub(crate) fn import_answer(alloc: Global, line: &str) -> Result<String, Fail> {
    let mut out = Vec::with_capacity(alloc, ANSWER_ROOM)?;
    let mut body = Vec::with_capacity(alloc, BODY_ROOM)?;
    write_import(&mut out, &mut body, &imported(line));
    Ok(String::from_utf8_lossy(alloc, &out)?)
}
