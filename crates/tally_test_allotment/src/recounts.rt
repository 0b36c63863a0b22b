//! The text of a recount, byte for byte.

use crate::answers::fault_text;
use std::alloc::Global;
use std::test::*;
use tally_report_allotment::{Recount, recount_text};
use tally_test_scripts::{MORE_STATIONS, TWIN_TOWN, counts, setup, twin_town};

const ONE_STATION: &str = "RECOUNT c1 Twin Town
stations 1 counted 1 without 0
passed 2
method dhondt seats 3
threshold 0 base valid rule fixed
lot -
valid 30 blank 0 spoiled 0
A                         10   33.33 in      1          11 Alpha
B                         20   66.66 in      2          10 Beta
total                     30                 3
next B
";

// Without its only return no list is eligible.
const ALONE: &str = "RECOUNT c1 Twin Town
stations 1 counted 1 without 0
passed 2
method dhondt seats 3
threshold 0 base valid rule fixed
lot -
valid 30 blank 0 spoiled 0
A                         10   33.33 in      1          11 Alpha
B                         20   66.66 in      2          10 Beta
total                     30                 3
next B
decisive s1
";

// Without s1 it is 6 to 10, without s2 11 to 6, without s3 15 to 14.
const CLOSE: &str = "RECOUNT c1 Twin Town
stations 3 counted 3 without 0
passed 0
method dhondt seats 1
threshold 0 base valid rule fixed
lot -
valid 31 blank 0 spoiled 3
A                         16   51.61 in      1           - Alpha
B                         15   48.38 in      0           2 Beta
total                     31                 1
next B
decisive s1
";

// Without s2 it is 1 to 1: a lot might leave the seat where it is.
const LEFT_OUT: &str = "RECOUNT c1 Twin Town
stations 3 counted 2 without 1
passed 0
method dhondt seats 1
threshold 0 base valid rule fixed
lot -
valid 16 blank 0 spoiled 2
A                          6   37.50 in      0           5 Alpha
B                         10   62.50 in      1           - Beta
total                     16                 1
next A
";

// The returns, the rows that were passed, whether decisive stations are asked for, and the text or
// the fault: of three seats and one station, and of one seat and three stations.
const OF_ONE: [(&str, u32, bool, &str); 2] = [
    ("10,20 0 0", 2, false, ONE_STATION),
    ("10,20 0 0", 2, true, ALONE),
];

const OF_THREE: [(&str, u32, bool, &str); 3] = [
    ("10,5 0 1; 5,9 0 1; 1,1 0 1", 0, true, CLOSE),
    ("-; 5,9 0 1; 1,1 0 1", 0, true, LEFT_OUT),
    ("-; -; -", 0, true, "no list is eligible"),
];

#[test]
fn the_texts_of_recounts(rt: HostRuntime) -> Result<(), Fail> {
    let alloc = rt.alloc();
    for (line, passed, decisive, want) in OF_ONE {
        let text = text_of(alloc, TWIN_TOWN, line, passed, decisive)?;
        assert!(rt; text.as_str() == want, "{line}");
    }
    let mut three = twin_town(alloc, "dhondt", 1)?;
    three.push_str(MORE_STATIONS)?;
    for (line, passed, decisive, want) in OF_THREE {
        let text = text_of(alloc, three.as_str(), line, passed, decisive)?;
        assert!(rt; text.as_str() == want, "{line}");
    }
    Ok(())
}

/// The text for the first constituency of a setup and the returns of a line, or the fault.
fn text_of(
    alloc: Global,
    text: &str,
    line: &str,
    passed: u32,
    decisive: bool,
) -> Result<String, Fail> {
    let setup = setup(alloc, text)?;
    let con = setup.cons().first().ok_or("no constituency")?;
    let recount = recount_of(alloc, line, passed, decisive)?;
    if !recount.fits(con) {
        return Err(Fail::from("no recount"));
    }
    match recount_text(alloc, con, &recount) {
        Ok(text) => Ok(text),
        Err(fault) => Ok(fault_text(alloc, fault)?),
    }
}

/// The recount of a line such as `10,5 0 1; -`: of each station the votes for each list, the blank
/// and the spoiled votes, or a dash where it is left out.
fn recount_of(alloc: Global, line: &str, passed: u32, decisive: bool) -> Result<Recount, Fail> {
    let mut returns = Vec::new(alloc);
    let mut without = 0u32;
    for station in line.split("; ") {
        if station == "-" {
            without = without.saturating_add(1);
            returns.push(None)?;
        } else {
            returns.push(Some(counts(alloc, station)?))?;
        }
    }
    Ok(Recount {
        returns,
        without,
        passed,
        lot: Vec::new(alloc),
        awards: false,
        decisive,
    })
}
