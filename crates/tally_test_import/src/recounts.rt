//! Returns that are counted again, byte for byte, and what is refused.

use crate::writers::Room;
use std::alloc::Global;
use std::io::{ErrorKind, Read, Write};
use std::test::Fail;
use tally_import_recount::{RecountOptions, RecountTrouble, Sep, recount_csv};
use tally_setup::{Code, Setup};
use tally_test_scripts::{Failing, MORE_STATIONS, RETURNS, TWIN_TOWN, code, setup};

// Two of the three returns are of no station of Twin Town.
const ONE_STATION: &str = "\
RECOUNT c1 Twin Town
stations 1 counted 1 without 0
passed 2
method dhondt seats 3
threshold 0 base valid rule fixed
lot -
valid 30 blank 0 spoiled 0
A                         10   33.33 in      1          11 Alpha
B                         20   66.66 in      2          10 Beta
total                     30                 3
next B
";

// The rows of s2, which is left out and named twice: a return, another one that has too many votes,
// and one that is bad. Of the others: s1, the same again, one that differs, one that is refused,
// and s3.
const ROWS: &str = "\
station,slip,blank,spoiled,A,B
s2,p2,1,0,30,40
s2,p9,0,0,900,40
s2,p2,1,0,x,40
s1,p1,0,0,10,20
s1,p1,0,0,10,20
s1,p2,0,0,10,20
s3,p3,0,0,400,0
s3,p3,0,2,50,60
";

// The quotients are 80 and 40 of B, and 60 of A. A has as many as B, and needs one vote more, at 80
// votes; a third of 180 votes is as much as A has, and goes to the larger list.
const WITHOUT_ONE: &str = "\
RECOUNT c1 Twin Town
stations 3 counted 2 without 1
passed 4
method dhondt seats 3
threshold 0 base valid rule fixed
lot -
valid 140 blank 0 spoiled 2
A                         60   42.85 in      1          21 Alpha
B                         80   57.14 in      2         100 Beta
total                    140                 3
next A
";

// Options of a line such as `s2,s2 B,A`: the stations that are left out, and the lot, or a dash.
fn options_of(alloc: Global, line: &str) -> Result<RecountOptions, Fail> {
    let (without, lot) = line.split_once(" ").unwrap_or((line, "-"));
    Ok(RecountOptions {
        without: given(alloc, without)?,
        lot: given(alloc, lot)?,
        awards: false,
        decisive: false,
        sep: Sep::Comma,
    })
}

fn given(alloc: Global, word: &str) -> Result<Option<String>, Fail> {
    if word == "-" {
        return Ok(None);
    }
    Ok(Some(String::from_str(alloc, word)?))
}

// What is answered of a text: the line of its trouble, or nothing where it was written.
fn recount<R: Read + Drop, W: Write>(
    alloc: Global,
    text: &str,
    line: &str,
    reader: R,
    writer: &mut W,
) -> Result<String, Fail> {
    let setup = setup(alloc, text)?;
    let options = options_of(alloc, line)?;
    match recount_in(alloc, &setup, code("c1")?, &options, reader, writer) {
        Ok(()) => Ok(String::new(alloc)),
        Err(trouble) => Ok(trouble.line(alloc)?),
    }
}

fn recount_in<R: Read + Drop, W: Write>(
    alloc: Global,
    setup: &Setup,
    code: Code,
    options: &RecountOptions,
    reader: R,
    writer: &mut W,
) -> Result<(), RecountTrouble> {
    let Some(con) = setup.con(code) else {
        return Err(RecountTrouble::NoStation(Some(code)));
    };
    recount_csv(alloc, con, options, reader, writer)
}

// What is written of a text, or the line of its trouble, where nothing may be written.
fn check<R: Read + Drop>(
    alloc: Global,
    text: &str,
    line: &'static str,
    reader: R,
    wanted: &str,
) -> Result<(), Fail> {
    let mut output = Vec::new(alloc);
    let trouble = recount(alloc, text, line, reader, &mut output)?;
    if !output.is_empty() && !trouble.is_empty() {
        return Err(Fail::from("something was written with a trouble"));
    }
    output.extend_from_slice(trouble.as_bytes())?;
    if output.as_slice() == wanted.as_bytes() {
        return Ok(());
    }
    Err(Fail::from(line))
}

#[test]
fn rows_that_are_counted_and_passed(rt: HostRuntime) -> Result<(), Fail> {
    let alloc = rt.alloc();
    let three = format!(in alloc; "{TWIN_TOWN}{MORE_STATIONS}")?;
    check(alloc, TWIN_TOWN, "- -", RETURNS.as_bytes(), ONE_STATION)?;
    check(
        alloc,
        three.as_str(),
        "s2,s2 -",
        ROWS.as_bytes(),
        WITHOUT_ONE,
    )
}

// Options, and what is answered of the three returns.
const REFUSED: [(&str, &str); 6] = [
    ("s1,s2 -", "refused: no_station s2\n"),
    ("s9,s2 -", "refused: no_station s9\n"),
    ("s1,,s9 -", "refused: no_station\n"),
    ("s_1.2 -", "refused: no_station\n"),
    ("s1 -", "refused: no_eligible\n"),
    ("- B,A", "refused: wrong_lot\n"),
];

#[test]
fn what_is_refused(rt: HostRuntime) -> Result<(), Fail> {
    let alloc = rt.alloc();
    for (line, wanted) in REFUSED {
        check(alloc, TWIN_TOWN, line, RETURNS.as_bytes(), wanted)?;
    }
    let other = "station,slip,blank,spoiled,B,A\n";
    check(
        alloc,
        TWIN_TOWN,
        "- -",
        other.as_bytes(),
        "refused: bad_header\n",
    )?;
    let even = "station,slip,blank,spoiled,A,B\ns1,p1,0,0,20,20\n";
    check(
        alloc,
        TWIN_TOWN,
        "- -",
        even.as_bytes(),
        "refused: lot_missing 1 A B\n",
    )
}

#[test]
fn a_read_that_fails_and_a_writer_that_is_full(rt: HostRuntime) -> Result<(), Fail> {
    let alloc = rt.alloc();
    let failing = Failing {
        front: RETURNS.as_bytes(),
        failures: 1,
        kind: ErrorKind::Interrupted,
        back: b"s1",
    };
    check(alloc, TWIN_TOWN, "- -", failing, "failed: read\n")?;
    let mut room = Room {
        taken: Vec::new(alloc),
        left: 20,
        fails: false,
    };
    let trouble = recount(alloc, TWIN_TOWN, "- -", RETURNS.as_bytes(), &mut room)?;
    if trouble.as_str() == "failed: write\n"
        && room.taken.as_slice() == b"RECOUNT c1 Twin Town".as_slice()
    {
        return Ok(());
    }
    Err(Fail::from("a full writer"))
}
