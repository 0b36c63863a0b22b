//! The seats of a text of votes, byte for byte, and what is refused.

use std::alloc::Global;
use std::io::Read;
use std::test::Fail;
use tally_import_options::AllotOptions;
use tally_import_votes::{Sep, allot_csv};
use tally_setup::{Base, LotRule, Method, Profile};

// The example that LOREG article 163.1 c) prints, for eight seats.
const LOREG: &str = "\
list,votes
A,168000
B,104000
C,72000
D,64000
E,40000
F,32000
";

const LOREG_BY_DHONDT: &str = "\
ALLOT dhondt seats 8
threshold 300 base valid rule fixed
lot -
valid 480000 blank 0
A                     168000   35.00 in      4       92000
B                     104000   21.66 in      2       22001
C                      72000   15.00 in      1       12001
D                      64000   13.33 in      1       20001
E                      40000    8.33 in      0        2001
F                      32000    6.66 in      0       10001
total                 480000                 8
next E
";

// The quota is 60,000 votes: the whole quotas are 2, 1, 1, 1, 0 and 0, and the largest remainders
// times eight are those of A, E and B: 384000, 352000 and 320000.
const LOREG_BY_HARE: &str = "\
ALLOT hare seats 8
threshold 300 base valid rule fixed
lot -
valid 480000 blank 0
A                     168000   35.00 in      3
B                     104000   21.66 in      2
C                      72000   15.00 in      1
D                      64000   13.33 in      1
E                      40000    8.33 in      1
F                      32000    6.66 in      0
total                 480000                 8
";

// The options of a line such as `dhondt 3 0 300 B,A awards`: the method, the seats, the blank
// votes, the threshold, the lot or a dash, and what else is asked.
fn options_of(alloc: Global, line: &str) -> Result<AllotOptions, Fail> {
    let (method, rest) = line.split_once(" ").unwrap_or((line, ""));
    let (seats, rest) = rest.split_once(" ").unwrap_or((rest, ""));
    let (blank, rest) = rest.split_once(" ").unwrap_or((rest, ""));
    let (threshold, rest) = rest.split_once(" ").unwrap_or((rest, ""));
    let (lot, more) = rest.split_once(" ").unwrap_or((rest, ""));
    let lot = if lot == "-" {
        None
    } else {
        Some(String::from_str(alloc, lot)?)
    };
    Ok(AllotOptions {
        seats: seats.parse::<u32>().unwrap_or(1).clamp(1, 500),
        profile: Profile {
            method: Method::named(method).unwrap_or(Method::Hare),
            threshold: threshold.parse::<u32>().unwrap_or(0).min(10_000),
            base: Base::Valid,
            lot: if more == "alternating" {
                LotRule::Alternating
            } else {
                LotRule::Fixed
            },
        },
        blank: blank.parse::<u64>().unwrap_or(0).min(5_000_000_000),
        lot,
        awards: more == "awards",
        sep: Sep::Comma,
    })
}

// What is written of a text, or the line of its trouble, where nothing may be written.
fn answer_to<R: Read + Drop>(
    alloc: Global,
    options: &AllotOptions,
    mut reader: R,
) -> Result<Vec<u8>, Fail> {
    let mut output = Vec::new(alloc);
    let Err(trouble) = allot_csv(alloc, options, &mut reader, &mut output) else {
        return Ok(output);
    };
    if !output.is_empty() {
        return Err(Fail::from("something was written with a trouble"));
    }
    output.extend_from_slice(trouble.line(alloc)?.as_bytes())?;
    Ok(output)
}

fn check(alloc: Global, line: &'static str, text: &str, wanted: &str) -> Result<(), Fail> {
    let got = answer_to(alloc, &options_of(alloc, line)?, text.as_bytes())?;
    if got.as_slice() == wanted.as_bytes() {
        return Ok(());
    }
    Err(Fail::from(line))
}

#[test]
fn the_example_of_the_law(rt: HostRuntime) -> Result<(), Fail> {
    check(rt.alloc(), "dhondt 8 0 300 -", LOREG, LOREG_BY_DHONDT)?;
    check(rt.alloc(), "hare 8 0 300 -", LOREG, LOREG_BY_HARE)
}

// Options and a text, `/` for a line feed, and the first words of what is answered.
const ANSWERS: &str = "
dhondt 3 0 0 -: A,100/B,100/ = refused: lot_missing 1 A B
dhondt 3 0 0 A: A,100/B,100/ = refused: wrong_lot
dhondt 3 0 0 B,C: A,100/B,100/ = refused: wrong_lot
dhondt 2 0 0 A,B: A,100/B,100/ = refused: wrong_lot
dhondt 1 0 0 -: A,0/ = refused: no_eligible
dhondt 2 1 0 -: A,5000000000/ = refused: too_many_votes
dhondt 2 0 0 -: A,5000000001/ = refused: bad_row 1 bad_number
dhondt 2 0 0 -: A,x/ = refused: bad_row 1 bad_number
dhondt 2 0 0 -: A,1/A,2/ = refused: bad_row 2 duplicate A
dhondt 2 0 0 -: A,1/B,2,3/ = refused: bad_row 2 fields 3
dhondt 2 0 0 -: A B,1/ = refused: bad_row 1 bad_list
dhondt 2 0 0 -: = refused: no_list
";

#[test]
fn what_is_refused(rt: HostRuntime) -> Result<(), Fail> {
    for line in ANSWERS.lines() {
        if let Some((case, wanted)) = line.split_once(" = ") {
            check_case(rt.alloc(), case, wanted)?;
        }
    }
    Ok(())
}

fn check_case(alloc: Global, case: &'static str, wanted: &str) -> Result<(), Fail> {
    let (line, rows) = case.split_once(":").unwrap_or((case, ""));
    let mut text = String::from_str(alloc, "list,votes\n")?;
    for row in rows.trim().split("/") {
        text.push_str(row)?;
        text.push_str("\n")?;
    }
    let got = answer_to(alloc, &options_of(alloc, line)?, text.as_bytes())?;
    let mut wanted = String::from_str(alloc, wanted)?;
    wanted.push_str("\n")?;
    if got.as_slice() == wanted.as_bytes() {
        return Ok(());
    }
    Err(Fail::from(case))
}
