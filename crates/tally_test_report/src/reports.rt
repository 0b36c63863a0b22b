//! The texts of the reports, byte for byte.

use crate::views::{PROVINCE, THREE_LISTS, check, check_text};
use std::test::*;
use tally_report_overview::progress_text;
use tally_returns::ProgressRow;
use tally_test_scripts::{TWIN_TOWN, code, twin_town};

// Two lists of 100 votes each, a lot by which B is first, and three seats.
const OPEN: &str = "1 1 1: 100 100: 0 0: : : ";

const CERTIFIED: &str = "3 1 1: 100 100: 0 0: 1 2: 2 1: ";

const VACATED: &str = "3 1 1: 100 100: 0 0: 1 2: 2 1: 2 1";

// The votes of the example of LOREG article 163, for 8 seats by Hare.
const LOREG: &str = "2 1 1: 168000 104000 72000 64000 40000 32000: 0 0: 3 2 1 1 1 0: : ";

const TALLY: &str = "TALLY c1 Twin Town
stations 1 closed 1
valid 200 blank 0 spoiled 0
A                        100   50.00 in  Alpha
B                        100   50.00 in  Beta
";

const SEATS: &str = "SEATS c1 Twin Town
edition 3
A                   1 Alpha
B                   2 Beta
total               3
";

const QUOTIENTS: &str = "QUOTIENTS c1 Twin Town
A               *        100          50          33
B               *        100*         50          33
";

const AWARDS: &str = "AWARDS c1 Twin Town
   1 B                  1           100     1         100
   2 A                  1           100     1         100
   3 B                  2           100     2          50
";

const HOLDERS: &str = "HOLDERS c1 Twin Town
A                   1 Ana
B                   - empty
B                   - empty
";

const SHORT: &str = "SHORT c1 Twin Town
A                   1           1
B                   2         200
";

// The certificate of edition 3 was reopened.
const REOPENED: &str = "4 1 1: 100 100: 0 0: : 1 2: 2 1 past 3 1 2";

const PAST: &str = "PAST c1 Twin Town
edition 3
A                   1 Alpha
B                   2 Beta
";

// Certified a third time, after two certificates were reopened.
const REOPENED_TWICE: &str = "9 1 1: 120 120: 0 0: 2 1: 1 2: past 3 1 2; 6 0 3";

const PAST_TWICE: &str = "PAST c1 Twin Town
edition 3
A                   1 Alpha
B                   2 Beta
edition 6
A                   0 Alpha
B                   3 Beta
";

// 480,000 votes for 8 seats are 60,000 a seat: A's 168,000 are 2 of them, and 48,000 times 8 is
// left.
const QUOTA: &str = "QUOTA n Province
votes 480000 seats 8
A                     168000    2          384000    3
B                     104000    1          352000    2
C-of-16-letters_       72000    1           96000    1
D                      64000    1           32000    1
E                      40000    0          320000    1
F                      32000    0          256000    0
";

// By the divisors 1.4, 3 and 5: A's second quotient is 53 / 3, and B's first is 24 / 1.4, which is
// less.
const FIFTHS: &str = "2 1 1: 53 24 23: 0 0: 2 0 0: : ";

const FIFTHS_QUOTIENTS: &str = "QUOTIENTS m Fifths
A               *         37*         17          10
B                         17           8           4
C                         16           7           4
";

const FIFTHS_AWARDS: &str = "AWARDS m Fifths
   1 A                  1           265     7          37
   2 A                  2           265    15          17
";

// B's first seat takes the place of A's second with 25 votes, since 25 / 1.4 is more than 53 / 3; A
// has all.
const FIFTHS_SHORT: &str = "SHORT m Fifths
A                   2           -
B                   0           1
C                   0           2
";

// The same lists by D'Hondt: the last seat is A's fourth, with 168,000 / 4 = 42,000. With 42,000
// votes E would only tie with it, and A has more.
const PROVINCE_SHORT: &str = "SHORT n Province
A                   4       92000
B                   2       22001
C-of-16-letters_    1       12001
D                   1       20001
E                   0        2001
F                   0       10001
";

// B's 29 of 1,000 votes are below the threshold of 3 per cent. A's eighth seat has 900 / 8 = 112.5.
const ELIGIBLE_SHORT: &str = "SHORT n Province
A                   8           -
C-of-16-letters_    0          42
";

// A's second seat has 200 / 2 = 100.
const TWO_SEATS_SHORT: &str = "SHORT c1 Twin Town
A                   2           -
B                   0           1
";

// Without a closed return no list is eligible. Two lists of 100 votes have a seat each of three,
// and a lot decides who has the third. With a lot by which B is first it is B's, before the
// certificate and after it.
const NOTHING: &str = "1 0 1: 0 0: 0 0: : : ";

const PROVISIONAL_NOTHING: &str = "PROVISIONAL c1 Twin Town
stations 1 closed 0
no_eligible
A                   0 Alpha
B                   0 Beta
total               0
";

const PROVISIONAL_TIED: &str = "PROVISIONAL c1 Twin Town
stations 1 closed 1
lot 1 A B
A                   1 Alpha
B                   1 Beta
total               2
";

const DRAWN: &str = "2 1 1: 100 100: 0 0: : 2 1: ";

const PROVISIONAL_DRAWN: &str = "PROVISIONAL c1 Twin Town
stations 1 closed 1
open
A                   1 Alpha
B                   2 Beta
total               3
";

const PROVISIONAL_CERTIFIED: &str = "PROVISIONAL c1 Twin Town
stations 1 closed 1
certified
A                   1 Alpha
B                   2 Beta
total               3
";

// By Hare's rule, while one of seven stations is open: 480,000 votes for 8 seats are 60,000 a
// seat, and C and D have one and a half of them each, so seven seats are certain.
const HALVES: &str = "1 6 7: 60000 60000 90000 90000 60000 120000: 0 0: : : ";

const PROVISIONAL_HALVES: &str = "PROVISIONAL n Province
stations 7 closed 6
lot 1 C-of-16-letters_ D
A                   1 A list of some length, whose name stands whole and last on its line
B                   1 B
C-of-16-letters_    1 C
D                   1 D
E                   1 E
F                   2 F
total               7
";

// Of 1,000 votes one list has 300, which is 30 per cent, and the next 29; blank votes count.
const SHARES: &str = "TALLY n Province
stations 7 closed 6
valid 1000 blank 70 spoiled 5
A                        300   30.00 in  A list of some length, whose name stands whole and last on its line
B                         29    2.90 out B
C-of-16-letters_          30    3.00 in  C
D                          0    0.00 out D
E                        571   57.10 in  E
F                          0    0.00 out F
";

// A report, the setup, the view, and the text or the number of the fault.
const REPORTS: [(&str, &str, &str, &str); 28] = [
    ("tally", TWIN_TOWN, OPEN, TALLY),
    ("seats", TWIN_TOWN, CERTIFIED, SEATS),
    ("quotients", TWIN_TOWN, CERTIFIED, QUOTIENTS),
    ("awards", TWIN_TOWN, CERTIFIED, AWARDS),
    ("holders", TWIN_TOWN, VACATED, HOLDERS),
    ("short", TWIN_TOWN, CERTIFIED, SHORT),
    ("past", TWIN_TOWN, REOPENED, PAST),
    ("past", TWIN_TOWN, REOPENED_TWICE, PAST_TWICE),
    ("past", TWIN_TOWN, OPEN, "PAST c1 Twin Town\n"),
    ("provisional", TWIN_TOWN, NOTHING, PROVISIONAL_NOTHING),
    ("provisional", TWIN_TOWN, OPEN, PROVISIONAL_TIED),
    ("provisional", TWIN_TOWN, DRAWN, PROVISIONAL_DRAWN),
    ("provisional", TWIN_TOWN, CERTIFIED, PROVISIONAL_CERTIFIED),
    ("provisional", PROVINCE, HALVES, PROVISIONAL_HALVES),
    ("quota", PROVINCE, LOREG, QUOTA),
    ("quotients", THREE_LISTS, FIFTHS, FIFTHS_QUOTIENTS),
    ("awards", THREE_LISTS, FIFTHS, FIFTHS_AWARDS),
    ("short", THREE_LISTS, FIFTHS, FIFTHS_SHORT),
    (
        "tally",
        PROVINCE,
        "1 6 7: 300 29 30 0 571 0: 70 5: : : ",
        SHARES,
    ),
    ("seats", TWIN_TOWN, OPEN, "fault 1"),
    ("holders", TWIN_TOWN, OPEN, "fault 1"),
    ("quota", TWIN_TOWN, OPEN, "fault 1"),
    ("quota", TWIN_TOWN, CERTIFIED, "fault 2"),
    ("quotients", PROVINCE, LOREG, "fault 2"),
    ("awards", PROVINCE, LOREG, "fault 2"),
    ("short", TWIN_TOWN, OPEN, "fault 1"),
    ("short", PROVINCE, LOREG, "fault 2"),
    (
        "awards",
        PROVINCE,
        "1 0 1: 0 0 0 0 0 0: 0 0: : : ",
        "fault 1",
    ),
];

const BY_DIVISORS: &str = "2 1 1: 168000 104000 72000 64000 40000 32000: 0 0: 4 2 1 1 0 0: : ";

const BELOW_THE_THRESHOLD: &str = "2 1 1: 900 29 71 0 0 0: 0 0: 8 0 0 0 0 0: : ";

#[test]
fn the_texts_of_a_constituency(rt: HostRuntime) -> Result<(), Fail> {
    let alloc = rt.alloc();
    for (report, setup, view, want) in REPORTS {
        check(alloc, report, setup, view, want)?;
    }
    let setup = twin_town(alloc, "dhondt", 2)?;
    let view = "3 1 1: 200 100: 0 0: 2 0: : ";
    check(alloc, "short", setup.as_str(), view, TWO_SEATS_SHORT)?;
    let setup = PROVINCE.replace(alloc, "hare", "dhondt")?;
    check(alloc, "short", setup.as_str(), BY_DIVISORS, PROVINCE_SHORT)?;
    check(
        alloc,
        "short",
        setup.as_str(),
        BELOW_THE_THRESHOLD,
        ELIGIBLE_SHORT,
    )
}

// A number of ten digits is wider than its column of seven, and is printed whole.
const TWO_ROWS: &str = "c1                    1      1      0      0      0      0      1 open
c2              42949672954294967295      0      0      0      0      1 certified
";

#[test]
fn the_progress_of_constituencies(rt: HostRuntime) -> Result<(), Fail> {
    let rows = [row("c1", 1, false)?, row("c2", u32::MAX, true)?];
    check_text(&progress_text(rt.alloc(), &rows), TWO_ROWS)
}

fn row(con: &str, stations: u32, certified: bool) -> Result<ProgressRow, Fail> {
    Ok(ProgressRow {
        con: code(con)?,
        stations,
        received: 0,
        queried: 0,
        corrected: 0,
        closed: 0,
        edition: 1,
        certified,
    })
}
