//! The text of an allotment, byte for byte.

use crate::answers::fault_text;
use crate::polls::{Poll, are_limits_kept, poll_of};
use std::alloc::Global;
use std::test::*;
use tally_report_allotment::{Asked, allotment_text};
use tally_test_scripts::codes;

// The example of LOREG, article 163: the last seat is A's fourth, with 168,000 / 4 = 42,000. The
// next seat would be E's first, with 40,000: C's second has 36,000, B's third 34,666.
const DHONDT: &str = "ALLOT dhondt seats 8
threshold 300 base valid rule fixed
lot -
valid 480000 blank 0
A                     168000   35.00 in      4       92000
B                     104000   21.66 in      2       22001
C                      72000   15.00 in      1       12001
D                      64000   13.33 in      1       20001
E                      40000    8.33 in      0        2001
F                      32000    6.66 in      0       10001
total                 480000                 8
next E
";

// 480,000 votes for 8 seats are 60,000 a seat: A's 168,000 are 2 of them, and 48,000 times 8 is
// left.
const HARE: &str = "ALLOT hare seats 8
threshold 300 base valid rule fixed
lot -
valid 480000 blank 0
A                     168000   35.00 in      3
B                     104000   21.66 in      2
C                      72000   15.00 in      1
D                      64000   13.33 in      1
E                      40000    8.33 in      1
F                      32000    6.66 in      0
total                 480000                 8
votes 480000 seats 8
A                     168000    2          384000    3
B                     104000    1          352000    2
C                      72000    1           96000    1
D                      64000    1           32000    1
E                      40000    0          320000    1
F                      32000    0          256000    0
";

// The lot gives B the third seat. A's second has 50, B's third 33.
const LOT: &str = "ALLOT dhondt seats 3
threshold 0 base valid rule fixed
lot B A
valid 200 blank 0
A                        100   50.00 in      1           1
B                        100   50.00 in      2         200
total                    200                 3
next A
   1 B                  1           100     1         100
   2 A                  1           100     1         100
   3 B                  2           100     2          50
";

// Two lists of equal votes, and none is next. With 300 votes a list's second quotient, by 3, is the
// other's first, and it has more votes.
const LEVEL: &str = "ALLOT sainte-lague seats 2
threshold 0 base valid rule alternating
lot -
valid 200 blank 0
A                        100   50.00 in      1         200
B                        100   50.00 in      1         200
total                    200                 2
next -
";

// B's 29 of 1,000 votes are below the threshold of 3 per cent, and A is eligible alone.
const ALONE: &str = "ALLOT modified-sainte-lague seats 8
threshold 300 base valid rule fixed
lot -
valid 1000 blank 71
A                        900   90.00 in      8           -
B                         29    2.90 out     0           -
total                    929                 8
next A
";

// The codes of lists, the line of a poll, whether the awards are asked for, and the text or the
// fault.
const TEXTS: [(&str, &str, bool, &str); 9] = [
    (
        "A,B,C,D,E,F",
        "dhondt 300 8 0: 168000 104000 72000 64000 40000 32000",
        false,
        DHONDT,
    ),
    (
        "A,B,C,D,E,F",
        "hare 300 8 0: 168000 104000 72000 64000 40000 32000",
        true,
        HARE,
    ),
    ("A,B", "dhondt 0 3 0: 100 100: 2 1", true, LOT),
    (
        "A,B",
        "sainte-lague/alternating 0 2 0: 100 100",
        false,
        LEVEL,
    ),
    (
        "A,B",
        "modified-sainte-lague 300 8 71: 900 29",
        false,
        ALONE,
    ),
    (
        "A,B",
        "dhondt 0 3 0: 100 100",
        false,
        "a lot is needed and none is given: lot of 1 2 for 1",
    ),
    (
        "A,B",
        "dhondt 0 3 0: 100 100: 1",
        false,
        "the lot is not the one to be taken",
    ),
    (
        "A,B",
        "dhondt 0 3 0: 100 100: 2 3",
        false,
        "the lot is not the one to be taken",
    ),
    ("A", "dhondt 0 1 0: 0", false, "no list is eligible"),
];

#[test]
fn the_texts_of_allotments(rt: HostRuntime) -> Result<(), Fail> {
    let alloc = rt.alloc();
    for (lists, poll, with_awards, want) in TEXTS {
        let text = text_of(alloc, lists, poll_of(alloc, poll)?, with_awards)?;
        assert!(rt; text.as_str() == want, "{poll}");
    }
    Ok(())
}

/// The text for the lists of these codes, or the fault.
fn text_of(alloc: Global, lists: &str, poll: Poll, with_awards: bool) -> Result<String, Fail> {
    let lists = codes(alloc, lists)?;
    if !are_limits_kept(&poll.profile, poll.seats, &poll.votes, poll.blank)
        || lists.len() != poll.votes.len()
    {
        return Err(Fail::from("no poll"));
    }
    let asked = Asked {
        profile: poll.profile,
        seats: poll.seats,
        lists,
        votes: poll.votes,
        blank: poll.blank,
        lot: poll.lot,
    };
    match allotment_text(alloc, &asked, with_awards) {
        Ok(text) => Ok(text),
        Err(fault) => Ok(fault_text(alloc, fault)?),
    }
}
