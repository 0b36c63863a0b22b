//! Scripts: commands, each with what is answered to it.

use crate::setups::{entered_twice, twin_town, with_agents};
use std::alloc::Global;
use std::test::Fail;

/// 8 is NoReturn, 1 NoStation, 4 BadCounts, 5 BadNote.
const LIFE: &str = "close s1 1 = refused 8
return s1 = refused 8
lodge zz p1 1,1 = refused 1
lodge s1 p1 1,1,1 = refused 4
show c1 = open 1 0 0 0 0/1 [0, 0] 0 0 [] []
lodge s1 p1 100,100 2 1 = lodged 1
show c1 = open 1 1 0 0 0/1 [0, 0] 0 0 [] []
query s1 1 = refused 5
correct s1 1 p2 1,1 = status Received
query s1 1 sum = moved 2
show c1 = open 1 0 1 0 0/1 [0, 0] 0 0 [] []
close s1 2 = status Queried
correct s1 2 p2 1,1 = moved 3
show c1 = open 1 0 0 1 0/1 [0, 0] 0 0 [] []
return s1 = 3 p2 Corrected [1, 1] 0 0 sum";

/// Commands that are given again, and the progress: of one station nothing is received, queried or
/// corrected, and one return is closed.
const TWICE: &str = "lodge s1 p1 100,100 = lodged 1
lodge s1 p1 100,100 = same 1
close s1 1 = moved 2
close s1 1 = stale 2
progress = progress c1 1: 0 0 0 1 1 false";

/// Three seats for two lists of 100 votes each, and a lot by which B is first.
pub const CERTIFIED: &str = "lodge s1 p1 100,100 = lodged 1
close s1 1 = moved 2
draw c1 1 B,A = edition 2
certify c1 2 = edition 3";

/// 9 is Certified, 10 NotCertified, 16 LotStands, 20 AlreadyGone, 21 NotHolder.
pub const RECOUNT: &str = "lodge s1 p1 100,100 3 2 = lodged 1
certify c1 1 = left 1
close s1 1 = moved 2
close s1 1 = stale 2
show c1 = open 1 0 0 0 1/1 [100, 100] 3 2 [] []
certify c1 1 = lot of 1 2 for 1
draw c1 1 A = no order of 1 2
draw c1 1 B,A = edition 2
draw c1 1 B,A = stale 2
draw c1 2 A,B = refused 16
certify c1 2 = edition 3
show c1 = certified 3 0 0 0 1/1 [100, 100] 3 2 [2, 1] [1, 2]
certify c1 2 = refused 9
query s1 2 sum = refused 9
vacate c1 B 1 resigned = vacated None
vacate c1 B 1 resigned = refused 20
vacate c1 A 2 moved = refused 21
reopen c1 3 recount = edition 4
show c1 = open 4 0 0 0 1/1 [100, 100] 3 2 [2, 1] [] recount 2.1 resigned past 3 [1, 2]
vacate c1 A 1 moved = refused 10
query s1 2 sum = moved 3
show c1 = open 4 0 1 0 0/1 [0, 0] 0 0 [] [] recount 2.1 resigned past 3 [1, 2]
correct s1 3 p2 120,120 4 1 = moved 4
close s1 4 = moved 5
show c1 = open 4 0 0 0 1/1 [120, 120] 4 1 [] [] recount 2.1 resigned past 3 [1, 2]
certify c1 4 = lot of 1 2 for 1
draw c1 4 A,B = edition 5
certify c1 5 = edition 6
show c1 = certified 6 0 0 0 1/1 [120, 120] 4 1 [1, 2] [2, 1] recount 2.1 resigned past 3 [1, 2]
lodge s1 p1 100,100 3 2 = differs 5
lodge s1 p2 120,120 4 1 = same 5";

/// As above where lots alternate: a lot is turned round for second seats, so that by the lot B, A
/// the third seat is A's.
const ALTERNATING: &str = "lodge s1 p1 100,100 = lodged 1
certify c1 1 = left 1
close s1 1 = moved 2
close s1 1 = stale 2
certify c1 1 = lot of 1 2 for 1
draw c1 1 A = no order of 1 2
draw c1 1 B,A = edition 2
draw c1 1 B,A = stale 2
draw c1 2 A,B = refused 16
certify c1 2 = edition 3
show c1 = certified 3 0 0 0 1/1 [100, 100] 0 0 [2, 1] [2, 1]
certify c1 2 = refused 9
query s1 2 sum = refused 9
vacate c1 B 1 resigned = vacated None
vacate c1 B 1 resigned = refused 20
vacate c1 A 2 moved = vacated None
reopen c1 3 recount = edition 4
vacate c1 A 1 moved = refused 10
query s1 2 sum = moved 3
correct s1 3 p2 120,120 = moved 4
close s1 4 = moved 5
certify c1 4 = lot of 1 2 for 1
draw c1 4 A,B = edition 5
certify c1 5 = edition 6
show c1 = certified 6 0 0 0 1/1 [120, 120] 0 0 [1, 2] [1, 2] recount 1.2 moved 2.1 resigned past 3 [2, 1]
lodge s1 p1 100,100 = differs 5
lodge s1 p2 120,120 = same 5";

/// D has less than a twentieth. Of 999 votes of the others A has 2 quotas and 2 over, B 1 and 501,
/// C 1 and 496: the fifth seat is B's. Of 1,000, B and C have 1 quota and 500 over: a lot decides.
const HARE: &str = "lodge r1 p1 200,150,150,10 3 1 = lodged 1
lodge r2 q1 200,150,149,10 4 2 = lodged 1
close r1 1 = moved 2
certify h 1 = left 1
close r2 1 = moved 2
certify h 1 = edition 2
show h = certified 2 0 0 0 2/2 [400, 300, 299, 20] 7 3 [] [2, 2, 1, 0]
vacate h C 1 moved = vacated None
vacate h A 1 moved = vacated Some(3)
reopen h 2 recount = edition 3
query r2 2 sum = moved 3
show h = open 3 0 1 0 1/2 [200, 150, 150, 10] 3 1 [] [] recount 1.1 moved 3.1 moved past 2 [2, 2, 1, 0]
correct r2 3 q2 200,150,150,10 5 = moved 4
certify h 3 = left 1
close r2 4 = moved 5
certify h 3 = lot of 2 3 for 1
draw h 3 B = no order of 2 3
draw h 3 B,C,A = no order of 2 3
draw h 3 D,C = no order of 2 3
draw h 3 C,B = edition 4
show h = open 4 0 0 0 2/2 [400, 300, 300, 20] 8 1 [3, 2] [] recount 1.1 moved 3.1 moved past 2 [2, 2, 1, 0]
certify h 4 = edition 5
show h = certified 5 0 0 0 2/2 [400, 300, 300, 20] 8 1 [3, 2] [2, 1, 2, 0] recount 1.1 moved 3.1 moved past 2 [2, 2, 1, 0]
vacate h A 1 moved = refused 20
vacate h B 2 moved = refused 21
vacate h B 1 died = vacated Some(2)
reopen h 5 again = edition 6
query r1 2 sum = moved 3
show h = open 6 0 1 0 1/2 [200, 150, 150, 10] 5 0 [] [] again 1.1 moved 2.1 died 3.1 moved past 2 [2, 2, 1, 0] past 5 [2, 1, 2, 0]
certify zz 1 = refused 2";

/// 1 seat; 2 is NoConstituency, 3 NoCandidate.
const VACANCIES: &str = "lodge s1 p1 100,50 = lodged 1
close s1 1 = moved 2
certify c1 1 = edition 2
vacate c1 A 1 moved = vacated Some(2)
vacate c1 A 2 moved = vacated None
vacate c1 B 2 moved = refused 3
vacate c2 A 1 moved = refused 2
show c1 = certified 2 0 0 0 1/1 [100, 50] 0 0 [] [1, 0] 1.1 moved 1.2 moved";

/// Hare with a threshold of 5 per cent of the valid votes; 5 seats.
const RIVERS: &str = r#"[[profile]]
code = "h5"
method = "hare"
threshold = 500
base = "valid"

[[constituency]]
code = "h"
name = "Three Rivers"
seats = 5
profile = "h5"

[[constituency.list]]
code = "A"
name = "Alpha"
candidates = ["Ana", "Abel", "Ada"]

[[constituency.list]]
code = "B"
name = "Beta"
candidates = ["Bea", "Ben"]

[[constituency.list]]
code = "C"
name = "Gamma"
candidates = ["Cid"]

[[constituency.list]]
code = "D"
name = "Delta"
candidates = ["Dan"]

[[constituency.station]]
code = "r1"
electors = 1000

[[constituency.station]]
code = "r2"
electors = 1000
"#;

// The method of a setup in which lots alternate.
const ALTERNATING_LOTS: &str = "dhondt\"\nlot = \"alternating";

// A method of Twin Town, the number of seats, and a script.
const IN_TWIN_TOWN: [(&str, u32, &str); 6] = [
    ("dhondt", 3, LIFE),
    ("dhondt", 3, TWICE),
    ("dhondt", 3, RECOUNT),
    ("dhondt", 1, VACANCIES),
    (ALTERNATING_LOTS, 3, ALTERNATING),
    ("dhondt", 3, ENTERED_ONCE),
];

/// The returns of this office are entered twice. 24 is NotConfirmed.
const ENTERED_TWICE: &str = "lodge s1 p1 100,100 = lodged 1
close s1 1 = refused 24
confirm s1 1 p1 100,99 = differs 1
confirm s1 1 p2 100,100 = differs 1
confirm s1 2 p1 100,99 = stale 1
confirm s1 1 p1 100,100 = moved 2
confirm s1 1 p1 100,100 = stale 2
certify c1 1 = lot of 1 2 for 1
query s1 2 sum = moved 3
confirm s1 3 p1 100,100 = status Queried
correct s1 3 p2 120,120 = moved 4
confirm s1 4 p1 100,100 = differs 4
close s1 4 = refused 24
confirm s1 4 p2 120,120 = moved 5
return s1 = 5 p2 Closed [120, 120] 0 0 sum
show c1 = open 1 0 0 0 1/1 [120, 120] 0 0 [] []
draw c1 1 B,A = edition 2
certify c1 2 = edition 3
confirm s1 5 p2 120,120 = refused 9";

/// Those of this one are entered once, and a second entry is taken all the same.
const ENTERED_ONCE: &str = "confirm s1 1 p1 100,100 = refused 8
confirm s1 1 p1 200,101 = refused 6
confirm s1 1 p1 1,2,3 = refused 4
confirm zz 1 p1 1,2 = refused 1
lodge s1 p1 100,100 = lodged 1
confirm s1 2 p1 100,99 = stale 1
confirm s1 1 p1 100,100 3 = differs 1
confirm s1 1 p1 100,100 = moved 2
close s1 1 = stale 2
certify c1 1 = lot of 1 2 for 1";

/// At a station of 300 electors and 2 agents, whose returns are entered twice. 6 is TooManyVotes.
const AGENTS: &str = "lodge s1 p1 150,150 1 2 = refused 6
lodge s1 p1 150,150 1 1 = lodged 1
confirm s1 1 p1 150,150 1 2 = refused 6
query s1 1 sum = moved 2
correct s1 2 p2 151,150 1 1 = refused 6
correct s1 2 p2 150,151 0 1 = moved 3
confirm s1 3 p2 150,151 0 1 = moved 4
show c1 = open 1 0 0 0 1/1 [150, 151] 0 1 [] []";

/// Setups as text, each with a script.
pub fn setups_and_scripts(alloc: Global) -> Result<Vec<(String, &'static str)>, Fail> {
    let mut scripts = Vec::new(alloc);
    for (method, seats, script) in IN_TWIN_TOWN {
        scripts.push((twin_town(alloc, method, seats)?, script))?;
    }
    scripts.push((String::from_str(alloc, RIVERS)?, HARE))?;
    scripts.push((entered_twice(alloc)?, ENTERED_TWICE))?;
    scripts.push((with_agents(alloc)?, AGENTS))?;
    Ok(scripts)
}
