//! A keeper in memory.

use crate::setups::check_fresh;
use std::alloc::Global;
use std::test::*;
use tally_test_scripts::{TWIN_TOWN, setups_and_scripts, twin_town};

// A station of 300 electors; 6 is TooManyVotes.
const ELECTORS: &str = "lodge s1 p1 150,150 1 = refused 6
lodge s1 p1 150,150 = lodged 1";

// An open constituency with an open station; 10 is NotCertified, 5 BadNote, 3 NoCandidate.
const OPEN: &str = "lodge s1 p1 100,100 = lodged 1
draw c1 1 B,A = left 1
certify c1 1 = left 1
certify c1 2 = stale 1
reopen c1 1 = refused 5
reopen c1 2 = refused 5
reopen c1 2 count again = refused 10
vacate c1 B 1 resigned = refused 10
vacate c1 B 1 = refused 5
vacate c1 Z 1 = refused 3";

// 3 seats and the quotients 100, 100, 50 and 50: a lot names each list of its group once. 16 is
// LotStands.
const LOT: &str = "lodge s1 p1 100,100 = lodged 1
close s1 1 = moved 2
certify c1 1 = lot of 1 2 for 1
draw c1 1 A = no order of 1 2
draw c1 1 A,A = no order of 1 2
draw c1 1 A,B,B = no order of 1 2
draw c1 1 A,Z = no order of 1 2
draw c1 1 = no order of 1 2
certify c1 2 = stale 1
draw c1 2 B,A = stale 1
draw c1 1 B,A = edition 2
draw c1 2 A,B = refused 16
certify c1 2 = edition 3
show c1 = certified 3 0 0 0 1/1 [100, 100] 0 0 [2, 1] [1, 2]";

// 3 seats, and the third is that of the first in the lot. 9 is Certified, 20 AlreadyGone, 21
// NotHolder. B has one candidate, so that its second seat is empty.
const CERTIFIED: &str = "lodge s1 p1 100,100 = lodged 1
close s1 1 = moved 2
draw c1 1 B,A = edition 2
certify c1 2 = edition 3
draw c1 3 B,A = refused 9
draw c1 4 B,A = refused 9
certify c1 4 = refused 9
reopen c1 3 = refused 5
reopen c1 4 count again = stale 3
vacate c1 B 1 resigned = vacated None
vacate c1 B 1 resigned = refused 20
vacate c1 A 2 resigned = refused 21
vacate c1 A 0 resigned = refused 3
vacate c1 A 3 resigned = refused 3
vacate c1 Z 1 resigned = refused 3
vacate c1 A 2 = refused 5
reopen c1 3 count again = edition 4
show c1 = open 4 0 0 0 1/1 [100, 100] 0 0 [2, 1] [] count again 2.1 resigned past 3 [1, 2]";

// By Hare with one seat the quota is 100, and each list has a remainder of 50.
const LOT_BY_HARE: &str = "lodge s1 p1 50,50 = lodged 1
close s1 1 = moved 2
certify c1 1 = lot of 1 2 for 1
draw c1 1 A,B = edition 2
certify c1 2 = edition 3
show c1 = certified 3 0 0 0 1/1 [50, 50] 0 0 [1, 2] [1, 0]";

// 4 seats, and all four quotients have one; 17 is LotNotNeeded.
const DECIDED: &str = "lodge s1 p1 100,100 = lodged 1
close s1 1 = moved 2
draw c1 1 B,A = refused 17
draw c1 1 Z = refused 17
certify c1 1 = edition 2
show c1 = certified 2 0 0 0 1/1 [100, 100] 0 0 [] [2, 2]";

// 15 is NoEligible.
const NOBODY: &str = "lodge s1 p1 0,0 = lodged 1
close s1 1 = moved 2
draw c1 1 B,A = refused 15
certify c1 1 = refused 15";

// A method of Twin Town, the number of seats, and a script.
const SCRIPTS: [(&str, u32, &str); 7] = [
    ("dhondt", 3, ELECTORS),
    ("dhondt", 3, OPEN),
    ("dhondt", 3, LOT),
    ("dhondt", 3, CERTIFIED),
    ("hare", 1, LOT_BY_HARE),
    ("dhondt", 4, DECIDED),
    ("dhondt", 3, NOBODY),
];

fn check_in_twin_town(alloc: Global, method: &str, seats: u32, script: &str) -> Result<(), Fail> {
    let setup = twin_town(alloc, method, seats)?;
    check_fresh(alloc, setup.as_str(), script)
}

// In the last of 200 constituencies, in the second and in the first.
const IN_MANY_TOWNS: &str = "lodge t200 p1 20 = lodged 1
close t200 1 = moved 2
certify c200 1 = edition 2
lodge t2 p1 30 = lodged 1
lodge s1 p1 100,50 = lodged 1
certify c2 1 = left 1
show c200 = certified 2 0 0 0 1/1 [20] 0 0 [] [3]";

/// Twin Town and 199 towns more, each with one list and one station: as many constituencies as a
/// setup may have.
fn many_towns(alloc: Global) -> Result<String, Fail> {
    let mut setup = String::from_str(alloc, TWIN_TOWN)?;
    for n in 2..201 {
        write!(
            setup,
            "\n[[constituency]]\ncode = \"c{n}\"\nname = \"Town\"\nseats = 3\nprofile = \"d0\"\n"
        )?;
        setup.push_str("\n[[constituency.list]]\ncode = \"A\"\nname = \"Alpha\"\n")?;
        setup.push_str("candidates = [\"Ana\"]\n\n[[constituency.station]]\n")?;
        write!(setup, "code = \"t{n}\"\nelectors = 300\n")?;
    }
    Ok(setup)
}

#[test]
fn scripts_of_commands_have_these_answers(rt: HostRuntime) -> Result<(), Fail> {
    for (method, seats, script) in SCRIPTS {
        check_in_twin_town(rt.alloc(), method, seats, script)?;
    }
    for (setup, script) in &setups_and_scripts(rt.alloc())? {
        check_fresh(rt.alloc(), setup.as_str(), script)?;
    }
    let setup = many_towns(rt.alloc())?;
    check_fresh(rt.alloc(), setup.as_str(), IN_MANY_TOWNS)
}

// A return that is queried and corrected in turn, up to its last revision. 12 is Exhausted.
const LODGED: &str = "lodge s1 p1 1,1 = lodged 1\n";

const LAST_REVISION: &str = "query s1 9999 sum = refused 12
close s1 9999 = refused 12
return s1 = 9999 p1 Corrected [1, 1] 0 0 sum";

// A constituency that is certified and opened again in turn, up to its last edition: there it is
// open, or, where a lot was an edition too, certified. 9 is Certified, 10 NotCertified.
const CLOSED: &str = "lodge s1 p1 100,50 = lodged 1
close s1 1 = moved 2
";

const LAST_EDITION: &str = "certify c1 9999 = refused 12
reopen c1 9999 sum = refused 10
draw c1 9999 A,B = refused 12
certify c1 9998 = stale 9999";

const DRAWN: &str = "lodge s1 p1 100,100 = lodged 1
close s1 1 = moved 2
draw c1 1 B,A = edition 2
";

const LAST_CERTIFICATE: &str = "certify c1 9999 = refused 9
reopen c1 9999 count again = refused 12";

/// A script from a revision or an edition up to the last, 9,999: one command where it is odd and
/// another where it is even, each with its answer except the next number.
fn to_the_last(
    alloc: Global,
    front: &str,
    from: u32,
    at_odd: (&str, &str),
    at_even: (&str, &str),
    end: &str,
) -> Result<String, Fail> {
    let mut script = String::from_str(alloc, front)?;
    for now in from..9_999 {
        let (ask, answer) = if now % 2 == 1 { at_odd } else { at_even };
        let next = now + 1;
        write!(script, "{ask} {now} {answer} {next}\n")?;
    }
    script.push_str(end)?;
    Ok(script)
}

#[test]
fn nothing_follows_the_last_revision_and_edition(rt: HostRuntime) -> Result<(), Fail> {
    let query = ("query s1", "sum = moved");
    let correct = ("correct s1", "p1 1,1 = moved");
    let certify = ("certify c1", "= edition");
    let reopen = ("reopen c1", "sum = edition");
    for (front, from, at_odd, at_even, end) in [
        (LODGED, 1, query, correct, LAST_REVISION),
        (CLOSED, 1, certify, reopen, LAST_EDITION),
        (DRAWN, 2, reopen, certify, LAST_CERTIFICATE),
    ] {
        let script = to_the_last(rt.alloc(), front, from, at_odd, at_even, end)?;
        check_fresh(rt.alloc(), TWIN_TOWN, script.as_str())?;
    }
    Ok(())
}
