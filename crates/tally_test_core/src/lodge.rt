//! What the return of a station is answered, and who holds seats.

use std::alloc::Global;
use std::test::*;
use tally_core::{Counts, LodgeReply, Refusal, Return, decide_lodge, holders};
use tally_setup::Code;
use tally_test_scripts::{code, counts, number};

/// The return that is recorded: slip p1, revision 3, votes 50 and 40, 2 blank and 1 spoiled.
fn standing(alloc: Global) -> Result<Return, Fail> {
    let mut standing = Return::lodged(alloc, code("p1")?, counts(alloc, "50,40 2 1")?);
    standing.rev = 3;
    Ok(standing)
}

/// The answer to a Lodge at a station of 2 lists and 100 electors.
fn decided(found: Option<&Return>, slip: Code, counts: &Counts) -> Result<LodgeReply, Refusal> {
    decide_lodge(2, 100, found, slip, counts)
}

/// The number of its refusal, or 0.
fn refused(answer: Result<LodgeReply, Refusal>) -> u32 {
    match answer {
        Ok(_) => 0,
        Err(refusal) => refusal.number(),
    }
}

/// Fails at the first of these lines, `SLIP COUNTS = NUMBER`, that is answered otherwise.
fn check_lines(alloc: Global, found: Option<&Return>, lines: &'static str) -> Result<(), Fail> {
    for line in lines.lines() {
        let (given, wanted) = line.split_once(" = ").ok_or("no number")?;
        let (slip, given) = given.split_once(" ").ok_or("no counts")?;
        let answer = decided(found, code(slip)?, &counts(alloc, given)?);
        if refused(answer) != number(wanted)? {
            return Err(Fail::from(line));
        }
    }
    Ok(())
}

// Votes, blank and spoiled ones; 4 is BadCounts, 6 TooManyVotes.
const FIRST: &str = "p1 50,40 7 3 = 0
p1 0,0 0 0 = 0
p1 50,40 8 3 = 6
p1 50,40 7 4 = 6
p1 1000000,0 0 0 = 6
p1 1000001,0 0 0 = 4
p1 0,0 1000001 0 = 4
p1 0 0 0 = 4
p1 0,0,0 0 0 = 4";

// 7 is Differs; the checks on counts come first.
const SECOND: &str = "p1 50,40 2 1 = 0
p2 50,40 2 1 = 7
p1 40,50 2 1 = 7
p1 50,40 1 2 = 7
p1 50,40 2 2 = 7
p1 50,40 2 9 = 6
p1 50 2 1 = 4";

#[test]
fn what_the_return_of_a_station_is_answered(rt: HostRuntime) -> Result<(), Fail> {
    check_lines(rt.alloc(), None, FIRST)?;
    let standing = standing(rt.alloc())?;
    check_lines(rt.alloc(), Some(&standing), SECOND)
}

/// The places of those who hold the seats of a list, as text.
fn held(alloc: Global, candidates: u32, seats: u32, gone: &[u32]) -> Result<String, Fail> {
    let places = holders(alloc, candidates, seats, gone)?;
    Ok(format!(in alloc; "{places:?}")?)
}

// The candidates and the seats of a list, the places of those who are gone, and of those who hold
// its seats.
const HOLDERS: [(u32, u32, &[u32], &str); 8] = [
    (3, 2, &[1], "[2, 3]"),
    (1, 2, &[], "[1]"),
    // once all seats are held no further candidate is looked at
    (4_000_000_000, 1, &[], "[1]"),
    (4_000_000_000, 2, &[1], "[2, 3]"),
    // after the recount where lots are fixed, and where they alternate
    (2, 2, &[], "[1, 2]"),
    (1, 1, &[1], "[]"),
    (2, 1, &[2], "[1]"),
    (1, 2, &[1], "[]"),
];

#[test]
fn who_holds_the_seats_of_a_list(rt: HostRuntime) -> Result<(), Fail> {
    for (candidates, seats, gone, wanted) in HOLDERS {
        let held = held(rt.alloc(), candidates, seats, gone)?;
        assert!(rt; held.as_str() == wanted);
    }
    Ok(())
}
