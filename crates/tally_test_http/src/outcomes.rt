//! The answers to commands.

use crate::groups::need_of;
use crate::lines::{cut, number};
use crate::setups::setup;
use std::alloc::Global;
use std::test::Fail;
use tally_desk_answer::{ANSWER_ROOM, BODY_ROOM, write_outcome};
use tally_returns::{Refusal, Reply, Status};
use tally_setup::{ListEntry, Setup};

// A reply with its number, or a refusal with what it says: of a lot the seats for which it is
// missing, and the seats and the votes of the lists among which it is needed by D'Hondt. In the
// last lines the constituency has other lists than A, B and C: one, and sixty with codes of sixteen
// characters.
pub(crate) const OUTCOMES: &str = r#"lodged 1 = 200 OK|23|{"ok":"lodged","rev":1}
same 1 = 200 OK|21|{"ok":"same","rev":1}
moved 2 = 200 OK|22|{"ok":"moved","rev":2}
moved 9999 = 200 OK|25|{"ok":"moved","rev":9999}
edition 2 = 200 OK|28|{"edition":2,"ok":"edition"}
vacated 2 = 200 OK|25|{"next":2,"ok":"vacated"}
vacated - = 200 OK|28|{"next":null,"ok":"vacated"}
refused 1 = 404 Not Found|33|{"refused":1,"word":"no_station"}
refused 2 = 404 Not Found|38|{"refused":2,"word":"no_constituency"}
refused 3 = 404 Not Found|35|{"refused":3,"word":"no_candidate"}
refused 4 = 400 Bad Request|33|{"refused":4,"word":"bad_counts"}
refused 5 = 400 Bad Request|31|{"refused":5,"word":"bad_note"}
refused 6 = 400 Bad Request|37|{"refused":6,"word":"too_many_votes"}
refused 7 5 = 409 Conflict|38|{"refused":7,"rev":5,"word":"differs"}
refused 8 = 404 Not Found|32|{"refused":8,"word":"no_return"}
refused 9 = 409 Conflict|32|{"refused":9,"word":"certified"}
refused 10 = 409 Conflict|37|{"refused":10,"word":"not_certified"}
refused 11 2 = 409 Conflict|37|{"now":2,"refused":11,"word":"stale"}
refused 12 = 409 Conflict|33|{"refused":12,"word":"exhausted"}
refused 13 received = 409 Conflict|56|{"refused":13,"status":"received","word":"wrong_status"}
refused 13 queried = 409 Conflict|55|{"refused":13,"status":"queried","word":"wrong_status"}
refused 13 corrected = 409 Conflict|57|{"refused":13,"status":"corrected","word":"wrong_status"}
refused 13 closed = 409 Conflict|54|{"refused":13,"status":"closed","word":"wrong_status"}
refused 14 1 = 409 Conflict|47|{"left":1,"refused":14,"word":"not_all_closed"}
refused 15 = 409 Conflict|35|{"refused":15,"word":"no_eligible"}
refused 16 = 409 Conflict|34|{"refused":16,"word":"lot_stands"}
refused 17 = 409 Conflict|38|{"refused":17,"word":"lot_not_needed"}
refused 18 3: 100 100 = 409 Conflict|57|{"group":["A","B"],"refused":18,"word":"lot_wrong_group"}
refused 19 1 of 3: 100 100 = 409 Conflict|63|{"group":["A","B"],"refused":19,"seats":1,"word":"lot_missing"}
refused 19 2 of 2: 100 100 100 = 409 Conflict|67|{"group":["A","B","C"],"refused":19,"seats":2,"word":"lot_missing"}
refused 19 1 of 1: 100 50 100 = 409 Conflict|63|{"group":["A","C"],"refused":19,"seats":1,"word":"lot_missing"}
refused 19 1 of 1: 50 100 100 = 409 Conflict|63|{"group":["B","C"],"refused":19,"seats":1,"word":"lot_missing"}
refused 20 = 409 Conflict|36|{"refused":20,"word":"already_gone"}
refused 21 = 409 Conflict|34|{"refused":21,"word":"not_holder"}
refused 24 = 409 Conflict|37|{"refused":24,"word":"not_confirmed"}
refused 22 = 503 Service Unavailable|22|{"word":"unavailable"}
refused 23 = 503 Service Unavailable|22|{"word":"unavailable"}
among ROBLE; refused 18 1: 100 100 = 409 Conflict|57|{"group":["ROBLE"],"refused":18,"word":"lot_wrong_group"}
among sixteen-long--10 sixteen-long--11 sixteen-long--12 sixteen-long--13 sixteen-long--14 sixteen-long--15 sixteen-long--16 sixteen-long--17 sixteen-long--18 sixteen-long--19 sixteen-long--20 sixteen-long--21 sixteen-long--22 sixteen-long--23 sixteen-long--24 sixteen-long--25 sixteen-long--26 sixteen-long--27 sixteen-long--28 sixteen-long--29 sixteen-long--30 sixteen-long--31 sixteen-long--32 sixteen-long--33 sixteen-long--34 sixteen-long--35 sixteen-long--36 sixteen-long--37 sixteen-long--38 sixteen-long--39 sixteen-long--40 sixteen-long--41 sixteen-long--42 sixteen-long--43 sixteen-long--44 sixteen-long--45 sixteen-long--46 sixteen-long--47 sixteen-long--48 sixteen-long--49 sixteen-long--50 sixteen-long--51 sixteen-long--52 sixteen-long--53 sixteen-long--54 sixteen-long--55 sixteen-long--56 sixteen-long--57 sixteen-long--58 sixteen-long--59 sixteen-long--60 sixteen-long--61 sixteen-long--62 sixteen-long--63 sixteen-long--64 sixteen-long--65 sixteen-long--66 sixteen-long--67 sixteen-long--68 sixteen-long--69; refused 19 4294967295 of 1: 100 100 100 100 100 100 100 100 100 100 100 100 100 100 100 100 100 100 100 100 100 100 100 100 100 100 100 100 100 100 100 100 100 100 100 100 100 100 100 100 100 100 100 100 100 100 100 100 100 100 100 100 100 100 100 100 100 100 100 100 = 409 Conflict|1204|{"group":["sixteen-long--10","sixteen-long--11","sixteen-long--12","sixteen-long--13","sixteen-long--14","sixteen-long--15","sixteen-long--16","sixteen-long--17","sixteen-long--18","sixteen-long--19","sixteen-long--20","sixteen-long--21","sixteen-long--22","sixteen-long--23","sixteen-long--24","sixteen-long--25","sixteen-long--26","sixteen-long--27","sixteen-long--28","sixteen-long--29","sixteen-long--30","sixteen-long--31","sixteen-long--32","sixteen-long--33","sixteen-long--34","sixteen-long--35","sixteen-long--36","sixteen-long--37","sixteen-long--38","sixteen-long--39","sixteen-long--40","sixteen-long--41","sixteen-long--42","sixteen-long--43","sixteen-long--44","sixteen-long--45","sixteen-long--46","sixteen-long--47","sixteen-long--48","sixteen-long--49","sixteen-long--50","sixteen-long--51","sixteen-long--52","sixteen-long--53","sixteen-long--54","sixteen-long--55","sixteen-long--56","sixteen-long--57","sixteen-long--58","sixteen-long--59","sixteen-long--60","sixteen-long--61","sixteen-long--62","sixteen-long--63","sixteen-long--64","sixteen-long--65","sixteen-long--66","sixteen-long--67","sixteen-long--68","sixteen-long--69"],"refused":19,"seats":4294967295,"word":"lot_missing"}"#;

const WITHOUT_MEMBERS: [Refusal; 18] = [
    Refusal::NoStation,
    Refusal::NoConstituency,
    Refusal::NoCandidate,
    Refusal::BadCounts,
    Refusal::BadNote,
    Refusal::TooManyVotes,
    Refusal::NoReturn,
    Refusal::Certified,
    Refusal::NotCertified,
    Refusal::Exhausted,
    Refusal::NoEligible,
    Refusal::LotStands,
    Refusal::LotNotNeeded,
    Refusal::AlreadyGone,
    Refusal::NotHolder,
    Refusal::NotConfirmed,
    Refusal::Memory,
    Refusal::Store,
];

fn outcome_of(alloc: Global, line: &str) -> Result<Result<Reply, Refusal>, Fail> {
    let (word, said) = cut(line, " ");
    if word == "refused" {
        return Ok(Err(refusal_of(alloc, said)?));
    }
    Ok(Ok(reply_of(word, said)))
}

fn reply_of(word: &str, said: &str) -> Reply {
    let count = number(said);
    match word {
        "lodged" => Reply::Lodged { rev: count },
        "same" => Reply::Same { rev: count },
        "moved" => Reply::Moved { rev: count },
        "edition" => Reply::Edition { edition: count },
        _ => Reply::Vacated {
            next: said.parse::<u32>().ok(),
        },
    }
}

fn refusal_of(alloc: Global, line: &str) -> Result<Refusal, Fail> {
    let (refused, said) = cut(line, " ");
    match refused {
        "7" => Ok(Refusal::Differs { rev: number(said) }),
        "11" => Ok(Refusal::Stale { now: number(said) }),
        "13" => Ok(Refusal::WrongStatus {
            status: status(said),
        }),
        "14" => Ok(Refusal::NotAllClosed { left: number(said) }),
        "18" => wrong_group(alloc, said),
        "19" => lot_missing(alloc, said),
        _ => Ok(without_members(number(refused))),
    }
}

fn wrong_group(alloc: Global, line: &str) -> Result<Refusal, Fail> {
    let need = need_of(alloc, line)?;
    Ok(Refusal::LotWrongGroup { group: need.group })
}

fn lot_missing(alloc: Global, line: &str) -> Result<Refusal, Fail> {
    let (seats, poll) = cut(line, " of ");
    let need = need_of(alloc, poll)?;
    Ok(Refusal::LotMissing {
        group: need.group,
        seats: number(seats),
    })
}

fn without_members(number: u32) -> Refusal {
    for refusal in WITHOUT_MEMBERS {
        if refusal.number() == number {
            return refusal;
        }
    }
    Refusal::Store
}

/// A status of a return by its word.
fn status(word: &str) -> Status {
    match word {
        "received" => Status::Received,
        "queried" => Status::Queried,
        "corrected" => Status::Corrected,
        _ => Status::Closed,
    }
}

fn written(
    alloc: Global,
    lists: &[ListEntry],
    outcome: &Result<Reply, Refusal>,
) -> Result<String, Fail> {
    if lists.len() > 60 {
        return Err(Fail::from("too many lists"));
    }
    let mut out = Vec::with_capacity(alloc, ANSWER_ROOM)?;
    let mut body = Vec::with_capacity(alloc, BODY_ROOM)?;
    write_outcome(&mut out, &mut body, lists, outcome);
    Ok(String::from_utf8_lossy(alloc, &out)?)
}

fn written_in(
    alloc: Global,
    setup: &Setup,
    outcome: &Result<Reply, Refusal>,
) -> Result<String, Fail> {
    match setup.cons().first() {
        Some(con) => written(alloc, &con.lists, outcome),
        None => Err(Fail::from("no constituency")),
    }
}

/// The answer to an outcome in a constituency with lists of these codes.
fn answer_among(
    alloc: Global,
    lists: &str,
    outcome: &Result<Reply, Refusal>,
) -> Result<String, Fail> {
    let setup = setup(alloc, lists)?;
    written_in(alloc, &setup, outcome)
}

/// The answer to the outcome of a line, in a constituency with three lists or with those that it
/// names.
pub(crate) fn outcome_answer(alloc: Global, line: &str) -> Result<String, Fail> {
    let (lists, line) = match line.strip_prefix("among ") {
        Some(rest) => cut(rest, "; "),
        None => ("A B C", line),
    };
    let outcome = outcome_of(alloc, line)?;
    answer_among(alloc, lists, &outcome)
}
