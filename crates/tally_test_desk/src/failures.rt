//! Connections whose reads or writes fail, after each number of bytes in turn.

use crate::lines::{answer, cut, message, office_after};
use crate::offices::{Office, ROOM, Stored, connection, exchange};
use crate::scripts::CERTIFIED;
use std::alloc::{AllocError, Global};
use std::test::*;
use tally_core::{Book, Keeper};
use tally_desk::{MemoryDoor, serve};
use tally_test_scripts::TWIN_TOWN;

// Two lists of 100 votes each, and a lot by which B is first.
const DRAWN: &str =
    r#"POST /station/s1/lodge {"slip":"p1","votes":[100,100],"blank":0,"spoiled":0} = 200 OK|{"ok":"lodged","rev":1}
POST /station/s1/close {"rev":1} = 200 OK|{"ok":"moved","rev":2}
POST /con/c1/draw {"edition":1,"order":["B","A"]} = 200 OK|{"edition":2,"ok":"edition"}"#;

// What was done before, a message with its answer, and the answer to the same message again.
const CASES: [(&str, &str, &str); 7] = [
    (
        "",
        r#"POST /station/s1/lodge {"slip":"p1","votes":[50,40],"blank":2,"spoiled":1} = 200 OK|{"ok":"lodged","rev":1}"#,
        r#"200 OK|{"ok":"same","rev":1}"#,
    ),
    (
        "",
        r#"POST /station/s1/close {"rev":1} = 404 Not Found|{"refused":8,"word":"no_return"}"#,
        r#"404 Not Found|{"refused":8,"word":"no_return"}"#,
    ),
    (
        "",
        r#"POST /con/c1/import station,slip,blank,spoiled,A,B|s1,p1,0,0,10,20|s2,p2,1,0,30,40 = 200 OK|{"bad":1,"differs":0,"first":[2,0],"lodged":1,"ok":"import","refused":0,"same":0}"#,
        r#"200 OK|{"bad":1,"differs":0,"first":[2,0],"lodged":0,"ok":"import","refused":0,"same":1}"#,
    ),
    (
        DRAWN,
        r#"POST /station/s1/query {"rev":2,"note":"sum"} = 200 OK|{"ok":"moved","rev":3}"#,
        r#"409 Conflict|{"now":3,"refused":11,"word":"stale"}"#,
    ),
    (
        DRAWN,
        r#"POST /con/c1/certify {"edition":2} = 200 OK|{"edition":3,"ok":"edition"}"#,
        r#"409 Conflict|{"refused":9,"word":"certified"}"#,
    ),
    (
        CERTIFIED,
        r#"POST /con/c1/reopen {"edition":3,"note":"recount"} = 200 OK|{"edition":4,"ok":"edition"}"#,
        r#"409 Conflict|{"refused":10,"word":"not_certified"}"#,
    ),
    (
        CERTIFIED,
        r#"GET /con/c1 = 200 OK|{"blank":0,"certified":true,"closed":1,"con":"c1","edition":3,"gone":[],"lot":["B","A"],"note":"","seats":[1,2],"spoiled":0,"stations":1,"votes":[100,100]}"#,
        r#"200 OK|{"blank":0,"certified":true,"closed":1,"con":"c1","edition":3,"gone":[],"lot":["B","A"],"note":"","seats":[1,2],"spoiled":0,"stations":1,"votes":[100,100]}"#,
    ),
];

// What shows all that these messages change.
const LOOKS: [&str; 4] = [
    "GET /progress HTTP/1.1\r\n\r\n",
    "GET /station/s1 HTTP/1.1\r\n\r\n",
    "GET /con/c1 HTTP/1.1\r\n\r\n",
    "GET /con/c1/past HTTP/1.1\r\n\r\n",
];

// What an office shows.
fn shown<K: Keeper>(alloc: Global, office: &mut K) -> Result<String, Fail> {
    let mut text = String::new(alloc);
    for look in LOOKS {
        let (_, answer) = exchange(alloc, office, look, None, ROOM)?;
        text.push_str(answer.as_str())?;
    }
    Ok(text)
}

// Fails where a connection does not fail, or something is written to it, though a read of the
// message fails after each number of bytes in turn.
fn check_reads<K: Keeper>(alloc: Global, office: &mut K, text: &str) -> Result<(), Fail> {
    for count in 0..text.len() {
        let (failed, written) = exchange(alloc, office, text, Some(count), ROOM)?;
        if failed != 1 || !written.is_empty() {
            return Err(Fail::from(written));
        }
    }
    Ok(())
}

// The same, where the office shows another thing after it than before, and where the message sent
// again is answered otherwise than for the first time.
fn check_case_of_reads<K: Office>(
    alloc: Global,
    before: &str,
    text: &str,
    want: &str,
) -> Result<(), Fail> {
    let mut office = office_after::<K>(alloc, TWIN_TOWN, before)?;
    let first = shown(alloc, &mut office)?;
    check_reads(alloc, &mut office, text)?;
    let last = shown(alloc, &mut office)?;
    if first.as_str() != last.as_str() {
        return Err(Fail::from(last));
    }
    let (_, taken) = exchange(alloc, &mut office, text, None, ROOM)?;
    if taken.as_str() != want {
        return Err(Fail::from(taken));
    }
    Ok(())
}

// A message, its answer, what an office shows after it, and the answer to the same message again.
#[derive(Clone, Copy)]
struct Case<'a> {
    text: &'a str,
    want: &'a str,
    after: &'a str,
    again: &'a str,
}

// Fails where something is other than in this case though the connection takes only this many bytes
// of the answer.
fn check_write<K: Keeper>(
    alloc: Global,
    office: &mut K,
    case: Case<'_>,
    room: usize,
) -> Result<(), Fail> {
    let (failed, taken) = exchange(alloc, office, case.text, None, room)?;
    if failed != 1 || taken.len() != room || !case.want.starts_with(taken.as_str()) {
        return Err(Fail::from(taken));
    }
    let after = shown(alloc, office)?;
    if after.as_str() != case.after {
        return Err(Fail::from(after));
    }
    let (_, again) = exchange(alloc, office, case.text, None, ROOM)?;
    if again.as_str() != case.again {
        return Err(Fail::from(again));
    }
    Ok(())
}

// The same for each number of bytes up to one less than the answer's, each time of an office after
// these lines.
fn check_writes<K: Office>(alloc: Global, before: &str, case: Case<'_>) -> Result<(), Fail> {
    for room in 0..case.want.len() {
        let mut office = office_after::<K>(alloc, TWIN_TOWN, before)?;
        check_write(alloc, &mut office, case, room)?;
    }
    Ok(())
}

// What an office shows after a message whose answer was written whole.
fn shown_after<K: Office>(alloc: Global, before: &str, text: &str) -> Result<String, Fail> {
    let mut office = office_after::<K>(alloc, TWIN_TOWN, before)?;
    exchange(alloc, &mut office, text, None, ROOM)?;
    shown(alloc, &mut office)
}

fn check_case<K: Office>(alloc: Global, before: &str, line: &str, again: &str) -> Result<(), Fail> {
    let (said, want) = cut(line, " = ");
    let (text, want) = (message(alloc, said)?, answer(alloc, want)?);
    check_case_of_reads::<K>(alloc, before, text.as_str(), want.as_str())?;
    let after = shown_after::<K>(alloc, before, text.as_str())?;
    let again = answer(alloc, again)?;
    let case = Case {
        text: text.as_str(),
        want: want.as_str(),
        after: after.as_str(),
        again: again.as_str(),
    };
    check_writes::<K>(alloc, before, case)
}

fn check_cases<K: Office>(alloc: Global) -> Result<(), Fail> {
    for (before, line, again) in CASES {
        check_case::<K>(alloc, before, line, again)?;
    }
    Ok(())
}

// Where a read fails nothing is written and nothing changes; where a write fails all was done.
#[test]
fn a_message_is_answered_or_nothing_changes(rt: HostRuntime) -> Result<(), Fail> {
    check_cases::<Book>(rt.alloc())?;
    check_cases::<Stored>(rt.alloc())
}

// A first line that can be no head.
const BAD_HEAD: &str = "GET /progress HTTP/2.0\r\n\r\n";

fn check_bad_head<K: Office>(alloc: Global) -> Result<(), Fail> {
    let mut office = K::made(alloc, TWIN_TOWN)?;
    check_reads(alloc, &mut office, BAD_HEAD)
}

// A read that fails after such a line is not answered either.
#[test]
fn a_bad_line_before_a_failed_read_is_not_answered(rt: HostRuntime) -> Result<(), Fail> {
    check_bad_head::<Book>(rt.alloc())?;
    check_bad_head::<Stored>(rt.alloc())
}

// The worked message of docs/FORMATS.md.
const LODGE: &str = "POST /station/s1/lodge HTTP/1.1\r
Content-Length: 51\r
\r
{\"slip\":\"p1\",\"votes\":[50,40],\"blank\":2,\"spoiled\":1}";

// What it is answered first, and when it comes again.
const LODGED: &str = "HTTP/1.1 200 OK\r
Content-Type: application/json\r
Content-Length: 23\r
Connection: close\r
\r
{\"ok\":\"lodged\",\"rev\":1}";

const SAME: &str = "HTTP/1.1 200 OK\r
Content-Type: application/json\r
Content-Length: 21\r
Connection: close\r
\r
{\"ok\":\"same\",\"rev\":1}";

// Two connections that give the same message: the first takes this many bytes, and a read of the
// second may fail.
fn two_connections(
    alloc: Global,
    room: usize,
    read_fails: Option<usize>,
) -> Result<MemoryDoor, AllocError> {
    let mut conns = Vec::new(alloc);
    conns.push(connection(alloc, LODGE, None, room)?)?;
    conns.push(connection(alloc, LODGE, read_fails, ROOM)?)?;
    Ok(MemoryDoor::new(conns))
}

fn is_written(door: &MemoryDoor, place: usize, text: &str) -> bool {
    match door.conns().get(place) {
        Some(conn) => conn.written() == text.as_bytes(),
        None => false,
    }
}

// Fails unless one of the two was answered, the other failed, and just these texts were written.
fn check_two<K: Office>(
    alloc: Global,
    room: usize,
    read_fails: Option<usize>,
    first: &str,
    second: &str,
) -> Result<(), Fail> {
    let mut office = K::made(alloc, TWIN_TOWN)?;
    let mut door = two_connections(alloc, room, read_fails)?;
    let served = serve(alloc, &mut office, &mut door, 2);
    let is_one = served.answered == 1 && served.failed == 1;
    if is_one && is_written(&door, 0, first) && is_written(&door, 1, second) {
        return Ok(());
    }
    Err(Fail::from("another answer"))
}

// The second connection's read fails at once, or the first one's writes after ten bytes.
#[test]
fn one_of_two_connections_fails(rt: HostRuntime) -> Result<(), Fail> {
    for (room, read_fails, first, second) in [
        (ROOM, Some(0), LODGED, ""),
        (10, None, "HTTP/1.1 2", SAME),
    ] {
        check_two::<Book>(rt.alloc(), room, read_fails, first, second)?;
        check_two::<Stored>(rt.alloc(), room, read_fails, first, second)?;
    }
    Ok(())
}
