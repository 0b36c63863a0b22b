//! Connections in memory and over TCP.

ghost use Rattle.std.specs.Prelude.{◌≡◌, true};

use std::alloc::{AllocError, Global};
use std::cell::Cell;
use std::io;
use std::io::{ErrorKind, Read, Write};
use std::net::{Shutdown, TcpListener, TcpStream};
use std::test::Fail;
use std::time::{Clock, Duration, Instant};
use tally_desk_message::{Door, DoorFault, MemoryConn, MemoryDoor, TcpDoor, write_all};

// A connection that gives a text.
fn conn(
    alloc: Global,
    text: &[u8],
    read_fails: Option<usize>,
    room: usize,
) -> Result<MemoryConn, AllocError> {
    MemoryConn::new(alloc, Vec::from_slice(alloc, text)?, read_fails, room)
}

// The first takes four bytes; a read and each write of the second fail; the third ends at once.
fn three_connections(alloc: Global) -> Result<MemoryDoor, AllocError> {
    let mut conns = Vec::new(alloc);
    conns.push(conn(alloc, b"abc", None, 4)?)?;
    conns.push(conn(alloc, b"abc", Some(2), 0)?)?;
    conns.push(conn(alloc, b"", None, 8)?)?;
    Ok(MemoryDoor::new(conns))
}

// What a read of four bytes at most gives.
fn bytes_read<D: Door>(alloc: Global, door: &mut D, most: usize) -> Result<String, Fail>
    requires { D.connected door.old ≡ true }
    ensures { D.connected door.new ≡ true }
{
    let mut buf = [0u8; 4];
    let most = most.min(buf.len());
    match door.read(&mut buf[..most]) {
        Ok(count) => Ok(String::from_utf8_lossy(alloc, &buf[..count])?),
        Err(DoorFault::Failed) => Ok(String::from_str(alloc, "failed")?),
    }
}

// Whether the current connection takes a text whole.
fn is_taken<D: Door>(door: &mut D) -> bool
    requires { D.connected door.old ≡ true }
    ensures { D.connected door.new ≡ true }
{
    write_all(door, b"hello").is_ok()
}

// What three reads of the next connection give, and whether it takes a text.
fn talk<D: Door>(alloc: Global, door: &mut D) -> Result<String, Fail> {
    if door.next().is_err() {
        return Ok(String::from_str(alloc, "none is to come")?);
    }
    let first = bytes_read(alloc, door, 2)?;
    let second = bytes_read(alloc, door, 4)?;
    let third = bytes_read(alloc, door, 4)?;
    let taken = is_taken(door);
    Ok(format!(in alloc; "[{first}] [{second}] [{third}] {taken}")?)
}

// What was written to the connections of a door.
fn written(alloc: Global, door: &MemoryDoor) -> Result<String, Fail> {
    let mut text = Vec::new(alloc);
    for conn in door.conns() {
        text.extend_from_slice(conn.written())?;
        text.push(b'.')?;
    }
    Ok(String::from_utf8_lossy(alloc, &text)?)
}

#[test]
fn a_door_in_memory_takes_up_each_connection_once(rt: HostRuntime) -> Result<(), Fail> {
    let alloc = rt.alloc();
    let mut door = three_connections(alloc)?;
    for expected in [
        "[ab] [c] [] false",
        "[ab] [failed] [failed] false",
        "[] [] [] true",
        "none is to come",
        "none is to come",
    ] {
        assert!(rt; talk(alloc, &mut door)?.as_str() == expected, "{expected}");
    }
    assert!(rt; written(alloc, &door)?.as_str() == "hell..hello.");
    Ok(())
}

// Reads two bytes of a client's three, answers it, and ends the connection.
fn answer<D: Door + Drop>(mut door: D) -> Result<(), DoorFault> {
    door.next()?;
    let mut two = [0u8; 2];
    if door.read(&mut two)? != 2 {
        return Err(DoorFault::Failed);
    }
    write_all(&mut door, b"hello")
}

// A listener, and a client that has sent it three bytes, and that ends there or is silent.
fn client_of(rt: &HostRuntime, is_ended: bool) -> Result<(TcpListener, TcpStream), Fail> {
    let listener = TcpListener::bind(rt, "127.0.0.1:0")?;
    let mut client = TcpStream::connect(rt, listener.local_addr()?)?;
    client.write_all(b"abc")?;
    if is_ended {
        client.shutdown(Shutdown::Write)?;
    }
    Ok((listener, client))
}

// A door that failed is the failure of a test.
fn passed(done: Result<(), DoorFault>) -> Result<(), Fail> {
    match done {
        Ok(()) => Ok(()),
        Err(DoorFault::Failed) => Err(Fail::from("the door failed")),
    }
}

// What such a client reads.
fn answer_to(rt: &HostRuntime, is_timed: bool, is_ended: bool) -> Result<String, Fail> {
    let (listener, mut client) = client_of(rt, is_ended)?;
    if is_timed {
        passed(answer(TcpDoor::timed(listener, rt)))?;
    } else {
        passed(answer(TcpDoor::new(listener)))?;
    }
    let mut text = Vec::new(rt.alloc());
    client.read_to_end(&mut text)?;
    Ok(String::from_utf8_lossy(rt.alloc(), &text)?)
}

#[test]
fn an_answer_arrives_over_loopback(rt: HostRuntime) -> Result<(), Fail> {
    for is_timed in [false, true] {
        assert!(rt; answer_to(&rt, is_timed, true)?.as_str() == "hello");
    }
    Ok(())
}

// A clock that goes on by twenty seconds each time it is asked.
#[derive(Drop)]
struct Leaping {
    seconds: Cell<u64>,
}

impl Clock for Leaping {
    fn monotonic(&self) -> io::Result<Duration> {
        let now = self.seconds.get();
        self.seconds.set(now.saturating_add(20));
        Ok(Duration::from_secs(now))
    }

    fn since_1970(&self) -> io::Result<Duration> {
        Err(ErrorKind::Unsupported.into())
    }
}

fn by_leaps(listener: TcpListener) -> TcpDoor<Leaping> {
    let clock = Leaping {
        seconds: Cell::new(0),
    };
    TcpDoor::timed(listener, clock)
}

// The connection is taken at 0 seconds and read at 20, and what is written begins at 40, so that
// thirty seconds in all would be over.
#[test]
fn writes_have_a_time_of_their_own(rt: HostRuntime) -> Result<(), Fail> {
    let (listener, _client) = client_of(&rt, true)?;
    passed(answer(by_leaps(listener)))
}

// What two reads of the next connection give, and whether it takes a text twice.
fn two_of_each<D: Door>(alloc: Global, door: &mut D) -> Result<String, Fail> {
    if door.next().is_err() {
        return Ok(String::from_str(alloc, "none is to come")?);
    }
    let first = bytes_read(alloc, door, 2)?;
    let second = bytes_read(alloc, door, 2)?;
    let taken = is_taken(door);
    let again = is_taken(door);
    Ok(format!(in alloc; "[{first}] [{second}] {taken} {again}")?)
}

// The connection is taken at 0 seconds: a read at 20 is in time, one at 40 is not. What is written
// begins at 60: a write at 80 is in time, one at 100 is not.
#[test]
fn reads_and_writes_fail_after_thirty_seconds(rt: HostRuntime) -> Result<(), Fail> {
    let (listener, _client) = client_of(&rt, true)?;
    let mut door = by_leaps(listener);
    let said = two_of_each(rt.alloc(), &mut door)?;
    assert!(rt; said.as_str() == "[ab] [failed] true false", "{said}");
    Ok(())
}

// Reads two bytes of a client's three and ends the connection, to which nothing was written.
fn listen<D: Door + Drop>(mut door: D) -> Result<(), DoorFault> {
    door.next()?;
    let mut two = [0u8; 2];
    door.read(&mut two)?;
    Ok(())
}

#[test]
fn a_silent_client_that_has_no_answer_is_not_waited_for(rt: HostRuntime) -> Result<(), Fail> {
    let (listener, _client) = client_of(&rt, false)?;
    let begun = Instant::now(&rt)?;
    passed(listen(TcpDoor::new(listener)))?;
    assert!(rt; begun.elapsed(&rt)? < Duration::from_millis(1_900));
    Ok(())
}

#[test]
fn a_silent_client_is_waited_for(rt: HostRuntime) -> Result<(), Fail> {
    let begun = Instant::now(&rt)?;
    assert!(rt; answer_to(&rt, false, false)?.as_str() == "hello");
    assert!(rt; begun.elapsed(&rt)? >= Duration::from_millis(1_900));
    Ok(())
}
