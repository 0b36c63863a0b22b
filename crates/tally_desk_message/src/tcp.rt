//! Connections over TCP.

ghost use Rattle.std.specs.Prelude.{◌≤◌, length, IfOk};

use crate::door::{Door, DoorFault};
use std::io;
use std::io::{ErrorKind, Read, Write};
use std::net::{Shutdown, TcpListener, TcpStream};
use std::time::{Clock, Duration, Instant};

/// How long a read or a write may wait, in seconds.
const WAIT_SECONDS: u64 = 10;

/// How long after a connection was taken its reads fail, where a clock is at hand, in seconds.
const READING_SECONDS: u64 = 30;

/// How long after the first write of a connection its writes fail, where a clock is at hand, in
/// seconds.
const WRITING_SECONDS: u64 = 30;

/// How long what a client still sends is read and thrown away before its connection is closed, in
/// milliseconds.
const LINGER_MILLISECONDS: u64 = 2_000;

/// How much of that is read.
const LINGER_BYTES: usize = 2_097_152;

/// How much of it is read at a time.
const PIECE: usize = 4_096;

/// In place of a clock where there is none.
#[derive(Clone, Copy)]
pub struct NoClock;

impl Clock for NoClock {
    fn monotonic(&self) -> io::Result<Duration> {
        Err(ErrorKind::Unsupported.into())
    }

    fn since_1970(&self) -> io::Result<Duration> {
        Err(ErrorKind::Unsupported.into())
    }
}

/// A connection, whether a write to it was begun, when the time of its reads and that of its writes
/// is over, and how long its socket waits in a read and in a write, where that was set.
#[derive(Drop)]
struct Timed {
    stream: TcpStream,
    is_written: bool,
    read_end: Option<Instant>,
    write_end: Option<Instant>,
    read_wait: Option<Duration>,
    write_wait: Option<Duration>,
}

/// The connections of a listener, one after the other. It is not known what they give and take.
///
/// A read or a write fails where it waits for longer than ten seconds. With a clock a read also
/// fails thirty seconds after the connection was taken, and a write thirty seconds after the first
/// one, so that a client cannot hold the door for as long as it likes. What is done between reading
/// and writing is counted in neither time.
///
/// Where a connection ends, when the door takes the next one or is dropped, its client can still
/// read what was written: writing is shut, and what the client still sends is read and thrown away
/// up to its end, 2 MiB or two seconds. A socket that is closed with bytes unread would be reset,
/// and the client might lose its answer (RFC 9112, section 9.6). Where no write was begun, as after
/// a read that failed, there is no answer to lose, and the connection is closed at once.
pub struct TcpDoor<C: Clock + Drop = NoClock> {
    listener: TcpListener,
    clock: C,
    current: Option<Timed>,
}

impl Timed {
    fn read<C: Clock>(&mut self, clock: &C, buf: &mut [u8]) -> Result<usize, DoorFault>
        ensures { IfOk result (λ n. n ≤ length buf.new) }
    {
        let wait = Some(time_left(clock, self.read_end, Duration::from_secs(WAIT_SECONDS)));
        if self.read_wait != wait {
            if self.stream.set_read_timeout(wait).is_err() {
                return Err(DoorFault::Failed);
            }
            self.read_wait = wait;
        }
        match self.stream.read(buf) {
            Ok(count) => Ok(count),
            Err(_) => Err(DoorFault::Failed),
        }
    }

    fn write<C: Clock>(&mut self, clock: &C, bytes: &[u8]) -> Result<usize, DoorFault>
        ensures { IfOk result (λ n. n ≤ length bytes.now) }
    {
        if !self.is_written {
            self.is_written = true;
            self.write_end = end_of(clock, Duration::from_secs(WRITING_SECONDS));
        }
        let wait = Some(time_left(clock, self.write_end, Duration::from_secs(WAIT_SECONDS)));
        if self.write_wait != wait {
            if self.stream.set_write_timeout(wait).is_err() {
                return Err(DoorFault::Failed);
            }
            self.write_wait = wait;
        }
        match self.stream.write(bytes) {
            Ok(count) => Ok(count),
            Err(_) => Err(DoorFault::Failed),
        }
    }

    /// Ends the connection so that its client can still read what was written, where something was.
    fn end(mut self) {
        if self.is_written && self.stream.shutdown(Shutdown::Write).is_ok() {
            let _ended = discard(&mut self.stream);
        }
    }
}

impl TcpDoor<NoClock> {
    /// A door that has no clock.
    pub fn new(listener: TcpListener) -> TcpDoor<NoClock> {
        TcpDoor::timed(listener, NoClock)
    }
}

impl<C: Clock + Drop> TcpDoor<C> {
    /// A door that also bounds the time in which a connection is read, and that in which it is
    /// written.
    pub fn timed(listener: TcpListener, clock: C) -> TcpDoor<C> {
        TcpDoor {
            listener,
            clock,
            current: None,
        }
    }
}

impl<C: Clock + Drop> Drop for TcpDoor<C> {
    fn drop(self) {
        let TcpDoor {
            listener: _,
            clock: _,
            current,
        } = self;
        if let Some(timed) = current {
            timed.end();
        }
    }
}

/// When so long a time from now is over, where a clock says so.
fn end_of<C: Clock>(clock: &C, time: Duration) -> Option<Instant> {
    match Instant::now(clock) {
        Ok(now) => now.checked_add(time),
        Err(_) => None,
    }
}

/// How long a call may wait: at most so long, and no longer than up to the end of the time. Nothing
/// is left after it.
fn time_left<C: Clock>(clock: &C, end: Option<Instant>, most: Duration) -> Duration {
    let Some(end) = end else {
        return most;
    };
    match Instant::now(clock) {
        Ok(now) => end.duration_since(now).min(most),
        Err(_) => most,
    }
}

/// Reads what a client still sends and throws it away. This needs no clock: each read is counted as
/// the whole time that it may wait. That is a millisecond, and after each read in which nothing
/// came twice as long.
fn discard(stream: &mut TcpStream) -> io::Result<()> {
    let mut piece = [0u8; PIECE];
    let mut bytes = LINGER_BYTES;
    let mut time = LINGER_MILLISECONDS;
    let mut wait = 1u64;
    for _ in 0..LINGER_MILLISECONDS {
        if bytes == 0 || time == 0 {
            return Ok(());
        }
        wait = wait.min(time);
        time -= wait;
        match read_within(stream, wait, &mut piece)? {
            Some(0) => return Ok(()),
            Some(count) => {
                bytes = bytes.saturating_sub(count);
                wait = 1;
            }
            None => wait = wait.saturating_mul(2),
        }
    }
    Ok(())
}

/// Reads what comes within this many milliseconds: none where nothing does, 0 bytes at the end.
fn read_within(stream: &mut TcpStream, wait: u64, buf: &mut [u8]) -> io::Result<Option<usize>> {
    stream.set_read_timeout(Some(Duration::from_millis(wait)))?;
    match stream.read(buf) {
        Ok(count) => Ok(Some(count)),
        Err(error) if error.kind() == ErrorKind::WouldBlock => Ok(None),
        Err(error) => Err(error),
    }
}

impl<C: Clock + Drop> Door for TcpDoor<C> {
    ghost use Rattle.std.specs.Prelude.{None, is_some};

    ghost known = { λ _. None };

    ghost connected = { λ d. is_some d.current };

    fn next(&mut self) -> Result<(), DoorFault> {
        if let Some(timed) = self.current.take() {
            timed.end();
        }
        let Ok((stream, _)) = self.listener.accept() else {
            return Err(DoorFault::Failed);
        };
        let read_end = end_of(&self.clock, Duration::from_secs(READING_SECONDS));
        self.current = Some(Timed {
            stream,
            is_written: false,
            read_end,
            write_end: None,
            read_wait: None,
            write_wait: None,
        });
        Ok(())
    }

    fn read(&mut self, buf: &mut [u8]) -> Result<usize, DoorFault> {
        let Some(timed) = &mut self.current else {
            unreachable!()
        };
        timed.read(&self.clock, buf)
    }

    fn write(&mut self, bytes: &[u8]) -> Result<usize, DoorFault> {
        let Some(timed) = &mut self.current else {
            unreachable!()
        };
        timed.write(&self.clock, bytes)
    }
}
