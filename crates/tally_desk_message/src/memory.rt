//! Connections in memory.

ghost use Rattle.std.specs.Prelude.{◌≡◌, ◌<◌, ◌+◌, ◌^◌, if◌then◌else◌, [], true, IfOk, None};
ghost use Rattle.tally_desk_message.specs.Connection.{HasRead, HasWritten, connections};
ghost use Rattle.tally_desk_message.specs.Connection.{all_connections};
ghost use Rattle.tally_desk_message.specs.Memory.{new_connection};

use crate::door::{Door, DoorFault};
use std::alloc::{AllocError, Global};
use std::marker::Model;

/// A connection in memory: the bytes that it gives, and room for what is written.
#[derive(Drop)]
pub struct MemoryConn {
    input: Vec<u8>,
    at: usize,
    fails: bool,
    read_failed: bool,
    room: usize,
    written: Vec<u8>,
}

impl Model for MemoryConn {
    ghost use Rattle.std.specs.Prelude.{◌≤◌, ◌+◌, drop, length};
    ghost use Rattle.std.specs.Vec.{vec_len, vec_capacity};
    ghost use Rattle.tally_desk_message.specs.Connection.{Connection};

    ghost Value = { Connection };

    ghost view = { λ c. record {
      input = drop c.at c.input.items;
      fails = c.fails;
      read_failed = c.read_failed;
      room = c.room;
      written = c.written.items;
    } };

    ghost invariant = { λ c. (c.at ≤ length c.input.items)
        × (vec_len c.written + c.room ≤ vec_capacity c.written) };
}

impl MemoryConn {
    /// A connection whose reads fail once `read_fails` bytes were given, and whose writes take
    /// `room` bytes in all and then fail. Its reads and writes take no memory.
    pub fn new(
        alloc: Global,
        mut input: Vec<u8>,
        read_fails: Option<usize>,
        room: usize,
    ) -> Result<MemoryConn, AllocError>
        ensures { IfOk result (λ c. c ≡ new_connection input.items read_fails room) }
    {
        let written = Vec::with_capacity(alloc, room)?;
        let fails = match read_fails {
            Some(count) => count <= input.len(),
            None => false,
        };
        if let Some(count) = read_fails {
            input.truncate(count);
        }
        Ok(MemoryConn {
            input,
            at: 0,
            fails,
            read_failed: false,
            room,
            written,
        })
    }

    /// The bytes that were written to it.
    pub fn written(&self) -> &[u8]
        ensures { result.now ≡ self.now.written }
    {
        &self.written
    }

    fn read(&mut self, buf: &mut [u8]) -> Result<usize, DoorFault>
        ensures { HasRead self.old buf.new result self.new }
    {
        let left = &self.input[self.at..];
        if self.fails && left.is_empty() {
            self.read_failed = true;
            return Err(DoorFault::Failed);
        }
        let count = buf.len().min(left.len());
        buf[..count].copy_from_slice(&left[..count]);
        self.at += count;
        Ok(count)
    }

    fn write(&mut self, bytes: &[u8]) -> Result<usize, DoorFault>
        ensures { HasWritten self.old bytes.now result self.new }
    {
        let count = bytes.len().min(self.room);
        if count == 0 && !bytes.is_empty() {
            return Err(DoorFault::Failed);
        }
        match self.written.extend_from_slice(&bytes[..count]) {
            Ok(()) => {}
            Err(_) => unreachable!(),
        }
        self.room -= count;
        Ok(count)
    }
}

/// The place of the connection that follows: the one at `at`, where it was not taken yet.
fn place_after(at: usize, connected: bool) -> usize
    requires { connected ≡ true → at + 1 < 2 ^ 64 }
    ensures { result ≡ (if connected then at + 1 else at) }
{
    if connected { at + 1 } else { at }
}

/// Connections in memory, each taken up once, in order.
#[derive(Drop)]
pub struct MemoryDoor {
    conns: Vec<MemoryConn>,
    at: usize,
    connected: bool,
}

impl Model for MemoryDoor {
    ghost use Rattle.std.specs.Prelude.{◌≤◌, ◌<◌, ◌≡◌, true, length};
    ghost use Rattle.tally_desk_message.specs.Connection.{Connections};
    ghost use Rattle.tally_desk_message.specs.Memory.{connections_at};

    ghost Value = { Connections };

    ghost view = { λ d. connections_at d.conns.items d.at d.connected };

    ghost invariant = { λ d. (d.at ≤ length d.conns.items)
        × (d.connected ≡ true → d.at < length d.conns.items) };
}

impl MemoryDoor {
    /// A door that takes up these connections, of which none is current yet.
    pub fn new(conns: Vec<MemoryConn>) -> MemoryDoor
        ensures { result ≡ connections [] None conns.items }
    {
        MemoryDoor {
            conns,
            at: 0,
            connected: false,
        }
    }

    /// Its connections, in order.
    pub fn conns(&self) -> &[MemoryConn]
        ensures { result.now ≡ all_connections self.now }
    {
        &self.conns
    }
}

/// `next` fails once the last connection was taken up.
impl Door for MemoryDoor {
    ghost use Rattle.std.specs.Prelude.{Some, is_some};

    ghost known = { λ d. Some d };

    ghost connected = { λ d. is_some d.current };

    fn next(&mut self) -> Result<(), DoorFault> {
        let at = place_after(self.at, self.connected);
        self.at = at;
        if at < self.conns.len() {
            self.connected = true;
            return Ok(());
        }
        self.connected = false;
        Err(DoorFault::Failed)
    }

    fn read(&mut self, buf: &mut [u8]) -> Result<usize, DoorFault> {
        self.conns[self.at].read(buf)
    }

    fn write(&mut self, bytes: &[u8]) -> Result<usize, DoorFault> {
        self.conns[self.at].write(bytes)
    }
}
