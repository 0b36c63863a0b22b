//! What is noted of the calls of a stream: whether one failed.

ghost use Rattle.std.specs.Prelude.{◌≡◌, ◌<◌, false, true, length, Ok, IfOk, OnOk, OnErr};
ghost use Rattle.std.specs.Io.{ReadsAtMost, WritesAtMost};
ghost use Rattle.std.specs.Io.KnownBytes.{Keeps, ReadConsumes, WriteAppends};
ghost use Rattle.tally_import_records.specs.Watch.{NotesNothing, has_failed};

use std::io::{Read, Result, Write};
use std::marker::PhantomData;

/// Whether a read, a write or a flush of a stream of this type failed. The calls go through the
/// watch: nothing but a failed one sets it, and nothing takes it back.
#[derive(Drop)]
pub struct Watch<S> {
    failed: bool,
    stream: PhantomData<S>,
}

impl<S> Watch<S> {
    /// A watch under which no call has failed yet.
    pub fn new() -> Watch<S>
        ensures { has_failed result ≡ false }
    {
        Watch {
            failed: false,
            stream: PhantomData,
        }
    }

    /// Whether a call failed.
    pub fn has_failed(&self) -> bool
        ensures { result ≡ has_failed self.now }
    {
        self.failed
    }

    /// Notes what another watch of the same stream noted.
    pub fn add(&mut self, other: Self)
        ensures failed { has_failed other ≡ true → has_failed self.new ≡ true }
        ensures kept { has_failed other ≡ false → NotesNothing self.old self.new }
    {
        if other.failed {
            self.failed = true;
        }
    }
}

impl<R: Read> Watch<R> {
    /// Reads, and notes a read that fails.
    pub fn read(&mut self, reader: &mut R, buf: &mut [u8]) -> Result<usize>
        ensures bound { ReadsAtMost result buf.new }
        ensures bytes { ReadConsumes (R.remaining reader.old)
            (R.remaining reader.new) result buf.new }
        ensures failed { OnErr result (has_failed self.new ≡ true) }
        ensures kept { OnOk result (NotesNothing self.old self.new) }
    {
        let result = reader.read(buf);
        if result.is_err() {
            self.failed = true;
        }
        result
    }
}

impl<W: Write> Watch<W> {
    /// Writes, and notes a write that fails, or takes nothing of some bytes.
    pub fn write(&mut self, writer: &mut W, buf: &[u8]) -> Result<usize>
        ensures bound { WritesAtMost result buf.now }
        ensures bytes { WriteAppends (W.contents writer.old)
            (W.contents writer.new) result buf.now }
        ensures failed { OnErr result (has_failed self.new ≡ true) }
        ensures nothing { result ≡ Ok 0 → 0 < length buf.now → has_failed self.new ≡ true }
        ensures kept { IfOk result (λ taken. 0 < taken → NotesNothing self.old self.new) }
        ensures empty { length buf.now ≡ 0 → OnOk result (NotesNothing self.old self.new) }
    {
        match writer.write(buf) {
            Ok(taken) => {
                if taken == 0 && !buf.is_empty() {
                    self.failed = true;
                }
                Ok(taken)
            }
            Err(error) => {
                self.failed = true;
                Err(error)
            }
        }
    }

    /// Flushes, and notes a flush that fails.
    pub fn flush(&mut self, writer: &mut W) -> Result<()>
        ensures bytes { Keeps (W.contents writer.old) (W.contents writer.new) }
        ensures failed { OnErr result (has_failed self.new ≡ true) }
        ensures kept { OnOk result (NotesNothing self.old self.new) }
    {
        let result = writer.flush();
        if result.is_err() {
            self.failed = true;
        }
        result
    }
}
