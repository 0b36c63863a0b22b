//! A file that lets this many calls through, refuses this many after them, and lets each later one
//! through.

ghost use Rattle.std.specs.Prelude.{◌≡◌, ◌+◌, ◌&&◌, not, false};
ghost use Rattle.sqlite_disk.specs.Disk.{CountsFault};
ghost use Rattle.sqlite_disk.specs.Refusal.{finds_no_room};

use sqlite_disk::{Crash, Disk, Tally};
use std::io;

/// How many calls are let through yet, how many are refused after them, and how many were.
#[derive(Drop)]
struct Turns {
    passes: u64,
    refusals: u64,
    refused: u64,
}

impl Turns {
    /// An error where this call is refused.
    fn take(&mut self) -> io::Result<()>
        ensures faults { CountsFault result self.old.refused self.new.refused }
        ensures kind { finds_no_room result ≡ false }
    {
        if self.passes > 0 {
            self.passes -= 1;
            return Ok(());
        }
        if self.refusals == 0 {
            return Ok(());
        }
        self.refusals -= 1;
        self.refused = self.refused.saturating_add(1);
        Err(io::Error::other("refused"))
    }
}

/// A call that is refused changes nothing. After a sync that is refused the file may not be used.
#[derive(Drop)]
pub struct Faltering<D: Disk> {
    inner: D,
    turns: Turns,
    sync_refused: bool,
}

impl<D: Disk> Faltering<D> {
    /// Lets this many calls through, and refuses this many after them.
    pub fn new(inner: D, passes: u64, refusals: u64) -> Faltering<D> {
        let turns = Turns {
            passes,
            refusals,
            refused: 0,
        };
        Faltering {
            inner,
            turns,
            sync_refused: false,
        }
    }

    /// The file that the other calls go to.
    pub fn inner(&self) -> &D {
        &self.inner
    }

    /// Whether a call was refused.
    pub fn has_refused(&self) -> bool {
        self.turns.refused > 0
    }
}

impl<D: Disk> Disk for Faltering<D> {
    ghost seen = { λ f. D.Disk.seen f.inner };

    ghost may_leave = { λ f. D.Disk.may_leave f.inner };

    ghost is_usable = { λ f. D.Disk.is_usable f.inner && not f.sync_refused };

    ghost faults = { λ f. D.Disk.faults f.inner + f.turns.refused };

    ghost tally_of = { λ f. D.Disk.tally_of f.inner };

    ghost is_rotten = { λ f. D.Disk.is_rotten f.inner };

    ghost key_of = { λ f. D.Disk.key_of f.inner };

    ghost is_clean = { λ f. D.Disk.is_clean f.inner };

    ghost is_fair = { λ f. D.Disk.is_fair f.inner };

    ghost fair_if_clean = { λ f. D.Disk.fair_if_clean f.inner };

    ghost seen_may_stay = { λ f. D.Disk.seen_may_stay f.inner };

    ghost is_mixing = { λ f. D.Disk.is_mixing f.inner };

    fn mixes(&self) -> bool {
        self.inner.mixes()
    }

    fn key(&self) -> u64 {
        self.inner.key()
    }

    fn tally(&self) -> Tally {
        self.inner.tally()
    }

    fn may_be_used(&self) -> bool {
        self.inner.may_be_used() && !self.sync_refused
    }

    fn len(&mut self) -> io::Result<usize> {
        self.turns.take()?;
        self.inner.len()
    }

    fn read_at(&mut self, at: usize, buf: &mut [u8]) -> io::Result<()> {
        self.turns.take()?;
        self.inner.read_at(at, buf)
    }

    fn read_checked(&mut self, key: u64, want: u64, at: usize, buf: &mut [u8]) -> io::Result<()> {
        self.turns.take()?;
        self.inner.read_checked(key, want, at, buf)
    }

    fn write_at(&mut self, at: usize, bytes: &[u8]) -> io::Result<()> {
        self.turns.take()?;
        self.inner.write_at(at, bytes)
    }

    fn set_len(&mut self, len: usize) -> io::Result<()> {
        self.turns.take()?;
        self.inner.set_len(len)
    }

    fn sync(&mut self) -> io::Result<()> {
        if let Err(error) = self.turns.take() {
            self.sync_refused = true;
            return Err(error);
        }
        self.inner.sync()
    }
}

/// The files that the machine finds after a crash refuse nothing.
impl<D: Crash> Crash for Faltering<D> {
    fn crash(&mut self) {
        self.inner.crash();
        self.turns.refusals = 0;
        self.sync_refused = false;
    }
}
