//! The bytes of an input that are still needed.

ghost use Rattle.std.specs.Prelude.{◌≡◌, ◌+◌, ◌<◌, ◌≤◌, ◌∷◌, [], drop, length, vec_len, IfOk, OnOk};
ghost use Rattle.std.specs.Prelude.{None, Some};
ghost use Rattle.tally_import_records.specs.declared.held.TheConstants.{SIZE_LIMIT};

use crate::end::{End, Stop};
use crate::watch::Watch;
use std::alloc::{AllocError, Global};
use std::collections::VecDeque;
use std::io::Read;

/// The most bytes that an input may have: 16 MiB.
pub(crate) const SIZE_LIMIT: usize = 16_777_216;

/// How many bytes are asked for at a time. They come by way of the stack.
const READ_SIZE: usize = 16_384;

/// The most bytes of a part of what is read to the end of the input. A part is longer than a piece
/// and the text made of it, since an allocator may keep room of a size that was given back before.
const PART: usize = 524_288;

/// The room that is made for the bytes which are held on.
const ROOM: usize = 262_146;

/// Bytes of an input that are still needed.
#[derive(Drop)]
pub(crate) struct HeldText {
    /// The bytes.
    pub(crate) bytes: Vec<u8>,
    /// How many bytes the input gave.
    taken: usize,
    ghost counted: { (vec_len bytes ≤ taken + 1) × (taken ≤ SIZE_LIMIT + 1) },
}

impl HeldText {
    ghost use Rattle.tally_import_records.specs.internal.Pieces.{Ends, Fills, FillsHeld};
    ghost use Rattle.tally_import_records.specs.internal.Pieces.{HoldsAllThatCame};
    ghost use Rattle.tally_import_records.specs.internal.Pieces.{HoldsMore, HoldsNoMore};
    ghost use Rattle.tally_import_records.specs.internal.Text.{bytes_of_parts};
    ghost use Rattle.tally_import_records.specs.Given.{IfEnded, IfNotEnded};
    ghost use Rattle.tally_import_records.specs.Watch.{NotesEnd};

    /// No byte.
    pub(crate) fn new(alloc: Global) -> HeldText
        ensures bytes { result.bytes.items ≡ [] }
        ensures taken { result.taken ≡ 0 }
    {
        HeldText {
            bytes: Vec::new(alloc),
            taken: 0,
        }
    }

    /// Reads until this many bytes are held or the input ends, of itself or stopped. An
    /// input that goes on past 16 MiB is stopped there. Room for all that may come is made at
    /// once, so what is held is not moved as it grows.
    pub(crate) fn fill<R: Read>(
        &mut self,
        input: &mut R,
        watch: &mut Watch<R>,
        size: usize,
    ) -> Result<Option<End>, AllocError>
        requires { self.old.taken ≤ SIZE_LIMIT }
        ensures fills { IfOk result (FillsHeld
            (R.remaining input.old) (R.remaining input.new) self.old self.new) }
        ensures size { IfNotEnded result (size ≤ length self.new.bytes.items) }
        ensures count { IfNotEnded result (HoldsAllThatCame self.old self.new) }
        ensures limit { IfNotEnded result (self.new.taken ≤ SIZE_LIMIT) }
        ensures few { OnOk result (HoldsNoMore self.old self.new) }
        ensures failed { IfOk result (NotesEnd watch.old watch.new) }
    {
        let missing = size.saturating_sub(self.bytes.len());
        self.bytes
            .reserve(missing.min(SIZE_LIMIT + 1 - self.taken))?;
        let mut buffer = [0; READ_SIZE];
        loop {
            if self.taken > SIZE_LIMIT {
                self.bytes.pop();
                return Ok(Some(End {
                    stop: Some(Stop::TooLong),
                }));
            }
            if self.bytes.len() >= size {
                return Ok(None);
            }
            let wanted = READ_SIZE
                .min(size - self.bytes.len())
                .min(SIZE_LIMIT + 1 - self.taken);
            if let Some(end) = self.read_once(input, watch, &mut buffer[..wanted])? {
                return Ok(Some(end));
            }
        }
    }

    // Reads once into some room, and holds what came. Answers how the input ended, where it did.
    fn read_once<R: Read>(
        &mut self,
        input: &mut R,
        watch: &mut Watch<R>,
        room: &mut [u8],
    ) -> Result<Option<End>, AllocError>
        requires some { 0 < length room.old }
        requires limit { self.old.taken + length room.old ≤ SIZE_LIMIT + 1 }
        ensures came { IfNotEnded result
            (HoldsMore (R.remaining input.old) (R.remaining input.new) self.old self.new) }
        ensures some { IfNotEnded result (self.old.taken < self.new.taken) }
        ensures limit { OnOk result (self.new.taken ≤ SIZE_LIMIT + 1) }
        ensures ended { IfEnded result (λ end. (self.new ≡ self.old)
            × Ends (R.remaining input.old) (R.remaining input.new) end.stop) }
        ensures failed { IfOk result (NotesEnd watch.old watch.new) }
    {
        let Ok(came) = watch.read(input, room) else {
            return Ok(Some(End {
                stop: Some(Stop::Read),
            }));
        };
        if came == 0 {
            return Ok(Some(End { stop: None }));
        }
        self.bytes.extend_from_slice(&room[..came])?;
        self.taken += came;
        Ok(None)
    }

    /// Reads all that still comes, in parts, so that each can be given back by itself. An input
    /// that goes on past 16 MiB is stopped there.
    pub(crate) fn read_rest<R: Read>(
        &mut self,
        alloc: Global,
        input: &mut R,
        watch: &mut Watch<R>,
    ) -> Result<(VecDeque<Vec<u8>>, End), AllocError>
        requires { self.old.taken ≤ SIZE_LIMIT }
        ensures fills { IfOk result (λ rest. Fills (R.remaining input.old) (R.remaining input.new)
            [] self.old.taken (bytes_of_parts rest.0.items) self.new.taken (Some rest.1)) }
        ensures bytes { OnOk result (self.new.bytes ≡ self.old.bytes) }
        ensures few { IfOk result (λ rest.
            self.old.taken + length (bytes_of_parts rest.0.items) ≤ self.new.taken) }
        ensures failed { IfOk result (λ rest. NotesEnd watch.old watch.new (Some rest.1)) }
    {
        let mut parts = VecDeque::new(alloc);
        loop {
            let mut part = HeldText {
                bytes: Vec::new(alloc),
                taken: self.taken,
            };
            let end = part.fill(input, watch, PART)?;
            self.taken = part.taken;
            parts.push_back(part.bytes)?;
            if let Some(end) = end {
                return Ok((parts, end));
            }
        }
    }

    /// Puts a line feed in place of this many bytes at the beginning.
    pub(crate) fn drop_front(&mut self, alloc: Global, count: usize) -> Result<(), AllocError>
        requires some { 0 < count }
        requires within { count ≤ length self.old.bytes.items }
        ensures bytes { OnOk result
            (self.new.bytes.items ≡ 10 ∷ drop count self.old.bytes.items) }
        ensures taken { OnOk result (self.new.taken ≡ self.old.taken) }
    {
        let mut bytes = Vec::with_capacity(alloc, ROOM)?;
        bytes.push(b'\n')?;
        bytes.extend_from_slice(&self.bytes[count..])?;
        self.bytes = bytes;
        Ok(())
    }
}
