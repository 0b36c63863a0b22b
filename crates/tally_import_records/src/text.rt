//! A text in memory.

ghost use Rattle.std.specs.Prelude.{◌≡◌, ◌++◌, ◌∷◌, [], IfOk, IsOk, OnOk};
ghost use Rattle.std.specs.Io.{ReadsAtMost};
ghost use Rattle.std.specs.Io.KnownBytes.{ReadConsumes};
ghost use Rattle.tally_import_records.specs.internal.Text.{bytes_left, bytes_of_parts, text_left};

use std::alloc::{AllocError, Global};
use std::collections::VecDeque;
use std::io;
use std::io::{Cursor, Read};

/// A text in parts, from the place up to which it is read. A part that is read is given back once
/// the next one is begun. The parts after it are on the heap: with them inside, a reader of `csv`,
/// which has some 16 KiB, would be moved onto the stack to be dropped.
#[derive(Drop)]
pub(crate) struct Text {
    front: Cursor<Vec<u8>>,
    later: Box<VecDeque<Vec<u8>>>,
}

impl Text {
    /// A text of this part and of those after it.
    pub(crate) fn new(
        alloc: Global,
        front: Vec<u8>,
        later: VecDeque<Vec<u8>>,
    ) -> Result<Text, AllocError>
        ensures { IfOk result (λ text.
            bytes_left text ≡ front.items ++ bytes_of_parts later.items) }
    {
        Ok(Text {
            front: Cursor::new(front),
            later: Box::new(alloc, later)?,
        })
    }

    /// Appends a byte to the text.
    pub(crate) fn push(&mut self, alloc: Global, byte: u8) -> Result<(), AllocError>
        ensures { OnOk result (bytes_left self.new ≡ bytes_left self.old ++ byte ∷ []) }
    {
        let mut part = Vec::new(alloc);
        part.push(byte)?;
        self.later.push_back(part)?;
        Ok(())
    }
}

impl Read for Text {
    ghost remaining = { text_left };

    fn read(&mut self, buf: &mut [u8]) -> io::Result<usize>
        ensures bound { ReadsAtMost result buf.new }
        ensures bytes { ReadConsumes (text_left self.old) (text_left self.new) result buf.new }
        ensures ok { IsOk result }
    {
        loop {
            let count = self.front.read(buf)?;
            if count > 0 || buf.is_empty() {
                return Ok(count);
            }
            let Some(next) = self.later.pop_front() else {
                return Ok(0);
            };
            self.front = Cursor::new(next);
        }
    }
}
