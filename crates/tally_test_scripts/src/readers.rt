//! Readers whose reads give few bytes, or fail.

use std::io::{self, ErrorKind, Read};

/// Gives its text in pieces of this many bytes, and then ends or fails.
#[derive(Drop)]
pub struct Pieces<'a> {
    /// The text still to come.
    pub text: &'a [u8],
    /// How many bytes a read gives at most.
    pub piece: usize,
    /// How each read fails at the end.
    pub failure: Option<ErrorKind>,
}

impl Read for Pieces<'_> {
    fn read(&mut self, buf: &mut [u8]) -> io::Result<usize> {
        if let (true, Some(kind)) = (self.text.is_empty(), self.failure) {
            return Err(io::Error::from(kind));
        }
        let taken = self.piece.min(buf.len()).min(self.text.len());
        buf[..taken].copy_from_slice(&self.text[..taken]);
        self.text = &self.text[taken..];
        Ok(taken)
    }
}

/// Gives a text; then this many reads fail; then, where it is read again, it gives another text and
/// ends.
#[derive(Drop)]
pub struct Failing<'a> {
    /// The text before the reads that fail.
    pub front: &'a [u8],
    /// How many reads fail.
    pub failures: u32,
    /// How they fail.
    pub kind: ErrorKind,
    /// The text after them.
    pub back: &'a [u8],
}

impl Read for Failing<'_> {
    fn read(&mut self, buf: &mut [u8]) -> io::Result<usize> {
        if self.front.is_empty() {
            if self.failures > 0 {
                self.failures -= 1;
                return Err(io::Error::from(self.kind));
            }
            self.front = self.back;
            self.back = &[];
        }
        let taken = buf.len().min(self.front.len());
        buf[..taken].copy_from_slice(&self.front[..taken]);
        self.front = &self.front[taken..];
        Ok(taken)
    }
}
