//! A writer that is full.

use std::io::{self, ErrorKind, Write};

/// Takes this many bytes, and then nothing or fails, as its flush does.
#[derive(Drop)]
pub(crate) struct Room {
    pub(crate) taken: Vec<u8>,
    pub(crate) left: usize,
    pub(crate) fails: bool,
}

impl Write for Room {
    fn write(&mut self, buf: &[u8]) -> io::Result<usize> {
        if self.left == 0 && self.fails {
            return Err(io::Error::from(ErrorKind::BrokenPipe));
        }
        let taken = self.left.min(buf.len());
        if self.taken.extend_from_slice(&buf[..taken]).is_err() {
            return Err(io::Error::from(ErrorKind::OutOfMemory));
        }
        self.left -= taken;
        Ok(taken)
    }

    fn flush(&mut self) -> io::Result<()> {
        if self.left == 0 && self.fails {
            return Err(io::Error::from(ErrorKind::BrokenPipe));
        }
        Ok(())
    }
}
