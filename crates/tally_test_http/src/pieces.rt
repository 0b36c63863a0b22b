//! A door that cuts its bytes, and messages as lines of text.

use std::alloc::Global;
use std::test::Fail;
use tally_desk_message::{Door, DoorFault, Message, read_message};

/// A door of one connection, which gives its text this many bytes at a time and then ends or
/// fails.
#[derive(Drop)]
pub(crate) struct Pieces<'a> {
    pub(crate) text: &'a [u8],
    pub(crate) size: usize,
    pub(crate) fails: bool,
}

impl Door for Pieces<'_> {
    ghost use Rattle.std.specs.Prelude.{None, true};

    ghost known = { λ _. None };

    ghost connected = { λ _. true };

    fn next(&mut self) -> Result<(), DoorFault> {
        Ok(())
    }

    fn read(&mut self, buf: &mut [u8]) -> Result<usize, DoorFault> {
        if self.fails && self.text.is_empty() {
            return Err(DoorFault::Failed);
        }
        let taken = self.size.min(buf.len()).min(self.text.len());
        buf[..taken].copy_from_slice(&self.text[..taken]);
        self.text = &self.text[taken..];
        Ok(taken)
    }

    fn write(&mut self, _bytes: &[u8]) -> Result<usize, DoorFault> {
        Err(DoorFault::Failed)
    }
}

/// The reading of a text that comes a number of bytes at a time and then ends or fails: a message
/// on a line, or its fault.
pub(crate) fn reading(
    alloc: Global,
    text: &[u8],
    size: usize,
    fails: bool,
) -> Result<String, Fail> {
    let mut door = Pieces { text, size, fails };
    reading_from(alloc, &mut door)
}

/// The input of a door's current connection: a message on a line, or its fault.
pub(crate) fn reading_from(alloc: Global, door: &mut Pieces<'_>) -> Result<String, Fail> {
    match read_message(alloc, door) {
        Ok(message) => line_of(alloc, &message),
        Err(fault) => Ok(format!(in alloc; "{fault:?}")?),
    }
}

// A message's method, target and body.
fn line_of(alloc: Global, message: &Message) -> Result<String, Fail> {
    let target = String::from_utf8_lossy(alloc, &message.target)?;
    let body = String::from_utf8_lossy(alloc, &message.body)?;
    let method = message.method.as_str();
    Ok(format!(in alloc; "{method} {target} {body}")?)
}
