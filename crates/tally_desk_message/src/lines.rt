//! When a head may be whole.

ghost use Rattle.std.specs.Prelude.{◌≡◌, ◌==◌, ◌&&◌};
ghost use Rattle.tally_desk_message.specs.internal.Lines.{no_lines, lines_with};

/// The lines of a head as they come: whether one that is not empty has begun, and whether the last
/// one is empty so far. They say when the bytes are worth parsing, so that a head that comes byte
/// by byte is not parsed at each byte.
#[derive(Drop)]
pub(crate) struct Lines {
    begun: bool,
    empty: bool,
}

impl Lines {
    /// No line has come yet.
    pub(crate) fn new() -> Lines
        ensures { result ≡ no_lines }
    {
        Lines {
            begun: false,
            empty: true,
        }
    }

    /// Whether an empty line ends with this byte, which comes next. Those before the start line are
    /// passed over (RFC 9112, section 2.2).
    pub(crate) fn end_with(&mut self, byte: u8) -> bool
        ensures lines { self.new ≡ lines_with byte self.old }
        ensures ended { result ≡ ((byte == 10) && self.old.begun && self.old.empty) }
    {
        match byte {
            b'\n' => {
                let ended = self.begun && self.empty;
                self.empty = true;
                ended
            }
            b'\r' => false,
            _ => {
                self.begun = true;
                self.empty = false;
                false
            }
        }
    }
}
