//! Names and notes.

ghost use Rattle.std.specs.Prelude.{◌≡◌};
ghost use Rattle.std.specs.List.{list_all};
ghost use Rattle.tally_setup.specs.Text.{is_character, is_name, is_note, is_short_line};

/// The most bytes that a name has.
const NAME_LIMIT: usize = 80;

/// The most bytes that a note has.
const NOTE_LIMIT: usize = 200;

/// Whether a text may be a note: 1 to 200 bytes, none of them 00 to 1F or 7F.
pub fn good_note(note: &str) -> bool
    ensures { result ≡ is_note note.now }
{
    is_short_line(note, NOTE_LIMIT)
}

/// Whether a text may be a name: 1 to 80 bytes, none of them 00 to 1F or 7F.
pub fn good_name(name: &str) -> bool
    ensures { result ≡ is_name name.now }
{
    is_short_line(name, NAME_LIMIT)
}

fn is_short_line(text: &str, limit: usize) -> bool
    ensures { result ≡ is_short_line limit text.now }
{
    !text.is_empty() && text.len() <= limit && are_characters(text.as_bytes())
}

fn are_characters(text: &[u8]) -> bool
    ensures { result ≡ list_all is_character text.now }
{
    text.iter().all(|byte| is_character(*byte))
}

fn is_character(byte: u8) -> bool
    ensures { result ≡ is_character byte }
{
    !byte.is_ascii_control()
}
