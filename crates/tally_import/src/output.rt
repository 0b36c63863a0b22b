//! Writing a text as a whole.

ghost use Rattle.std.specs.Prelude.{◌≡◌, ℕ, true, take, Err, OnOk, OnErr};
ghost use Rattle.std.specs.Io.KnownBytes.{Appends};
ghost use Rattle.tally_import_records.specs.Watch.{has_failed};

use crate::fault::CheckFault;
use std::io::Write;
use tally_import_records::Watch;

/// Writes a text as a whole and flushes. Where a write fails or takes nothing, the writer holds a
/// prefix of the text.
pub fn write_text<W: Write>(writer: &mut W, text: &[u8]) -> Result<(), CheckFault>
    ensures ok { OnOk result (Appends (W.contents writer.old) (W.contents writer.new) text.now) }
    ensures err { OnErr result ((n : ℕ)
        × Appends (W.contents writer.old) (W.contents writer.new) (take n text.now)) }
    ensures fault { OnErr result (result ≡ Err CheckFault.Write) }
{
    write_watched(writer, &mut Watch::new(), text)
}

/// As `write_text`, with a watch on the writer. It has noted a failed call where there is a fault,
/// and with `Ok` none.
pub fn write_watched<W: Write>(
    writer: &mut W,
    watch: &mut Watch<W>,
    text: &[u8],
) -> Result<(), CheckFault>
    ensures ok { OnOk result (Appends (W.contents writer.old) (W.contents writer.new) text.now) }
    ensures err { OnErr result ((n : ℕ)
        × Appends (W.contents writer.old) (W.contents writer.new) (take n text.now)) }
    ensures fault { OnErr result (result ≡ Err CheckFault.Write) }
    ensures failed { OnErr result (has_failed watch.new ≡ true) }
    ensures all_written { OnOk result (has_failed watch.new ≡ has_failed watch.old) }
{
    let mut written = 0;
    while written < text.len() {
        match watch.write(writer, &text[written..]) {
            Ok(taken) if taken > 0 => written += taken,
            _ => return Err(CheckFault::Write),
        }
    }
    match watch.flush(writer) {
        Ok(()) => Ok(()),
        Err(_) => Err(CheckFault::Write),
    }
}
