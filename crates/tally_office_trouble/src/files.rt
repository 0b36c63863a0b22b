//! The files that a command reads: a setup, and returns.

ghost use Rattle.std.specs.Prelude.{◌≡◌, ℕ, List, Option, Err, IfErr, IfOk, IfSome, OnOk, true};
ghost use Rattle.tally_import_records.specs.Watch.{NotesNothing, has_failed};
ghost use Rattle.tally_office_trouble.specs.SetupFile.{GivesTooLong, IsTextOf, IsTooLong};
ghost use Rattle.tally_office_trouble.specs.Troubles.{IsOverLimit, IsTroubleOfFile};
ghost use Rattle.tally_office_trouble.specs.Troubles.{IsTroubleOfReading, IsTroubleOfSetupText};

use crate::trouble::{Trouble, is_memory};
use std::alloc::Global;
use std::fs::File;
use std::io::Read;
use tally_import::Watch;
use tally_import_records::{Stop, read_whole};
use tally_rules::SetupFault;

/// The most bytes of the text of a setup.
const SETUP_BYTES: usize = 8_388_608;

/// The files that a program can read, each at a path.
pub trait NamedFiles {
    /// A file that is open.
    type File: Read + Drop;

    /// The bytes that the file at a path may have once it is opened, or `None` if they are not
    /// known. Only `open_file` says that a file had one of them.
    ghost Gives: { Self → List ℕ → Option (List ℕ) → Type 0 };

    /// Opens the file at a path for reading.
    fn open_file(&self, rt: &HostRuntime, path: &str) -> Result<Self::File, Trouble>
        ensures gives { IfOk result (λ file.
            Gives self.now path.now (Self.File.remaining file)) }
        ensures named { IfErr result IsTroubleOfFile };
}

/// The files of this machine.
pub struct MachineFiles;

impl NamedFiles for MachineFiles {
    type File = File;

    ghost Gives = { λ _ _ _. Unit {0} };

    fn open_file(&self, rt: &HostRuntime, path: &str) -> Result<File, Trouble> {
        match File::open(rt, path) {
            Ok(file) => Ok(file),
            Err(error) if is_memory(&error) => Err(Trouble::Memory),
            Err(_) => Err(Trouble::File),
        }
    }
}

/// Reads the text of a setup from a file: all that the file gave. With a text, the watch noted no
/// failed read; with the trouble `Read`, it has noted one. With the fault `OverLimit`, the text
/// exceeds the limit.
pub fn read_setup_text<F: NamedFiles>(
    rt: &HostRuntime,
    files: &F,
    path: &str,
    watch: &mut Watch<F::File>,
) -> Result<Vec<u8>, Trouble>
    ensures text { IfOk result (λ text. IsTextOf (F.Gives files.now path.now) text.items) }
    ensures all_read { OnOk result (NotesNothing watch.old watch.new) }
    ensures read { result ≡ Err Trouble.Read → has_failed watch.new ≡ true }
    ensures over_limit { IfErr result (λ t. IsOverLimit t →
        GivesTooLong (F.Gives files.now path.now)) }
    ensures named { IfErr result IsTroubleOfReading }
{
    match files.open_file(rt, path) {
        Ok(mut file) => setup_text(rt.alloc(), &mut file, watch),
        Err(trouble) => Err(trouble),
    }
}

/// Reads the text of a setup to the end of the reader. With a text, the watch noted no failed read;
/// with the trouble `Read`, it has noted one. A text that exceeds the limit is no setup, and only
/// such a text has the fault `OverLimit`.
pub fn setup_text<R: Read>(
    alloc: Global,
    reader: &mut R,
    watch: &mut Watch<R>,
) -> Result<Vec<u8>, Trouble>
    ensures text { IfOk result (λ text.
        IfSome (R.remaining reader.old) (λ all. text.items ≡ all)) }
    ensures all_read { OnOk result (NotesNothing watch.old watch.new) }
    ensures read { result ≡ Err Trouble.Read → has_failed watch.new ≡ true }
    ensures over_limit { IfErr result (λ t. IsOverLimit t →
        IfSome (R.remaining reader.old) IsTooLong) }
    ensures named { IfErr result IsTroubleOfSetupText }
{
    let Ok(whole) = read_whole(alloc, reader, watch, SETUP_BYTES) else {
        return Err(Trouble::Memory);
    };
    match whole.stop {
        None => Ok(whole.bytes),
        Some(Stop::TooLong) => Err(Trouble::Setup(SetupFault::OverLimit("text"), None)),
        Some(Stop::Read) => Err(Trouble::Read),
    }
}
