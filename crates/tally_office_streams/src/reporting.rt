//! What is said of a command line that cannot be carried out, and the exit statuses.

ghost use Rattle.std.specs.Prelude.{◌≡◌, ◌≢◌, codes};
ghost use Rattle.std.specs.IoError.{error_kind};
ghost use Rattle.tally_office_trouble.specs.Reported.{IsReported};
ghost use Rattle.tally_office_streams.specs.Line.{fault_status, not_text_line};

use std::io::{self, ErrorKind, Write};
use tally_office_line::LineFault;
use tally_office_trouble::{FAILED, Trouble, tell};

/// The exit status where all was done.
pub const DONE: u8 = 0;

/// The exit status of a wrong command line, and of one that asks for help or the version.
pub const USAGE: u8 = 2;

/// Reports why a command line asks for nothing that can be done, and answers the exit status.
pub fn report_fault<E: Write>(fault: LineFault, errors: &mut E) -> u8
    ensures status { result ≡ fault_status fault }
    ensures reported { result ≡ FAILED
        → IsReported (E.contents errors.old) (E.contents errors.new) (codes "failed: memory\n") }
    ensures no_con { fault ≡ LineFault.NoCon
        → IsReported (E.contents errors.old) (E.contents errors.new) (codes "missing --con\n") }
{
    match fault {
        LineFault::Usage(error) => {
            let _ = write!(errors, "{error}");
            USAGE
        }
        LineFault::NoCon => {
            tell("missing --con\n", errors);
            USAGE
        }
        LineFault::Memory => Trouble::Memory.report(errors),
    }
}

/// Reports why no command line could be begun: its arguments are not all text, or it is out of
/// memory.
pub fn report_start<E: Write>(error: &io::Error, errors: &mut E) -> u8
    ensures memory { error_kind error.now ≡ ErrorKind.OutOfMemory → (result ≡ FAILED)
        × IsReported (E.contents errors.old) (E.contents errors.new) (codes "failed: memory\n") }
    ensures other { error_kind error.now ≢ ErrorKind.OutOfMemory → (result ≡ USAGE)
        × IsReported (E.contents errors.old) (E.contents errors.new) not_text_line }
{
    match error.kind() {
        ErrorKind::OutOfMemory => Trouble::Memory.report(errors),
        _ => {
            tell("error: the arguments are not all UTF-8 text\n", errors);
            USAGE
        }
    }
}
