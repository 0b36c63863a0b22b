//! Words on standard error.

ghost use Rattle.std.specs.Prelude.{◌++◌, codes};
ghost use Rattle.tally_office_trouble.specs.Reported.{IsReported};
ghost use Rattle.tally_office_trouble.specs.internal.Put.{IsPut, IsPutAfter};

use std::io::Write;
use tally_import::{CheckFault, write_text};

/// Writes words on standard error. A write that fails is ignored.
#[tactic(auto, using(crate::proofs::PutLemmas::put_reported))]
pub fn tell<E: Write>(words: &str, errors: &mut E)
    ensures { IsReported (E.contents errors.old) (E.contents errors.new) words.now }
{
    let _ = put(words, errors);
}

/// Writes words, one piece of a longer text.
#[tactic(auto, using(crate::proofs::PutLemmas::put_whole))]
pub(crate) fn put<E: Write>(words: &str, errors: &mut E) -> Result<(), CheckFault>
    ensures { IsPut (E.contents errors.old) (E.contents errors.new) words.now result }
{
    write_text(errors, words.as_bytes())
}

/// Writes the next piece of a text. `done` is how the piece before it was written: if that failed,
/// nothing is written, and its fault is returned.
pub(crate) fn put_after<E: Write>(
    done: Result<(), CheckFault>,
    words: &str,
    errors: &mut E,
) -> Result<(), CheckFault>
    ensures { IsPutAfter (E.contents errors.old) (E.contents errors.new) done words.now result }
{
    match done {
        Ok(()) => put(words, errors),
        Err(fault) => Err(fault),
    }
}

/// Writes words and a name, and ends the line.
pub(crate) fn put_named<E: Write>(words: &str, name: &str, errors: &mut E) -> Result<(), CheckFault>
    ensures { IsPut (E.contents errors.old) (E.contents errors.new)
        (words.now ++ (name.now ++ codes "\n")) result }
{
    let done = put(words, errors);
    let done = put_after(done, name, errors);
    put_after(done, "\n", errors)
}
