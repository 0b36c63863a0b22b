//! What is done for `recount`. Errors are matched and returned, and not passed on by `?`, since the
//! `?` of an enum that holds a text (`Trouble`) has no proof yet.

ghost use Rattle.std.specs.Prelude.{◌≡◌, Some};
ghost use Rattle.tally_import_options.specs.WantedRecount.{wanted};
ghost use Rattle.tally_setup.specs.Limits.{IsSetup};
ghost use Rattle.tally_setup.specs.Setup.{constituency_with};
ghost use Rattle.tally_office_streams.specs.Recounted.{EndsRecount, IsRecountAnswered};
ghost use Rattle.tally_office_streams.specs.Streams.{streams};

use crate::reporting::DONE;
use std::alloc::Global;
use std::io::{Read, Write};
use tally_import_recount::{RecountOptions, RecountTrouble, recount_csv};
use tally_office_trouble::{NamedFiles, Trouble, con_named, setup_at, tell};

/// Counts the returns again that a reader gives, those of a constituency of the setup in a file,
/// and answers the exit status. The setup is read, and the constituency found, before anything is
/// read from the reader.
pub fn recount_streams<F: NamedFiles, R: Read, W: Write, E: Write>(
    rt: &HostRuntime,
    files: &F,
    setup: &str,
    con: &str,
    options: &RecountOptions,
    input: &mut R,
    output: &mut W,
    errors: &mut E,
) -> u8
    ensures { EndsRecount (F.Gives files.now setup.now) R.remaining W.contents E.contents
        con.now (wanted options.now) (streams input.old output.old errors.old)
        (streams input.new output.new errors.new) result }
{
    let setup = match setup_at(rt, files, setup) {
        Ok(setup) => setup,
        Err(trouble) => return trouble.report(errors),
    };
    let Some(con) = con_named(&setup, con) else {
        return Trouble::NoConstituency.report(errors);
    };
    let outcome = recount_csv(rt.alloc(), con, options, input, output);
    report_recount(rt.alloc(), outcome, errors)
}

fn report_recount<E: Write>(
    alloc: Global,
    outcome: Result<(), RecountTrouble>,
    errors: &mut E,
) -> u8
    ensures { IsRecountAnswered E.contents errors.old errors.new outcome result }
{
    let trouble = match outcome {
        Ok(()) => return DONE,
        Err(trouble) => trouble,
    };
    match trouble.line(alloc) {
        Ok(line) => {
            tell(&line, errors);
            trouble.status()
        }
        Err(_) => Trouble::Memory.report(errors),
    }
}
