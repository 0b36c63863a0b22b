//! What the program does for a command line.

ghost use Rattle.std.specs.Prelude.{◌≡◌, map, string_bytes};
ghost use Rattle.tally_office_commands.specs.Offices.{known};
ghost use Rattle.tally_office_program.specs.Perform.{Performs};
ghost use Rattle.tally_office_streams.specs.Streams.{IsOutcomeReported, command_status, streams};

use crate::serve::serve_office;
use std::io::{Read, Write};
use tally_office_commands::{Offices, import_at, make_at, show_at};
use tally_office_line::{Line, read_line};
use tally_office_streams::{DONE, allot_streams, check_streams, recount_streams, report_fault};
use tally_office_trouble::Trouble;

/// Does what a command line asks for, the program's name first, over these offices, and answers the
/// exit status. Help, refusals and failures go to `errors`, where a write that fails is passed
/// over.
pub fn perform<O: Offices, R: Read, W: Write, E: Write>(
    rt: &HostRuntime,
    offices: &O,
    words: &[String],
    input: &mut R,
    output: &mut W,
    errors: &mut E,
) -> u8
    ensures { Performs (known O.Office.Keeper (O.Opens offices.now) (O.Finds offices.now)
        (O.Makes offices.now) (O.Closes offices.now) (O.Gives offices.now))
        R.remaining W.contents E.contents (map string_bytes words.now)
        (streams input.old output.old errors.old) (streams input.new output.new errors.new) result }
{
    match read_line(rt.alloc(), words) {
        Ok(Line::Check { sep, rows }) => {
            check_streams(rt.alloc(), sep, rows, input, output, errors)
        }
        Ok(Line::Allot(options)) => allot_streams(rt.alloc(), &options, input, output, errors),
        Ok(
            Line::Recount {
                setup,
                con,
                options,
            },
        ) => recount_streams(rt, offices, &setup, &con, &options, input, output, errors),
        Ok(Line::New { db, setup }) => {
            let outcome = make_at(rt, offices, &db, &setup, output);
            report_command(&outcome, errors)
        }
        Ok(
            Line::Import {
                db,
                con,
                csv,
                sep,
                rows,
            },
        ) => {
            let outcome = import_at(rt, offices, &db, &con, &csv, sep, rows, output);
            report_command(&outcome, errors)
        }
        Ok(Line::Show { db, report, con }) => {
            let outcome = show_at(rt, offices, &db, report, con.as_deref(), output);
            report_command(&outcome, errors)
        }
        Ok(Line::Serve { db, port, count }) => {
            let outcome = serve_office(rt, offices, &db, port, count, output, errors);
            report_command(&outcome, errors)
        }
        Err(fault) => report_fault(fault, errors),
    }
}

fn report_command<E: Write>(outcome: &Result<(), Trouble>, errors: &mut E) -> u8
    ensures status { result ≡ command_status outcome.now }
    ensures reported { IsOutcomeReported E.contents errors.old errors.new outcome.now }
{
    match outcome {
        Ok(()) => DONE,
        Err(trouble) => trouble.report(errors),
    }
}
