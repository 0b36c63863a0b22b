//! What is done for `check` and `allot`, and for the command line of a program that has no office.

ghost use Rattle.std.specs.Prelude.{◌≡◌, map, string_bytes};
ghost use Rattle.tally_import_options.specs.Wanted.{wanted};
ghost use Rattle.tally_office_trouble.specs.Reported.{IsReported};
ghost use Rattle.tally_office_streams.specs.Ends.{EndsAllot, EndsCheck, IsAllotAnswered};
ghost use Rattle.tally_office_streams.specs.Ends.{check_outcome};
ghost use Rattle.tally_office_streams.specs.Line.{PerformsStreams, no_office_line};
ghost use Rattle.tally_office_streams.specs.Streams.{IsOutcomeReported, command_status, streams};

use crate::recounting::recount_streams;
use crate::reporting::{DONE, USAGE, report_fault};
use std::alloc::Global;
use std::io::{Read, Write};
use tally_import::CheckFault;
use tally_import_check::check_csv;
use tally_import_options::AllotOptions;
use tally_import_records::Sep;
use tally_import_votes::{AllotTrouble, allot_csv};
use tally_office_line::{Line, read_line};
use tally_office_trouble::{NamedFiles, Trouble, tell};

/// Checks the returns that a reader gives, and answers the exit status.
pub fn check_streams<R: Read, W: Write, E: Write>(
    alloc: Global,
    sep: Sep,
    rows: bool,
    input: &mut R,
    output: &mut W,
    errors: &mut E,
) -> u8
    ensures { EndsCheck R.remaining W.contents E.contents rows sep
        (streams input.old output.old errors.old) (streams input.new output.new errors.new) result }
{
    let outcome = check_csv(alloc, input, output, sep, rows);
    report_check(outcome, errors)
}

/// Allots seats by the votes that a reader gives, and answers the exit status.
pub fn allot_streams<R: Read, W: Write, E: Write>(
    alloc: Global,
    options: &AllotOptions,
    input: &mut R,
    output: &mut W,
    errors: &mut E,
) -> u8
    ensures { EndsAllot R.remaining W.contents E.contents (wanted options.now)
        (streams input.old output.old errors.old) (streams input.new output.new errors.new) result }
{
    let outcome = allot_csv(alloc, options, input, output);
    report_allot(alloc, outcome, errors)
}

/// Does what a command line asks for, the program's name first, in a program that has no office,
/// and answers the exit status. A command that needs an office is refused by one line. Help,
/// refusals and failures go to `errors`, where a write that fails is passed over.
pub fn perform_streams<F: NamedFiles, R: Read, W: Write, E: Write>(
    rt: &HostRuntime,
    files: &F,
    words: &[String],
    input: &mut R,
    output: &mut W,
    errors: &mut E,
) -> u8
    ensures { PerformsStreams (F.Gives files.now) R.remaining W.contents E.contents
        (map string_bytes words.now) (streams input.old output.old errors.old)
        (streams input.new output.new errors.new) result }
{
    match read_line(rt.alloc(), words) {
        Ok(Line::Check { sep, rows }) => {
            check_streams(rt.alloc(), sep, rows, input, output, errors)
        }
        Ok(Line::Allot(options)) => allot_streams(rt.alloc(), &options, input, output, errors),
        Ok(
            Line::Recount {
                setup,
                con,
                options,
            },
        ) => recount_streams(rt, files, &setup, &con, &options, input, output, errors),
        Ok(Line::New { .. }) => refuse_command(errors),
        Ok(Line::Import { .. }) => refuse_command(errors),
        Ok(Line::Show { .. }) => refuse_command(errors),
        Ok(Line::Serve { .. }) => refuse_command(errors),
        Err(fault) => report_fault(fault, errors),
    }
}

/// Says that a command needs an office, which the program does not have.
fn refuse_command<E: Write>(errors: &mut E) -> u8
    ensures status { result ≡ 2 }
    ensures reported { IsReported (E.contents errors.old) (E.contents errors.new) no_office_line }
{
    tell(
        "error: this program has check, allot and recount alone\n",
        errors,
    );
    USAGE
}

fn report_check<E: Write>(outcome: Result<(), CheckFault>, errors: &mut E) -> u8
    ensures status { result ≡ command_status (check_outcome outcome) }
    ensures reported { IsOutcomeReported E.contents errors.old errors.new (check_outcome outcome) }
{
    match outcome {
        Ok(()) => DONE,
        Err(fault) => Trouble::from_check(fault).report(errors),
    }
}

fn report_allot<E: Write>(alloc: Global, outcome: Result<(), AllotTrouble>, errors: &mut E) -> u8
    ensures { IsAllotAnswered E.contents errors.old errors.new outcome result }
{
    let trouble = match outcome {
        Ok(()) => return DONE,
        Err(trouble) => trouble,
    };
    match trouble.line(alloc) {
        Ok(line) => {
            tell(&line, errors);
            trouble.status()
        }
        Err(_) => Trouble::Memory.report(errors),
    }
}
