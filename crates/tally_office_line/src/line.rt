//! The command line.

ghost use Rattle.std.specs.Prelude.{◌≡◌, ◌≤◌, IfOk, IfErr, Some, true, false, codes, is_some, map};
ghost use Rattle.std.specs.Prelude.{OnOk, option_map, string_bytes, unwrap_or};
ghost use Rattle.clap.specs.Words.{app_of, first_of, kind_of, new_app};
ghost use Rattle.clap.specs.declared.error.ErrorKind.TheVariants.{InvalidValue};
ghost use Rattle.tally_office_line.specs.Line.{GivesLine, IsRefusal, IsLineWithinLimits};
ghost use Rattle.tally_office_line.specs.Line.{allot_app, allot_line, amount_rule};
ghost use Rattle.tally_office_line.specs.Line.{bare_allot_app, bare_office_app, bare_recount_app};
ghost use Rattle.tally_office_line.specs.Line.{base_named, lot_rule_given, number_in_range};
ghost use Rattle.tally_office_line.specs.Line.{recount_app, recount_line};
ghost use Rattle.tally_office_line.specs.Line.{number_or_none};
ghost use Rattle.tally_office_line.specs.Line.{check_app, flag_rule, import_app, import_line};
ghost use Rattle.tally_office_line.specs.Line.{is_set};
ghost use Rattle.tally_office_line.specs.Line.{line_of, line_of_command, new_line, new_office_app};
ghost use Rattle.tally_office_line.specs.Line.{number_given, number_rule, office_app, sep_given};
ghost use Rattle.tally_office_line.specs.Line.{serve_app, serve_line, show_app, show_line};
ghost use Rattle.tally_office_line.specs.Line.{value_rule, wanted_rule};
ghost use Rattle.tally_office_line.specs.internal.Arguments.{IsCommandFault, IsGivenText};
ghost use Rattle.tally_office_line.specs.internal.Arguments.{IsAllotFault, IsShowFault};
ghost use Rattle.tally_office_line.specs.internal.Arguments.{IsTextIfGiven, given_rows, has};
ghost use Rattle.tally_office_line.specs.internal.Arguments.{has_arguments, has_count, has_port};
ghost use Rattle.tally_office_line.specs.internal.Arguments.{has_seats};
ghost use Rattle.tally_office_line.specs.internal.Commands.{AddsMade, HasRule, Offers, OffersAll};

use crate::help;
use clap::builder::ValueParser;
use clap::error::ErrorKind;
use clap::{Arg, ArgAction, ArgMatches, Command};
use std::alloc::{AllocError, Global};
use tally_frac::MOST_VOTES;
use tally_import_options::{AllotOptions, RecountOptions};
use tally_import_records::Sep;
use tally_report_names::Shown;
use tally_setup::{Base, LotRule, Method, Profile};

const CHECK: &str = "check";

const ALLOT: &str = "allot";

const RECOUNT: &str = "recount";

const NEW: &str = "new";

const IMPORT: &str = "import";

const SHOW: &str = "show";

const SERVE: &str = "serve";

const SEMICOLON: &str = "semicolon";

const ROWS: &str = "rows";

const DB: &str = "db";

const SETUP: &str = "setup";

const CON: &str = "con";

const CSV: &str = "csv";

const REPORT: &str = "report";

const PORT: &str = "port";

const COUNT: &str = "count";

const SEATS: &str = "seats";

const METHOD: &str = "method";

const THRESHOLD: &str = "threshold";

const BASE: &str = "base";

const BLANK: &str = "blank";

const LOT: &str = "lot";

const ALTERNATING: &str = "alternating";

const AWARDS: &str = "awards";

const WITHOUT: &str = "without";

const DECISIVE: &str = "decisive";

const MOST_PORT: u64 = 65535;

const MOST_COUNT: u64 = 1_000_000;

const MOST_SEATS: u64 = tally_frac::MOST_SEATS as u64;

const WHOLE_BASE: u64 = tally_frac::WHOLE_BASE as u64;

const METHODS: &str = "dhondt, sainte-lague, modified-sainte-lague, hare";

const BASES: &str = "valid, lists";

/// The request of a command line. A text is as it was given.
#[derive(Drop)]
pub enum Line {
    /// Check the returns on standard input, and with `rows` name each row that is not lodged.
    Check {
        sep: Sep,
        rows: bool,
    },
    /// Allot seats by the votes on standard input.
    Allot(AllotOptions),
    /// Count the returns on standard input again, those of a constituency of a setup.
    Recount {
        setup: String,
        con: String,
        options: RecountOptions,
    },
    /// Make an office of a setup, in the database of this name.
    New {
        db: String,
        setup: String,
    },
    /// Lodge the returns of a file, of the stations of a constituency, and with `rows` name each
    /// row that is not lodged.
    Import {
        db: String,
        con: String,
        csv: String,
        sep: Sep,
        rows: bool,
    },
    /// Show a report of a constituency, or of all.
    Show {
        db: String,
        report: Shown,
        con: Option<String>,
    },
    /// Serve `count` connections, 1 to 1,000,000, on a port from 1.
    Serve {
        db: String,
        port: u16,
        count: u32,
    },
}

/// Why a command line asks for nothing that can be done.
#[derive(Drop)]
pub enum LineFault {
    /// A wrong command line, or one that asks for help or the version: `clap`'s error has the text.
    Usage(clap::Error),
    /// A report of a constituency is to be shown, and the constituency is not named.
    NoCon,
    /// Out of memory.
    Memory,
}

impl From<clap::Error> for LineFault {
    ghost use Rattle.tally_office_line.specs.Line.{fault_from};

    ghost from_gives = { λ error fault. fault ≡ fault_from error };

    fn from(error: clap::Error) -> LineFault {
        match error.kind() {
            ErrorKind::OutOfMemory => LineFault::Memory,
            _ => LineFault::Usage(error),
        }
    }
}

impl From<AllocError> for LineFault {
    ghost use Rattle.tally_office_line.specs.declared.line.LineFault.TheVariants.{Memory};

    ghost from_gives = { λ _ fault. fault ≡ Memory };

    fn from(_error: AllocError) -> LineFault {
        LineFault::Memory
    }
}

/// Reads a command line, the program's name first.
pub fn read_line(alloc: Global, words: &[String]) -> Result<Line, LineFault>
    ensures line { GivesLine result (line_of (map string_bytes words.now)) }
    ensures limits { IfOk result IsLineWithinLimits }
    ensures fault { IfErr result (IsRefusal (map string_bytes words.now)) }
{
    let matches = office_command(alloc)?.try_get_matches_from(words)?;
    match matches.subcommand() {
        Some((name, arguments)) => read_command(alloc, name, arguments),
        None => unreachable!(),
    }
}

// The line that a command and its arguments are.
fn read_command(alloc: Global, name: &str, arguments: &ArgMatches<'_>) -> Result<Line, LineFault>
    requires { has_arguments (name.now, given_rows arguments.now) ≡ true }
    ensures line { GivesLine result (line_of_command (name.now, given_rows arguments.now)) }
    ensures fault { IfErr result (IsCommandFault (name.now, given_rows arguments.now)) }
{
    match name {
        CHECK => Ok(Line::Check {
            sep: read_sep(arguments),
            rows: is_given(arguments, ROWS),
        }),
        ALLOT => read_allot(alloc, arguments),
        RECOUNT => Ok(read_recount(alloc, arguments)?),
        NEW => Ok(read_new(alloc, arguments)?),
        IMPORT => Ok(read_import(alloc, arguments)?),
        SHOW => read_show(alloc, arguments),
        SERVE => Ok(read_serve(alloc, arguments)?),
        _ => unreachable!(),
    }
}

fn read_allot(alloc: Global, arguments: &ArgMatches<'_>) -> Result<Line, LineFault>
    requires seats { has_seats (given_rows arguments.now) ≡ true }
    requires method { has (codes "method") (given_rows arguments.now) ≡ true }
    ensures line { GivesLine result (allot_line (given_rows arguments.now)) }
    ensures fault { IfErr result (IsAllotFault (given_rows arguments.now)) }
{
    let Some(word) = text_of(arguments, METHOD) else {
        unreachable!();
    };
    let Some(method) = Method::named(word) else {
        return Err(LineFault::Usage(no_word(alloc, word, METHOD, METHODS)?));
    };
    let word = text_of(arguments, BASE).unwrap_or("valid");
    let Some(base) = base_named(word) else {
        return Err(LineFault::Usage(no_word(alloc, word, BASE, BASES)?));
    };
    let lot = read_if_given(alloc, arguments, LOT)?;
    Ok(Line::Allot(AllotOptions {
        seats: read_number(arguments, SEATS, MOST_SEATS) as u32,
        profile: Profile {
            method,
            threshold: read_number_or_none(arguments, THRESHOLD, WHOLE_BASE) as u32,
            base,
            lot: read_lot_rule(arguments),
        },
        blank: read_number_or_none(arguments, BLANK, MOST_VOTES),
        lot,
        awards: is_given(arguments, AWARDS),
        sep: read_sep(arguments),
    }))
}

fn base_named(word: &str) -> Option<Base>
    ensures { result ≡ base_named word.now }
{
    match word {
        "valid" => Some(Base::Valid),
        "lists" => Some(Base::Lists),
        _ => None,
    }
}

fn read_lot_rule(arguments: &ArgMatches<'_>) -> LotRule
    ensures { result ≡ lot_rule_given (given_rows arguments.now) }
{
    if is_given(arguments, ALTERNATING) {
        LotRule::Alternating
    } else {
        LotRule::Fixed
    }
}

fn read_recount(alloc: Global, arguments: &ArgMatches<'_>) -> Result<Line, AllocError>
    requires setup { has (codes "setup") (given_rows arguments.now) ≡ true }
    requires con { has (codes "con") (given_rows arguments.now) ≡ true }
    ensures { GivesLine result (recount_line (given_rows arguments.now)) }
{
    Ok(Line::Recount {
        setup: read_text(alloc, arguments, SETUP)?,
        con: read_text(alloc, arguments, CON)?,
        options: RecountOptions {
            without: read_if_given(alloc, arguments, WITHOUT)?,
            lot: read_if_given(alloc, arguments, LOT)?,
            awards: is_given(arguments, AWARDS),
            decisive: is_given(arguments, DECISIVE),
            sep: read_sep(arguments),
        },
    })
}

fn read_new(alloc: Global, arguments: &ArgMatches<'_>) -> Result<Line, AllocError>
    requires db { has (codes "db") (given_rows arguments.now) ≡ true }
    requires setup { has (codes "setup") (given_rows arguments.now) ≡ true }
    ensures { GivesLine result (new_line (given_rows arguments.now)) }
{
    Ok(Line::New {
        db: read_text(alloc, arguments, DB)?,
        setup: read_text(alloc, arguments, SETUP)?,
    })
}

fn read_import(alloc: Global, arguments: &ArgMatches<'_>) -> Result<Line, AllocError>
    requires db { has (codes "db") (given_rows arguments.now) ≡ true }
    requires con { has (codes "con") (given_rows arguments.now) ≡ true }
    requires csv { has (codes "csv") (given_rows arguments.now) ≡ true }
    ensures { GivesLine result (import_line (given_rows arguments.now)) }
{
    Ok(Line::Import {
        db: read_text(alloc, arguments, DB)?,
        con: read_text(alloc, arguments, CON)?,
        csv: read_text(alloc, arguments, CSV)?,
        sep: read_sep(arguments),
        rows: is_given(arguments, ROWS),
    })
}

fn read_show(alloc: Global, arguments: &ArgMatches<'_>) -> Result<Line, LineFault>
    requires db { has (codes "db") (given_rows arguments.now) ≡ true }
    requires report { has (codes "report") (given_rows arguments.now) ≡ true }
    ensures line { GivesLine result (show_line (given_rows arguments.now)) }
    ensures fault { IfErr result (IsShowFault (given_rows arguments.now)) }
{
    let Some(name) = text_of(arguments, REPORT) else {
        unreachable!();
    };
    let Some(report) = Shown::named(name) else {
        return Err(LineFault::Usage(no_report(alloc, name)?));
    };
    let con = read_if_given(alloc, arguments, CON)?;
    if report.needs_con() && con.is_none() {
        return Err(LineFault::NoCon);
    }
    Ok(Line::Show {
        db: read_text(alloc, arguments, DB)?,
        report,
        con,
    })
}

fn read_serve(alloc: Global, arguments: &ArgMatches<'_>) -> Result<Line, AllocError>
    requires db { has (codes "db") (given_rows arguments.now) ≡ true }
    requires port { has_port (given_rows arguments.now) ≡ true }
    requires count { has_count (given_rows arguments.now) ≡ true }
    ensures { GivesLine result (serve_line (given_rows arguments.now)) }
{
    Ok(Line::Serve {
        db: read_text(alloc, arguments, DB)?,
        port: read_number(arguments, PORT, MOST_PORT) as u16,
        count: read_number(arguments, COUNT, MOST_COUNT) as u32,
    })
}

// The text of an argument that was given.
fn read_text(alloc: Global, arguments: &ArgMatches<'_>, id: &str) -> Result<String, AllocError>
    requires { has id.now (given_rows arguments.now) ≡ true }
    ensures { IfOk result (IsGivenText id.now (given_rows arguments.now)) }
{
    match text_of(arguments, id) {
        Some(text) => text.to_string(alloc),
        None => unreachable!(),
    }
}

// The number of an argument that was given, from 1 to `most`.
fn read_number(arguments: &ArgMatches<'_>, id: &str, most: u64) -> u64
    requires { is_some (number_given id.now 1 most (given_rows arguments.now)) ≡ true }
    ensures number { number_given id.now 1 most (given_rows arguments.now) ≡ Some result }
    ensures bound { result ≤ most }
{
    match text_of(arguments, id) {
        Some(text) => match text.parse() {
            Ok(number) => number,
            Err(_) => unreachable!(),
        },
        None => unreachable!(),
    }
}

// The number of an argument that may be left out, from 0 to `most`, and 0 where there is none.
fn read_number_or_none(arguments: &ArgMatches<'_>, id: &str, most: u64) -> u64
    ensures number { result ≡ number_or_none id.now most (given_rows arguments.now) }
    ensures bound { result ≤ most }
{
    match text_of(arguments, id) {
        Some(text) => number_up_to(text, most),
        None => 0,
    }
}

// The number that a text writes, where it is at most this, and else 0.
fn number_up_to(text: &str, most: u64) -> u64
    ensures number { result ≡ unwrap_or (number_in_range 0 most text.now) 0 }
    ensures bound { result ≤ most }
{
    match text.parse::<u64>() {
        Ok(number) => {
            if number > most {
                return 0;
            }
            number
        }
        Err(_) => 0,
    }
}

// The text of an argument, where it was given.
fn read_if_given(
    alloc: Global,
    arguments: &ArgMatches<'_>,
    id: &str,
) -> Result<Option<String>, AllocError>
    ensures { IfOk result (IsTextIfGiven id.now (given_rows arguments.now)) }
{
    match text_of(arguments, id) {
        Some(text) => Ok(Some(text.to_string(alloc)?)),
        None => Ok(None),
    }
}

fn read_sep(arguments: &ArgMatches<'_>) -> Sep
    ensures { result ≡ sep_given (given_rows arguments.now) }
{
    if is_given(arguments, SEMICOLON) {
        Sep::Semicolon
    } else {
        Sep::Comma
    }
}

// The first text of an argument, where it was given.
fn text_of<'a>(arguments: &ArgMatches<'a>, id: &str) -> Option<&'a str>
    ensures { option_map (λ text. text.now) result ≡ first_of id.now (given_rows arguments.now) }
{
    arguments.get_str(id)
}

// Whether a flag was given.
fn is_given(arguments: &ArgMatches<'_>, flag: &str) -> bool
    ensures { result ≡ is_set flag.now (given_rows arguments.now) }
{
    arguments.get_one(flag).unwrap_or(false)
}

// The error of a text that names no report, in the form of those of `clap`.
fn no_report(alloc: Global, name: &str) -> Result<clap::Error, AllocError>
    ensures { IfOk result (λ error. kind_of error ≡ InvalidValue) }
{
    let message = format!(in alloc;
        "invalid value '{name}' for '--report <NAME>'\n{}",
        help::REPORTS
    )?;
    show_error(alloc, message.as_str())
}

// The error of a word that is none of these, in the form of those of `clap`.
fn no_word(alloc: Global, word: &str, id: &str, words: &str) -> Result<clap::Error, AllocError>
    ensures { IfOk result (λ error. kind_of error ≡ InvalidValue) }
{
    let message = format!(in alloc;
        "invalid value '{word}' for '--{id} <WORD>'\n  [possible values: {words}]"
    )?;
    let mut command = allot_command(alloc)?.bin_name("office allot")?;
    command.error(ErrorKind::InvalidValue, message.as_str())
}

// An error of `show` with this message, and its usage line.
fn show_error(alloc: Global, message: &str) -> Result<clap::Error, AllocError>
    ensures { IfOk result (λ error. kind_of error ≡ InvalidValue) }
{
    let mut command = show_command(alloc)?.bin_name("office show")?;
    command.error(ErrorKind::InvalidValue, message)
}

fn office_command<'a>(alloc: Global) -> Result<Command<'a>, AllocError>
    ensures { IfOk result (λ c. app_of c ≡ office_app) }
{
    let mut commands = Vec::new(alloc);
    push_command(&mut commands, check_command(alloc))?;
    push_command(&mut commands, allot_command(alloc))?;
    push_command(&mut commands, recount_command(alloc))?;
    push_command(&mut commands, new_command(alloc))?;
    push_command(&mut commands, import_command(alloc))?;
    push_command(&mut commands, show_command(alloc))?;
    push_command(&mut commands, serve_command(alloc))?;
    bare_office_command(alloc).subcommands(commands)
}

// The program without its commands.
fn bare_office_command<'a>(alloc: Global) -> Command<'a>
    ensures { app_of result ≡ bare_office_app }
{
    Command::new(alloc, "office")
        .version(help::VERSION)
        .about(help::OFFICE)
        .after_help(help::OFFICE_EXAMPLE)
        .subcommand_required(true)
        .arg_required_else_help(true)
}

// Appends a command, where there was memory to make it.
fn push_command<'a>(
    commands: &mut Vec<Command<'a>>,
    command: Result<Command<'a>, AllocError>,
) -> Result<(), AllocError>
    ensures { OnOk result (AddsMade commands.old.items command.entry commands.new.items) }
{
    commands.push(command?)?;
    Ok(())
}

// A command: its name, the texts of its help, and its arguments.
fn described_command<'a>(
    alloc: Global,
    name: &'a str,
    about: &'a str,
    long: &'a str,
    example: &'a str,
    arguments: Vec<Arg<'a>>,
) -> Result<Command<'a>, AllocError>
    ensures { IfOk result (OffersAll (new_app name.now) arguments.entry.items) }
{
    Command::new(alloc, name)
        .about(about)
        .long_about(long)
        .after_long_help(example)
        .args(arguments)
}

fn check_command<'a>(alloc: Global) -> Result<Command<'a>, AllocError>
    ensures { IfOk result (Offers check_app) }
{
    described_command(
        alloc,
        CHECK,
        help::CHECK,
        help::CHECK_LONG,
        help::CHECK_EXAMPLE,
        vec![in alloc;
            flag_arg(alloc, SEMICOLON, help::SEMICOLON),
            flag_arg(alloc, ROWS, help::ROWS),
        ]?,
    )
}

fn allot_command<'a>(alloc: Global) -> Result<Command<'a>, AllocError>
    ensures { IfOk result (Offers allot_app) }
{
    let arguments = vec![in alloc;
        value_arg(alloc, LOT, "CODES", help::LOT),
        flag_arg(alloc, ALTERNATING, help::ALTERNATING),
        flag_arg(alloc, AWARDS, help::AWARDS),
        flag_arg(alloc, SEMICOLON, help::SEMICOLON),
    ]?;
    bare_allot_command(alloc)?.args(arguments)
}

// `allot` with the first of its arguments: all at once would take much stack.
fn bare_allot_command<'a>(alloc: Global) -> Result<Command<'a>, AllocError>
    ensures { IfOk result (Offers bare_allot_app) }
{
    described_command(
        alloc,
        ALLOT,
        help::ALLOT,
        help::ALLOT_LONG,
        help::ALLOT_EXAMPLE,
        vec![in alloc;
            number_arg(alloc, SEATS, MOST_SEATS, help::SEATS),
            wanted_arg(alloc, METHOD, "WORD", help::METHOD),
            amount_arg(alloc, THRESHOLD, WHOLE_BASE, help::THRESHOLD),
            value_arg(alloc, BASE, "WORD", help::BASE),
            amount_arg(alloc, BLANK, MOST_VOTES, help::BLANK),
        ]?,
    )
}

fn recount_command<'a>(alloc: Global) -> Result<Command<'a>, AllocError>
    ensures { IfOk result (Offers recount_app) }
{
    let arguments = vec![in alloc;
        flag_arg(alloc, AWARDS, help::AWARDS),
        flag_arg(alloc, DECISIVE, help::DECISIVE),
        flag_arg(alloc, SEMICOLON, help::SEMICOLON),
    ]?;
    bare_recount_command(alloc)?.args(arguments)
}

// `recount` with the first of its arguments.
fn bare_recount_command<'a>(alloc: Global) -> Result<Command<'a>, AllocError>
    ensures { IfOk result (Offers bare_recount_app) }
{
    described_command(
        alloc,
        RECOUNT,
        help::RECOUNT,
        help::RECOUNT_LONG,
        help::RECOUNT_EXAMPLE,
        vec![in alloc;
            wanted_arg(alloc, SETUP, "FILE", help::SETUP),
            wanted_arg(alloc, CON, "CODE", help::RECOUNT_CON),
            value_arg(alloc, WITHOUT, "CODES", help::WITHOUT),
            value_arg(alloc, LOT, "CODES", help::LOT),
        ]?,
    )
}

fn new_command<'a>(alloc: Global) -> Result<Command<'a>, AllocError>
    ensures { IfOk result (Offers new_office_app) }
{
    described_command(
        alloc,
        NEW,
        help::NEW,
        help::NEW_LONG,
        help::NEW_EXAMPLE,
        vec![in alloc;
            wanted_arg(alloc, DB, "FILE", help::NEW_DB),
            wanted_arg(alloc, SETUP, "FILE", help::SETUP),
        ]?,
    )
}

fn import_command<'a>(alloc: Global) -> Result<Command<'a>, AllocError>
    ensures { IfOk result (Offers import_app) }
{
    described_command(
        alloc,
        IMPORT,
        help::IMPORT,
        help::IMPORT_LONG,
        help::IMPORT_EXAMPLE,
        vec![in alloc;
            wanted_arg(alloc, DB, "FILE", help::DB),
            wanted_arg(alloc, CON, "CODE", help::IMPORT_CON),
            wanted_arg(alloc, CSV, "FILE", help::CSV),
            flag_arg(alloc, SEMICOLON, help::SEMICOLON),
            flag_arg(alloc, ROWS, help::ROWS),
        ]?,
    )
}

fn show_command<'a>(alloc: Global) -> Result<Command<'a>, AllocError>
    ensures { IfOk result (Offers show_app) }
{
    described_command(
        alloc,
        SHOW,
        help::SHOW,
        help::SHOW_LONG,
        help::SHOW_EXAMPLE,
        vec![in alloc;
            wanted_arg(alloc, DB, "FILE", help::DB),
            wanted_arg(alloc, REPORT, "NAME", help::REPORT),
            value_arg(alloc, CON, "CODE", help::SHOW_CON),
        ]?,
    )
}

fn serve_command<'a>(alloc: Global) -> Result<Command<'a>, AllocError>
    ensures { IfOk result (Offers serve_app) }
{
    described_command(
        alloc,
        SERVE,
        help::SERVE,
        help::SERVE_LONG,
        help::SERVE_EXAMPLE,
        vec![in alloc;
            wanted_arg(alloc, DB, "FILE", help::DB),
            number_arg(alloc, PORT, MOST_PORT, help::PORT),
            number_arg(alloc, COUNT, MOST_COUNT, help::COUNT),
        ]?,
    )
}

// An argument without a value, which may be left out.
fn flag_arg<'a>(alloc: Global, name: &'a str, text: &'a str) -> Arg<'a>
    ensures { HasRule (flag_rule name.now) result }
{
    Arg::new(alloc, name)
        .long(name)
        .action(ArgAction::SetTrue)
        .help(text)
}

// An argument with one value, which may be left out.
fn value_arg<'a>(alloc: Global, name: &'a str, value: &'a str, text: &'a str) -> Arg<'a>
    ensures { HasRule (value_rule name.now) result }
{
    Arg::new(alloc, name)
        .long(name)
        .value_name(value)
        .help(text)
}

// An argument with one value, which has to be given.
fn wanted_arg<'a>(alloc: Global, name: &'a str, value: &'a str, text: &'a str) -> Arg<'a>
    ensures { HasRule (wanted_rule name.now) result }
{
    value_arg(alloc, name, value, text).required(true)
}

// An argument that is a number from 1 to `most`, which has to be given.
fn number_arg<'a>(alloc: Global, name: &'a str, most: u64, text: &'a str) -> Arg<'a>
    ensures { HasRule (number_rule name.now 1 most) result }
{
    wanted_arg(alloc, name, "N", text).value_parser(ValueParser::unsigned(1, most))
}

// An argument that is a number from 0 to `most`, which may be left out.
fn amount_arg<'a>(alloc: Global, name: &'a str, most: u64, text: &'a str) -> Arg<'a>
    ensures { HasRule (amount_rule name.now most) result }
{
    value_arg(alloc, name, "N", text).value_parser(ValueParser::unsigned(0, most))
}
