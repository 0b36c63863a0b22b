//! The stations of a constituency, and which are still missing.

ghost use Rattle.std.specs.Prelude.{◌≡◌, ◌++◌, IfOk, IfErr, OnOk, codes, count_by};
ghost use Rattle.std.specs.Prelude.{string_bytes, sum};
ghost use Rattle.std.specs.List.{flat_map};
ghost use Rattle.std.specs.Option.{option_map_or};
ghost use Rattle.tally_report_lines.specs.Columns.{number};
ghost use Rattle.tally_report_overview.specs.StationsText.{counts_line, is_closed_at, is_missing};
ghost use Rattle.tally_report_overview.specs.StationsText.{return_columns, station_line};
ghost use Rattle.tally_report_overview.specs.StationsText.{stations_text};
ghost use Rattle.tally_report.specs.declared.fault.ReportFault.TheVariants.{Memory};

use std::alloc::{AllocError, Global};
use tally_report::ReportFault;
use tally_report_lines::{CODE_WIDTH, push_heading, push_left, push_number};
use tally_returns::{Return, StationRow, Status};
use tally_setup::Constituency;

/// How many stations a constituency has, how many of them have no return, and how many a closed
/// one; then a line for each station, with its return where it has one.
pub fn stations_text(
    alloc: Global,
    con: &Constituency,
    rows: &[StationRow],
) -> Result<String, ReportFault>
    ensures text { IfOk result (λ text. string_bytes text ≡ stations_text con.now rows.now) }
    ensures fault { IfErr result (λ fault. fault ≡ Memory) }
{
    let mut text = String::new(alloc);
    push_heading(&mut text, "STATIONS", con)?;
    push_counts(&mut text, rows)?;
    push_rows(&mut text, rows)?;
    Ok(text)
}

fn push_counts(text: &mut String, rows: &[StationRow]) -> Result<(), AllocError>
    ensures { OnOk result
        (string_bytes text.new ≡ string_bytes text.old ++ counts_line rows.now) }
{
    let (stations, missing, closed) = (rows.len(), missing(rows), closed(rows));
    writeln!(
        text,
        "stations {stations} missing {missing} closed {closed}"
    )
}

/// How many stations have no return.
fn missing(rows: &[StationRow]) -> usize
    ensures { result ≡ count_by is_missing rows.now }
{
    rows.iter().filter(|row| row.found.is_none()).count()
}

/// How many stations have a closed return.
fn closed(rows: &[StationRow]) -> usize
    ensures { result ≡ count_by is_closed_at rows.now }
{
    rows.iter().filter(|row| is_closed(row)).count()
}

fn is_closed(row: &StationRow) -> bool
    ensures { result ≡ is_closed_at row.now }
{
    match &row.found {
        Some(standing) => standing.status == Status::Closed,
        None => false,
    }
}

fn push_rows(text: &mut String, rows: &[StationRow]) -> Result<(), AllocError>
    ensures { OnOk result (string_bytes text.new
        ≡ string_bytes text.old ++ flat_map station_line rows.now) }
{
    for row in rows {
        push_row(text, row)?;
    }
    Ok(())
}

fn push_row(text: &mut String, row: &StationRow) -> Result<(), AllocError>
    ensures { OnOk result (string_bytes text.new
        ≡ string_bytes text.old ++ station_line row.now) }
{
    push_left(text, row.station.as_str(), CODE_WIDTH)?;
    push_number(text, u64::from(row.electors), 8)?;
    text.push_str(" ")?;
    push_found(text, row)?;
    text.push_str("\n")
}

fn push_found(text: &mut String, row: &StationRow) -> Result<(), AllocError>
    ensures { OnOk result (string_bytes text.new ≡ string_bytes text.old
        ++ option_map_or return_columns row.now.found (codes "-")) }
{
    match &row.found {
        Some(standing) => push_return(text, standing),
        None => text.push_str("-"),
    }
}

/// The status of a return, its revision, its slip, and the sums of its list votes, blank and
/// spoiled.
fn push_return(text: &mut String, standing: &Return) -> Result<(), AllocError>
    ensures { OnOk result (string_bytes text.new
        ≡ string_bytes text.old ++ return_columns standing.now) }
{
    push_left(text, standing.status.word(), 9)?;
    push_number(text, u64::from(standing.rev), 5)?;
    text.push_str(" ")?;
    push_left(text, standing.slip.as_str(), CODE_WIDTH)?;
    push_sum(text, &standing.counts.votes)?;
    push_number(text, u64::from(standing.counts.blank), 8)?;
    push_number(text, u64::from(standing.counts.spoiled), 8)
}

/// The sum of numbers at the right of a column of eight places.
fn push_sum(text: &mut String, numbers: &[u32]) -> Result<(), AllocError>
    ensures { OnOk result (string_bytes text.new
        ≡ string_bytes text.old ++ number 8 (sum numbers.now)) }
{
    let sum = sum(numbers);
    write!(text, "{sum:>8}")
}

/// The sum of numbers. No slice is long enough for it not to fit.
fn sum(numbers: &[u32]) -> u128
    ensures { result ≡ sum numbers.now }
{
    let mut total = 0_u128;
    for number in numbers {
        total += u128::from(*number);
    }
    total
}
