//! The seats while the count goes on.

ghost use Rattle.std.specs.Prelude.{◌≡◌, ◌<◌, ◌≤◌, ◌++◌, IfErr, IfOk, OnOk, length};
ghost use Rattle.std.specs.Prelude.{string_bytes, sum};
ghost use Rattle.tally_frac.specs.Limits.{most_lists};
ghost use Rattle.tally_machine_law.specs.Outcome.{IsLawfulView};
ghost use Rattle.tally_returns.specs.View.{FitsView};
ghost use Rattle.tally_report_lines.specs.Columns.{list_lines};
ghost use Rattle.tally_report.specs.ProvisionalText.{IsProvisionalText, member, provisional_text};
ghost use Rattle.tally_report.specs.ProvisionalText.{stations_line, status_line, total_line};
ghost use Rattle.tally_report.specs.declared.fault.ReportFault.TheVariants.{Memory};

use crate::fault::ReportFault;
use crate::seats::push_lists;
use crate::status::{ProvisionalStatus, provisional_seats};
use std::alloc::{AllocError, Global};
use tally_allot::ListSet;
use tally_report_lines::{CODE_WIDTH, push_heading, push_left, push_number};
use tally_returns::ConView;
use tally_setup::{Constituency, ListEntry};

/// The seats of each list if the votes that are closed now were all the votes, at any time: how
/// many stations are closed, and whether the constituency is certified, decided so far, in need of
/// a lot or without an eligible list.
pub fn provisional_text(
    alloc: Global,
    con: &Constituency,
    view: &ConView,
) -> Result<String, ReportFault>
    requires { FitsView con.now view.now }
    ensures text { IfOk result (λ text. IsLawfulView con.now view.now
        → IsProvisionalText con.now view.now (string_bytes text)) }
    ensures fault { IfErr result (λ fault. fault ≡ Memory) }
{
    let found = provisional_seats(alloc, con, view)?;
    let mut text = String::new(alloc);
    push_text(&mut text, con, view, &found.status, &found.seats)?;
    Ok(text)
}

fn push_text(
    text: &mut String,
    con: &Constituency,
    view: &ConView,
    status: &ProvisionalStatus,
    seats: &[u32],
) -> Result<(), AllocError>
    requires { length seats.now ≡ length con.now.lists }
    ensures { OnOk result (string_bytes text.new ≡ string_bytes text.old
        ++ provisional_text con.now view.now status.now seats.now) }
{
    push_heading(text, "PROVISIONAL", con)?;
    push_stations(text, view)?;
    push_status(text, con, status)?;
    push_lists(text, con, seats)?;
    // Read for its type, by which there are at most 60.
    let _lists = con.lists.len();
    push_total(text, seats)
}

fn push_stations(text: &mut String, view: &ConView) -> Result<(), AllocError>
    ensures { OnOk result (string_bytes text.new
        ≡ string_bytes text.old ++ stations_line view.now) }
{
    writeln!(text, "stations {} closed {}", view.stations, view.closed)
}

fn push_status(
    text: &mut String,
    con: &Constituency,
    status: &ProvisionalStatus,
) -> Result<(), AllocError>
    ensures { OnOk result (string_bytes text.new
        ≡ string_bytes text.old ++ status_line con.now status.now) }
{
    match status {
        ProvisionalStatus::Certified => text.push_str("certified\n"),
        ProvisionalStatus::Open => text.push_str("open\n"),
        ProvisionalStatus::LotNeeded { group, in_question } => {
            write!(text, "lot {in_question}")?;
            push_group(text, con, group)?;
            text.push_str("\n")
        }
        ProvisionalStatus::NoEligible => text.push_str("no_eligible\n"),
    }
}

/// The codes of the lists of a group, each after a space.
fn push_group(text: &mut String, con: &Constituency, group: &ListSet) -> Result<(), AllocError>
    ensures { OnOk result (string_bytes text.new
        ≡ string_bytes text.old ++ list_lines (member group.now) con.now) }
{
    for (place, list) in con.lists.iter().enumerate() {
        push_member(text, group, place, list)?;
    }
    Ok(())
}

fn push_member(
    text: &mut String,
    group: &ListSet,
    place: usize,
    list: &ListEntry,
) -> Result<(), AllocError>
    requires { place < most_lists }
    ensures { OnOk result (string_bytes text.new
        ≡ string_bytes text.old ++ member group.now place list.now) }
{
    if !group.has_list(place) {
        return Ok(());
    }
    text.push_str(" ")?;
    text.push_str(list.code.as_str())
}

fn push_total(text: &mut String, seats: &[u32]) -> Result<(), AllocError>
    requires { length seats.now ≤ most_lists }
    ensures { OnOk result (string_bytes text.new
        ≡ string_bytes text.old ++ total_line seats.now) }
{
    push_left(text, "total", CODE_WIDTH)?;
    push_number(text, sum_of(seats), 5)?;
    text.push_str("\n")
}

/// The sum of up to 60 numbers of seats.
fn sum_of(seats: &[u32]) -> u64
    requires { length seats.now ≤ most_lists }
    ensures { result ≡ sum seats.now }
{
    let mut total = 0;
    for held in seats {
        total += u64::from(*held);
    }
    total
}
