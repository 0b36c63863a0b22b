//! The seats of the lists.

ghost use Rattle.std.specs.Prelude.{◌≡◌, ◌<◌, ◌++◌, IfOk, OnOk, length, string_bytes};
ghost use Rattle.tally_returns.specs.View.{FitsView};
ghost use Rattle.tally_report.specs.Fault.{IsRefused, seats_fault};
ghost use Rattle.tally_report_lines.specs.Columns.{list_lines};
ghost use Rattle.tally_report.specs.SeatsText.{certificate_lines, seats_line, seats_text};

use crate::fault::ReportFault;
use std::alloc::{AllocError, Global};
use tally_report_lines::{CODE_WIDTH, push_heading, push_left, push_number};
use tally_returns::ConView;
use tally_setup::{Constituency, ListEntry};

/// The seats of each list of a certified constituency, and of the constituency.
pub fn seats_text(alloc: Global, con: &Constituency, view: &ConView) -> Result<String, ReportFault>
    requires { FitsView con.now view.now }
    ensures text { IfOk result (λ text. string_bytes text ≡ seats_text con.now view.now) }
    ensures fault { IsRefused (seats_fault view.now) result }
{
    if !view.certified {
        return Err(ReportFault::NotCertified);
    }
    let mut text = String::new(alloc);
    push_heading(&mut text, "SEATS", con)?;
    push_certificate(&mut text, con, view.edition, &view.seats)?;
    push_left(&mut text, "total", CODE_WIDTH)?;
    push_number(&mut text, u64::from(con.seats), 5)?;
    text.push_str("\n")?;
    Ok(text)
}

/// The edition of a certificate, and the seats that it gives each list.
pub(crate) fn push_certificate(
    text: &mut String,
    con: &Constituency,
    edition: u32,
    seats: &[u32],
) -> Result<(), AllocError>
    requires { length seats.now ≡ length con.now.lists }
    ensures { OnOk result (string_bytes text.new
        ≡ string_bytes text.old ++ certificate_lines con.now edition seats.now) }
{
    writeln!(text, "edition {edition}")?;
    push_lists(text, con, seats)
}

pub(crate) fn push_lists(
    text: &mut String,
    con: &Constituency,
    seats: &[u32],
) -> Result<(), AllocError>
    requires { length seats.now ≡ length con.now.lists }
    ensures { OnOk result (string_bytes text.new
        ≡ string_bytes text.old ++ list_lines (seats_line seats.now) con.now) }
{
    for (place, list) in con.lists.iter().enumerate() {
        push_list(text, seats, place, list)?;
    }
    Ok(())
}

fn push_list(
    text: &mut String,
    seats: &[u32],
    place: usize,
    list: &ListEntry,
) -> Result<(), AllocError>
    requires { place < length seats.now }
    ensures { OnOk result (string_bytes text.new
        ≡ string_bytes text.old ++ seats_line seats.now place list.now) }
{
    push_left(text, list.code.as_str(), CODE_WIDTH)?;
    push_number(text, u64::from(seats[place]), 5)?;
    let name = list.name.as_str();
    writeln!(text, " {name}")
}
