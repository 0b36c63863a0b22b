//! The votes of a constituency.

ghost use Rattle.std.specs.Prelude.{◌≡◌, ◌≤◌, ◌++◌, IfOk, IfErr, OnOk, string_bytes};
ghost use Rattle.tally_frac.specs.Limits.{most_votes};
ghost use Rattle.tally_setup.specs.Threshold.{eligible_lists};
ghost use Rattle.tally_returns.specs.View.{FitsView};
ghost use Rattle.tally_report.specs.TallyText.{tally_columns, tally_line, tally_text};
ghost use Rattle.tally_report_lines.specs.Columns.{list_lines};
ghost use Rattle.tally_report.specs.declared.fault.ReportFault.TheVariants.{Memory};

use crate::fault::ReportFault;
use std::alloc::{AllocError, Global};
use tally_report_lines::{push_heading, push_valid, push_votes_of};
use tally_returns::ConView;
use tally_setup::{Constituency, ListEntry, base_of, eligible};

/// The votes of the closed returns of a constituency: how many of its stations are closed, the
/// valid, blank and spoiled votes, and of each list its votes, their share in the base of the
/// threshold, and whether it is eligible (LOREG articles 163.1 a) and 96.5).
pub fn tally_text(alloc: Global, con: &Constituency, view: &ConView) -> Result<String, ReportFault>
    requires { FitsView con.now view.now }
    ensures text { IfOk result (λ text. string_bytes text ≡ tally_text con.now view.now) }
    ensures fault { IfErr result (λ fault. fault ≡ Memory) }
{
    let marks = eligible(alloc, &con.profile, &view.votes, view.blank)?;
    let mut text = String::new(alloc);
    push_heading(&mut text, "TALLY", con)?;
    writeln!(text, "stations {} closed {}", view.stations, view.closed)?;
    push_valid(&mut text, &view.votes, view.blank, view.spoiled)?;
    push_lists(&mut text, con, view, &marks)?;
    Ok(text)
}

fn push_lists(
    text: &mut String,
    con: &Constituency,
    view: &ConView,
    marks: &[bool],
) -> Result<(), AllocError>
    requires view { FitsView con.now view.now }
    requires marks { marks.now ≡ eligible_lists con.now.profile view.now.votes view.now.blank }
    ensures { OnOk result (string_bytes text.new
        ≡ string_bytes text.old ++ list_lines (tally_line con.now view.now) con.now) }
{
    let base = base_of(con.profile.base, &view.votes, view.blank);
    for (place, list) in con.lists.iter().enumerate() {
        push_list(text, list, view.votes[place], base, marks[place])?;
    }
    Ok(())
}

fn push_list(
    text: &mut String,
    list: &ListEntry,
    votes: u64,
    base: u64,
    eligible: bool,
) -> Result<(), AllocError>
    requires { votes ≤ most_votes }
    ensures { OnOk result (string_bytes text.new
        ≡ string_bytes text.old ++ tally_columns list.now votes base eligible) }
{
    push_votes_of(text, list.code.as_str(), votes, base, eligible)?;
    let name = list.name.as_str();
    writeln!(text, "{name}")
}
