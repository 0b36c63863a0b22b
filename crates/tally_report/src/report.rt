//! The text of each report of a constituency.

ghost use Rattle.std.specs.Prelude.{IfOk, string_bytes};
ghost use Rattle.tally_returns.specs.View.{FitsView};
ghost use Rattle.tally_report.specs.Fault.{IsRefused};
ghost use Rattle.tally_report.specs.Reports.{IsEnoughFor, IsReport, report_fault};

use crate::{
    ReportFault, awards_text, holders_text, past_text, provisional_text, quota_text,
    quotients_text, seats_text, short_text, tally_text,
};
use std::alloc::Global;
use tally_report_names::Report;
use tally_returns::ConView;
use tally_setup::Constituency;

/// The text of a report of a constituency, whose view fits it, or why there is none.
pub fn report_text(
    alloc: Global,
    con: &Constituency,
    view: &ConView,
    which: Report,
) -> Result<String, ReportFault>
    requires { FitsView con.now view.now }
    // Unless the report needs a view of a lawful state, its text is exact on every view that fits.
    ensures text { IfOk result (λ text. IsEnoughFor which con.now view.now
        → IsReport con.now view.now which (string_bytes text)) }
    ensures fault { IsRefused (report_fault con.now view.now which) result }
{
    match which {
        Report::Tally => tally_text(alloc, con, view),
        Report::Seats => seats_text(alloc, con, view),
        Report::Quotients => quotients_text(alloc, con, view),
        Report::Awards => awards_text(alloc, con, view),
        Report::Quota => quota_text(alloc, con, view),
        Report::Short => short_text(alloc, con, view),
        Report::Holders => holders_text(alloc, con, view),
        Report::Past => past_text(alloc, con, view),
        Report::Provisional => provisional_text(alloc, con, view),
    }
}
