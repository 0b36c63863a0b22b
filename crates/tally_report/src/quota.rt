//! Quotas and remainders.

ghost use Rattle.std.specs.Prelude.{◌≡◌, ◌<◌, ◌++◌, IfOk, OnOk, length, string_bytes};
ghost use Rattle.tally_allot_award.specs.internal.KeptPoll.{kept_poll};
ghost use Rattle.tally_returns.specs.View.{FitsView};
ghost use Rattle.tally_report.specs.Fault.{IsRefused, quotas_fault};
ghost use Rattle.tally_report_lines.specs.Columns.{list_lines};
ghost use Rattle.tally_report.specs.QuotaText.{quota_line, quota_text};

use crate::fault::ReportFault;
use std::alloc::{AllocError, Global};
use tally_allot_award::{HareContest, Poll};
use tally_report_lines::{push_heading, push_quota_columns, push_quota_front};
use tally_returns::ConView;
use tally_setup::{Constituency, ListEntry};

/// The eligible votes and the seats of a certified constituency, and the whole quotas, remainder
/// and seats of each eligible list, under Hare's rule.
pub fn quota_text(alloc: Global, con: &Constituency, view: &ConView) -> Result<String, ReportFault>
    requires { FitsView con.now view.now }
    ensures text { IfOk result (λ text. string_bytes text ≡ quota_text con.now view.now) }
    ensures fault { IsRefused (quotas_fault con.now view.now) result }
{
    if !view.certified {
        return Err(ReportFault::NotCertified);
    }
    if let Some(_rule) = con.profile.method.divisor_rule() {
        return Err(ReportFault::OtherMethod);
    }
    let poll = Poll::new(&con.profile, &view.votes, view.blank);
    let contest = HareContest::new(&poll, &[], con.seats);
    let mut text = String::new(alloc);
    push_heading(&mut text, "QUOTA", con)?;
    push_quota_front(&mut text, &poll, con.seats)?;
    push_lists(&mut text, con, view, &contest)?;
    Ok(text)
}

fn push_lists(
    text: &mut String,
    con: &Constituency,
    view: &ConView,
    contest: &HareContest,
) -> Result<(), AllocError>
    requires lists { length contest.now.poll.votes.now ≡ length con.now.lists }
    requires seats { length view.now.seats ≡ length con.now.lists }
    ensures { OnOk result (string_bytes text.new
        ≡ string_bytes text.old
        ++ list_lines (quota_line (kept_poll contest.now.poll) contest.now.seats view.now)
        con.now) }
{
    for (place, list) in con.lists.iter().enumerate() {
        push_list(text, contest, view, place, list)?;
    }
    Ok(())
}

fn push_list(
    text: &mut String,
    contest: &HareContest,
    view: &ConView,
    place: usize,
    list: &ListEntry,
) -> Result<(), AllocError>
    requires list { place < length contest.now.poll.votes.now }
    requires seats { place < length view.now.seats }
    ensures { OnOk result (string_bytes text.new
        ≡ string_bytes text.old
        ++ quota_line (kept_poll contest.now.poll) contest.now.seats view.now place list.now) }
{
    if !contest.poll.is_eligible(place) {
        return Ok(());
    }
    push_quota_columns(text, contest, place, list.code.as_str(), view.seats[place])
}
