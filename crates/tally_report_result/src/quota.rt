//! The quotas of a result.

ghost use Rattle.std.specs.Prelude.{◌≡◌, ◌<◌, ◌++◌, IfOk, OnOk, length};
ghost use Rattle.tally_allot_award.specs.internal.KeptPoll.{kept_poll};
ghost use Rattle.tally_law.specs.Poll.{IsEligible};
ghost use Rattle.tally_returns.specs.View.{FitsView};
ghost use Rattle.serde_json.specs.View.{view as data_value};
ghost use Rattle.tally_report_result.specs.Values.{list_values, quota_of, quota_value};
ghost use Rattle.tally_report_result.specs.Values.{quota_values};
ghost use Rattle.tally_report_result.specs.internal.Found.{data_of, parts_of};

use crate::parts::{Parts, is_decided};
use serde_json::Value;
use std::alloc::{AllocError, Global};
use tally_allot_award::{HareContest, Poll};
use tally_returns::ConView;
use tally_setup::{Constituency, ListEntry};

/// The quotas of each eligible list, where they are shown.
pub(crate) fn quota_values(
    alloc: Global,
    con: &Constituency,
    view: &ConView,
    parts: &Parts,
) -> Result<Vec<Value>, AllocError>
    requires view { FitsView con.now view.now }
    requires seats { length parts.now.seats.items ≡ length con.now.lists }
    ensures { IfOk result (λ values. data_of values.items
        ≡ quota_values con.now view.now (parts_of parts.now)) }
{
    if !is_decided(&parts.status) {
        return Ok(Vec::new(alloc));
    }
    if let Some(_rule) = con.profile.method.divisor_rule() {
        return Ok(Vec::new(alloc));
    }
    let poll = Poll::new(&con.profile, &view.votes, view.blank);
    let contest = HareContest::new(&poll, &[], con.seats);
    quotas_of_lists(alloc, con, &contest, &parts.seats)
}

fn quotas_of_lists(
    alloc: Global,
    con: &Constituency,
    contest: &HareContest,
    seats: &[u32],
) -> Result<Vec<Value>, AllocError>
    requires lists { length contest.now.poll.votes.now ≡ length con.now.lists }
    requires seats { length seats.now ≡ length con.now.lists }
    ensures { IfOk result (λ values. data_of values.items
        ≡ list_values (quota_value (kept_poll contest.now.poll) contest.now.seats seats.now)
        con.now) }
{
    let mut values = Vec::new(alloc);
    for (place, list) in con.lists.iter().enumerate() {
        push_list(alloc, &mut values, contest, seats, place, list)?;
    }
    Ok(values)
}

fn push_list(
    alloc: Global,
    values: &mut Vec<Value>,
    contest: &HareContest,
    seats: &[u32],
    place: usize,
    list: &ListEntry,
) -> Result<(), AllocError>
    requires list { place < length contest.now.poll.votes.now }
    requires seats { place < length seats.now }
    ensures { OnOk result (data_of values.new.items ≡ data_of values.old.items
        ++ quota_value (kept_poll contest.now.poll) contest.now.seats seats.now place list.now) }
{
    if !contest.poll.is_eligible(place) {
        return Ok(());
    }
    values.push(quota_of(alloc, contest, seats[place], place, list.code.as_str())?)?;
    Ok(())
}

/// The quotas of an eligible list, which has this code and holds this many seats.
fn quota_of(
    alloc: Global,
    contest: &HareContest,
    seats: u32,
    place: usize,
    code: &str,
) -> Result<Value, AllocError>
    requires list { place < length contest.now.poll.votes.now }
    requires eligible { IsEligible (kept_poll contest.now.poll) place }
    ensures { IfOk result (λ value. data_value value
        ≡ quota_of (kept_poll contest.now.poll) contest.now.seats place code.now seats) }
{
    let code = Value::try_from_str(alloc, code)?;
    let whole = Value::from(contest.whole_quotas(place));
    let remainder = Value::from(contest.remainder(place));
    let items = [code, whole, remainder, Value::from(seats)];
    Ok(Value::from(Vec::from_array(alloc, items)?))
}
