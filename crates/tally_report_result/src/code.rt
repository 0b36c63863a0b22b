//! The codes of lists.

ghost use Rattle.std.specs.Prelude.{◌≡◌, ◌-◌, ◌++◌, ◌<◌, IfOk, OnOk, map};
ghost use Rattle.serde_json.specs.View.{view as data_value};
ghost use Rattle.tally_frac.specs.Limits.{most_lists};
ghost use Rattle.tally_report.specs.AwardsText.{code_at_index};
ghost use Rattle.tally_report_result.specs.Values.{code_value, group_codes, list_values};
ghost use Rattle.tally_report_result.specs.Values.{member_code, seats_in_question};
ghost use Rattle.tally_report_result.specs.internal.Found.{data_of};

use serde_json::Value;
use std::alloc::{AllocError, Global};
use tally_allot::ListSet;
use tally_report::ProvisionalStatus;
use tally_setup::{Constituency, ListEntry};

/// The code of the list at a place, from 1.
fn code_at(con: &Constituency, place: u32) -> &str
    ensures { result.now ≡ code_at_index con.now (place - 1) }
{
    match con.lists.get((place as usize).saturating_sub(1)) {
        Some(list) => list.code.as_str(),
        None => "",
    }
}

pub(crate) fn code_value(alloc: Global, con: &Constituency, place: u32) -> Result<Value, AllocError>
    ensures { IfOk result (λ value. data_value value ≡ code_value con.now place) }
{
    Value::try_from_str(alloc, code_at(con, place))
}

/// The codes of the lists at some places.
pub(crate) fn codes_of(
    alloc: Global,
    con: &Constituency,
    places: &[u32],
) -> Result<Vec<Value>, AllocError>
    ensures { IfOk result (λ values. data_of values.items ≡ map (code_value con.now) places.now) }
{
    let mut values = Vec::with_capacity(alloc, places.len())?;
    for place in places {
        values.push(code_value(alloc, con, *place)?)?;
    }
    Ok(values)
}

/// The codes of the lists that a lot is needed among.
pub(crate) fn group_codes(
    alloc: Global,
    con: &Constituency,
    status: &ProvisionalStatus,
) -> Result<Vec<Value>, AllocError>
    ensures { IfOk result (λ values. data_of values.items ≡ group_codes con.now status.now) }
{
    match status {
        ProvisionalStatus::LotNeeded { group, .. } => codes_in(alloc, con, group),
        _ => Ok(Vec::new(alloc)),
    }
}

fn codes_in(alloc: Global, con: &Constituency, group: &ListSet) -> Result<Vec<Value>, AllocError>
    ensures { IfOk result (λ values.
        data_of values.items ≡ list_values (member_code group.now) con.now) }
{
    let mut values = Vec::new(alloc);
    for (place, list) in con.lists.iter().enumerate() {
        push_member(alloc, &mut values, group, place, list)?;
    }
    Ok(values)
}

fn push_member(
    alloc: Global,
    values: &mut Vec<Value>,
    group: &ListSet,
    place: usize,
    list: &ListEntry,
) -> Result<(), AllocError>
    requires { place < most_lists }
    ensures { OnOk result (data_of values.new.items
        ≡ data_of values.old.items ++ member_code group.now place list.now) }
{
    if !group.has_list(place) {
        return Ok(());
    }
    values.push(Value::try_from_str(alloc, list.code.as_str())?)?;
    Ok(())
}

/// The seats that a lot is needed for.
pub(crate) fn seats_in_question(status: &ProvisionalStatus) -> u32
    ensures { result ≡ seats_in_question status.now }
{
    match status {
        ProvisionalStatus::LotNeeded { in_question, .. } => *in_question,
        _ => 0,
    }
}
