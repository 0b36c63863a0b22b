//! Who holds the seats, and who is gone.

ghost use Rattle.std.specs.Prelude.{◌≡◌, ℕ, ◌<◌, ◌≤◌, ◌++◌, true, IfOk, OnOk, length, map};
ghost use Rattle.std.specs.Prelude.{replicate, slice_index};
ghost use Rattle.serde_json.specs.View.{view as data_value};
ghost use Rattle.tally_machine_law.specs.Holders.{holders};
ghost use Rattle.tally_returns.specs.View.{FitsView};
ghost use Rattle.tally_report.specs.internal.GoneByList.{AreByList};
ghost use Rattle.tally_report_result.specs.Values.{all_holders, empty_seat, gone_value};
ghost use Rattle.tally_report_result.specs.Values.{holder_value, holder_values, list_values};
ghost use Rattle.tally_report_result.specs.Values.{seat_values};
ghost use Rattle.tally_report_result.specs.internal.Found.{data_of};

use crate::code::code_value;
use serde_json::Value;
use std::alloc::{AllocError, Global};
use tally_machine::holders;
use tally_report::{gone_by_list, places_at};
use tally_returns::{ConView, Gone};
use tally_setup::{Constituency, ListEntry};

/// Who holds the seats of a certified constituency, and its empty seats.
pub(crate) fn all_holders(
    alloc: Global,
    con: &Constituency,
    view: &ConView,
) -> Result<Vec<Value>, AllocError>
    requires { FitsView con.now view.now }
    ensures { IfOk result (λ values. data_of values.items ≡ all_holders con.now view.now) }
{
    if !view.certified {
        return Ok(Vec::new(alloc));
    }
    holders_of_lists(alloc, con, view)
}

fn holders_of_lists(
    alloc: Global,
    con: &Constituency,
    view: &ConView,
) -> Result<Vec<Value>, AllocError>
    requires { length view.now.seats ≡ length con.now.lists }
    ensures { IfOk result (λ values. data_of values.items
        ≡ list_values (holder_values view.now) con.now) }
{
    let gone = gone_by_list(alloc, view, view.seats.len())?;
    let mut values = Vec::new(alloc);
    for (place, list) in con.lists.iter().enumerate() {
        push_list(alloc, &mut values, view, place, list, &gone)?;
    }
    Ok(values)
}

#[tactic(auto, using(tally_report::proofs::GoneLemmas::gone_at))]
fn push_list(
    alloc: Global,
    values: &mut Vec<Value>,
    view: &ConView,
    place: usize,
    list: &ListEntry,
    gone: &[Vec<u32>],
) -> Result<(), AllocError>
    requires seats { place < length view.now.seats }
    requires gone { AreByList view.now.gone (length view.now.seats)
        (map (λ places. places.items) gone.now) }
    ensures { OnOk result (data_of values.new.items
        ≡ data_of values.old.items ++ holder_values view.now place list.now) }
{
    let gone = places_at(gone, place);
    push_seats(alloc, values, list, view.seats[place], gone)
}

/// Who holds the seats of a list, of whose candidates those at these places are gone.
fn push_seats(
    alloc: Global,
    values: &mut Vec<Value>,
    list: &ListEntry,
    seats: u32,
    gone: &[u32],
) -> Result<(), AllocError>
    ensures { OnOk result (data_of values.new.items ≡ data_of values.old.items
        ++ seat_values list.now seats (holders (length list.now.candidates) seats gone.now)) }
{
    let held = holders(alloc, list.candidates.len() as u32, seats, gone)?;
    push_held(alloc, values, list, &held)?;
    push_empty(
        alloc,
        values,
        list,
        (seats as usize).saturating_sub(held.len()),
    )
}

fn push_held(
    alloc: Global,
    values: &mut Vec<Value>,
    list: &ListEntry,
    held: &[u32],
) -> Result<(), AllocError>
    requires from_one { (i : ℕ) → i < length held.now → 1 ≤ slice_index held.now i }
    requires candidates { (i : ℕ) → i < length held.now
        → slice_index held.now i ≤ length list.now.candidates }
    ensures { OnOk result (data_of values.new.items
        ≡ data_of values.old.items ++ map (holder_value list.now) held.now) }
{
    for place in held {
        values.push(holder_value(alloc, list, *place)?)?;
    }
    Ok(())
}

fn holder_value(alloc: Global, list: &ListEntry, place: u32) -> Result<Value, AllocError>
    requires from_one { 1 ≤ place }
    requires candidate { place ≤ length list.now.candidates }
    ensures { IfOk result (λ value. data_value value ≡ holder_value list.now place) }
{
    let code = Value::try_from_str(alloc, list.code.as_str())?;
    let name = Value::try_from_str(alloc, list.candidates[place as usize - 1].as_str())?;
    let items = [code, Value::from(place), name];
    Ok(Value::from(Vec::from_array(alloc, items)?))
}

/// The seats that are empty.
fn push_empty(
    alloc: Global,
    values: &mut Vec<Value>,
    list: &ListEntry,
    seats: usize,
) -> Result<(), AllocError>
    ensures { OnOk result (data_of values.new.items
        ≡ data_of values.old.items ++ replicate seats (empty_seat list.now)) }
{
    for _ in 0..seats {
        values.push(empty_seat(alloc, list)?)?;
    }
    Ok(())
}

fn empty_seat(alloc: Global, list: &ListEntry) -> Result<Value, AllocError>
    ensures { IfOk result (λ value. data_value value ≡ empty_seat list.now) }
{
    let code = Value::try_from_str(alloc, list.code.as_str())?;
    let items = [code, Value::from(()), Value::from(())];
    Ok(Value::from(Vec::from_array(alloc, items)?))
}

/// The candidates who are gone, in their order.
pub(crate) fn gone_values(
    alloc: Global,
    con: &Constituency,
    gone: &[Gone],
) -> Result<Vec<Value>, AllocError>
    ensures { IfOk result (λ values. data_of values.items ≡ map (gone_value con.now) gone.now) }
{
    let mut values = Vec::with_capacity(alloc, gone.len())?;
    for candidate in gone {
        values.push(gone_value(alloc, con, candidate)?)?;
    }
    Ok(values)
}

fn gone_value(alloc: Global, con: &Constituency, gone: &Gone) -> Result<Value, AllocError>
    ensures { IfOk result (λ value. data_value value ≡ gone_value con.now gone.now) }
{
    let code = code_value(alloc, con, gone.list)?;
    let note = Value::try_from_str(alloc, gone.note.as_str())?;
    let items = [code, Value::from(gone.place), note];
    Ok(Value::from(Vec::from_array(alloc, items)?))
}
