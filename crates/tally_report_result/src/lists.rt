//! The lists of a result, and its awards.

ghost use Rattle.std.specs.Prelude.{◌≡◌, ◌<◌, true, IfOk, None, OnOk, length, map};
ghost use Rattle.std.specs.Prelude.{slice_index_or};
ghost use Rattle.serde_json.specs.Data.{no_members};
ghost use Rattle.serde_json.specs.View.{members_view, view as data_value};
ghost use Rattle.tally_returns.specs.View.{FitsView};
ghost use Rattle.tally_setup.specs.Threshold.{eligible_lists};
ghost use Rattle.tally_report_result.specs.Values.{award_value, each_list, list_numbers};
ghost use Rattle.tally_report_result.specs.Values.{list_object, list_values, seats_value};
ghost use Rattle.tally_report_result.specs.internal.Found.{data_of, parts_of};

use crate::code::code_value;
use crate::parts::Parts;
use crate::put::{put_number, put_text};
use serde_json::{Map, Value};
use std::alloc::{AllocError, Global};
use tally_allot::Award;
use tally_returns::ConView;
use tally_setup::{Constituency, ListEntry, eligible};

/// The lists, in the order of the setup.
pub(crate) fn list_values(
    alloc: Global,
    con: &Constituency,
    view: &ConView,
    parts: &Parts,
) -> Result<Vec<Value>, AllocError>
    requires view { FitsView con.now view.now }
    requires seats { length parts.now.seats.items ≡ length con.now.lists }
    ensures { IfOk result (λ values. data_of values.items
        ≡ list_values (each_list con.now view.now (parts_of parts.now)) con.now) }
{
    let marks = eligible(alloc, &con.profile, &view.votes, view.blank)?;
    values_of_lists(alloc, con, view, parts, &marks)
}

fn values_of_lists(
    alloc: Global,
    con: &Constituency,
    view: &ConView,
    parts: &Parts,
    marks: &[bool],
) -> Result<Vec<Value>, AllocError>
    requires view { FitsView con.now view.now }
    requires seats { length parts.now.seats.items ≡ length con.now.lists }
    requires marks { marks.now ≡ eligible_lists con.now.profile view.now.votes view.now.blank }
    ensures { IfOk result (λ values. data_of values.items
        ≡ list_values (each_list con.now view.now (parts_of parts.now)) con.now) }
{
    let mut values = Vec::with_capacity(alloc, con.lists.len())?;
    for (place, list) in con.lists.iter().enumerate() {
        values.push(list_value(alloc, view, parts, marks[place], place, list)?)?;
    }
    Ok(values)
}

/// A list, which is eligible or not.
fn list_value(
    alloc: Global,
    view: &ConView,
    parts: &Parts,
    eligible: bool,
    place: usize,
    list: &ListEntry,
) -> Result<Value, AllocError>
    requires votes { place < length view.now.votes }
    requires provisional { place < length parts.now.seats.items }
    requires seats { view.now.certified ≡ true → place < length view.now.seats }
    ensures { IfOk result (λ value. data_value value
        ≡ list_object view.now (parts_of parts.now) eligible place list.now) }
{
    let mut map = Map::new(alloc);
    put_numbers(&mut map, alloc, view, parts, place)?;
    put_text(&mut map, alloc, "name", list.name.as_str())?;
    serde_json::put(&mut map, alloc, "eligible", Value::from(eligible))?;
    put_text(&mut map, alloc, "code", list.code.as_str())?;
    Ok(Value::Object(map))
}

/// The numbers of the list at a place.
fn put_numbers(
    map: &mut Map<String, Value>,
    alloc: Global,
    view: &ConView,
    parts: &Parts,
    place: usize,
) -> Result<(), AllocError>
    requires empty { members_view map.old.entries ≡ no_members }
    requires votes { place < length view.now.votes }
    requires provisional { place < length parts.now.seats.items }
    requires seats { view.now.certified ≡ true → place < length view.now.seats }
    ensures { OnOk result (members_view map.new.entries
        ≡ list_numbers view.now (parts_of parts.now) place) }
{
    let short = votes_short_at(&parts.short, place);
    put_number(map, alloc, "votes", view.votes[place])?;
    serde_json::put(map, alloc, "short", Value::from(short))?;
    serde_json::put(map, alloc, "seats", seats_value(view, place))?;
    put_number(map, alloc, "provisional", u64::from(parts.seats[place]))
}

/// The number of the list at a place, if there is one.
fn votes_short_at(numbers: &[Option<u64>], place: usize) -> Option<u64>
    ensures { result ≡ slice_index_or numbers.now place None }
{
    match numbers.get(place) {
        Some(number) => *number,
        None => None,
    }
}

/// The seats that the certificate gives the list at a place; nothing where there is none.
fn seats_value(view: &ConView, place: usize) -> Value
    requires { view.now.certified ≡ true → place < length view.now.seats }
    ensures { data_value result ≡ seats_value view.now place }
{
    if !view.certified {
        return Value::from(());
    }
    Value::from(view.seats[place])
}

/// The awards, in their order.
pub(crate) fn award_values(
    alloc: Global,
    con: &Constituency,
    awards: &[Award],
) -> Result<Vec<Value>, AllocError>
    ensures { IfOk result (λ values. data_of values.items ≡ map (award_value con.now) awards.now) }
{
    let mut values = Vec::with_capacity(alloc, awards.len())?;
    for award in awards {
        values.push(award_value(alloc, con, award)?)?;
    }
    Ok(values)
}

fn award_value(alloc: Global, con: &Constituency, award: &Award) -> Result<Value, AllocError>
    ensures { IfOk result (λ value. data_value value ≡ award_value con.now award.now) }
{
    let code = code_value(alloc, con, award.list)?;
    let (k, num, den) = (award.k, award.num, award.den);
    let items = [code, Value::from(k), Value::from(num), Value::from(den)];
    Ok(Value::from(Vec::from_array(alloc, items)?))
}
