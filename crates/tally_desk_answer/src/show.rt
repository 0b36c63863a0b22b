//! What GET shows of a return and of a constituency.

ghost use Rattle.std.specs.Prelude.{◌≡◌, IfOk, OnOk, codes, string_bytes};
ghost use Rattle.serde_json.specs.Data.{no_members, object, put as with_member, string};
ghost use Rattle.serde_json.specs.View.{view, members_view};
ghost use Rattle.serde_json.specs.Written.{compact_text};
ghost use Rattle.tally_desk_answer.specs.Shown.{all_gone, code_at_place, codes_at_places};
ghost use Rattle.tally_desk_answer.specs.Shown.{members_after_gone, members_from_spoiled};
ghost use Rattle.tally_desk_answer.specs.Shown.{shown_con};
ghost use Rattle.tally_desk_answer.specs.Shown.{shown_gone, shown_return, whole_value};
ghost use Rattle.tally_desk_answer.specs.Shown.{whole_values};
ghost use Rattle.tally_desk_answer.specs.Shown.{con_members, with_entry};
ghost use Rattle.tally_setup.specs.declared.constituency.Entry.TheVariants.{Single};

use serde_json::{Map, Value};
use std::alloc::{AllocError, Global};
use tally_returns::{ConView, Gone, Return};
use tally_setup::{Constituency, Entry, ListEntry};

// Members are put in from the last to the first, so that each goes before those that are there.
fn put_text(
    map: &mut Map<String, Value>,
    alloc: Global,
    key: &str,
    text: &str,
) -> Result<(), AllocError>
    ensures { OnOk result (members_view map.new.entries
        ≡ with_member key.now (string text.now) (members_view map.old.entries)) }
{
    serde_json::put(map, alloc, key, Value::try_from_str(alloc, text)?)
}

fn put_number(
    map: &mut Map<String, Value>,
    alloc: Global,
    key: &str,
    number: u64,
) -> Result<(), AllocError>
    ensures { OnOk result (members_view map.new.entries
        ≡ with_member key.now (whole_value number) (members_view map.old.entries)) }
{
    serde_json::put(map, alloc, key, Value::from(number))
}

fn put_numbers(
    map: &mut Map<String, Value>,
    alloc: Global,
    key: &str,
    numbers: &[u32],
) -> Result<(), AllocError>
    ensures { OnOk result (members_view map.new.entries
        ≡ with_member key.now (whole_values numbers.now) (members_view map.old.entries)) }
{
    let mut items = Vec::with_capacity(alloc, numbers.len())?;
    for number in numbers {
        items.push(Value::from(*number))?;
    }
    serde_json::put(map, alloc, key, Value::from(items))
}

fn put_long_numbers(
    map: &mut Map<String, Value>,
    alloc: Global,
    key: &str,
    numbers: &[u64],
) -> Result<(), AllocError>
    ensures { OnOk result (members_view map.new.entries
        ≡ with_member key.now (whole_values numbers.now) (members_view map.old.entries)) }
{
    let mut items = Vec::with_capacity(alloc, numbers.len())?;
    for number in numbers {
        items.push(Value::from(*number))?;
    }
    serde_json::put(map, alloc, key, Value::from(items))
}

fn put_from_spoiled(
    map: &mut Map<String, Value>,
    alloc: Global,
    station: &str,
    kept: &Return,
) -> Result<(), AllocError>
    requires { members_view map.old.entries ≡ no_members }
    ensures { OnOk result
        (members_view map.new.entries ≡ members_from_spoiled station.now kept.now) }
{
    put_numbers(map, alloc, "votes", &kept.counts.votes)?;
    put_text(map, alloc, "status", kept.status.word())?;
    put_text(map, alloc, "station", station)?;
    put_number(map, alloc, "spoiled", u64::from(kept.counts.spoiled))
}

fn put_return(
    map: &mut Map<String, Value>,
    alloc: Global,
    station: &str,
    kept: &Return,
) -> Result<(), AllocError>
    requires { members_view map.old.entries ≡ no_members }
    ensures { OnOk result
        (object (members_view map.new.entries) ≡ shown_return station.now kept.now) }
{
    put_from_spoiled(map, alloc, station, kept)?;
    put_text(map, alloc, "slip", kept.slip.as_str())?;
    put_number(map, alloc, "rev", u64::from(kept.rev))?;
    put_text(map, alloc, "note", &kept.note)?;
    put_number(map, alloc, "blank", u64::from(kept.counts.blank))
}

/// The JSON of a station's return.
pub fn return_text(alloc: Global, station: &str, kept: &Return) -> Result<String, AllocError>
    ensures { IfOk result
        (λ text. string_bytes text ≡ compact_text (shown_return station.now kept.now)) }
{
    let mut map = Map::new(alloc);
    put_return(&mut map, alloc, station, kept)?;
    Value::Object(map).to_string(alloc)
}

fn code_at_place(lists: &[ListEntry], place: u32) -> &str
    ensures { result.now ≡ code_at_place lists.now place }
{
    if place == 0 {
        return "";
    }
    match lists.get(place as usize - 1) {
        Some(list) => list.code.as_str(),
        None => "",
    }
}

fn put_codes(
    map: &mut Map<String, Value>,
    alloc: Global,
    key: &str,
    lists: &[ListEntry],
    places: &[u32],
) -> Result<(), AllocError>
    ensures { OnOk result (members_view map.new.entries
        ≡ with_member key.now (codes_at_places lists.now places.now)
        (members_view map.old.entries)) }
{
    let mut items = Vec::with_capacity(alloc, places.len())?;
    for place in places {
        items.push(Value::try_from_str(alloc, code_at_place(lists, *place))?)?;
    }
    serde_json::put(map, alloc, key, Value::from(items))
}

fn gone_value(alloc: Global, lists: &[ListEntry], gone: &Gone) -> Result<Value, AllocError>
    ensures { IfOk result (λ value. view value ≡ shown_gone lists.now gone.now) }
{
    let mut map = Map::new(alloc);
    put_number(&mut map, alloc, "place", u64::from(gone.place))?;
    put_text(&mut map, alloc, "note", &gone.note)?;
    put_text(&mut map, alloc, "list", code_at_place(lists, gone.list))?;
    Ok(Value::Object(map))
}

fn put_gone(
    map: &mut Map<String, Value>,
    alloc: Global,
    lists: &[ListEntry],
    all: &[Gone],
) -> Result<(), AllocError>
    ensures { OnOk result (members_view map.new.entries
        ≡ with_member (codes "gone") (all_gone lists.now all.now) (members_view map.old.entries)) }
{
    let mut items = Vec::with_capacity(alloc, all.len())?;
    for gone in all {
        items.push(gone_value(alloc, lists, gone)?)?;
    }
    serde_json::put(map, alloc, "gone", Value::from(items))
}

fn put_after_gone(
    map: &mut Map<String, Value>,
    alloc: Global,
    con: &Constituency,
    seen: &ConView,
) -> Result<(), AllocError>
    requires { members_view map.old.entries ≡ no_members }
    ensures { OnOk result (members_view map.new.entries ≡ members_after_gone con.now seen.now) }
{
    put_long_numbers(map, alloc, "votes", &seen.votes)?;
    put_number(map, alloc, "stations", u64::from(seen.stations))?;
    put_number(map, alloc, "spoiled", seen.spoiled)?;
    put_numbers(map, alloc, "seats", &seen.seats)?;
    put_text(map, alloc, "note", &seen.note)?;
    put_codes(map, alloc, "lot", &con.lists, &seen.lot)
}

fn put_con(
    map: &mut Map<String, Value>,
    alloc: Global,
    con: &Constituency,
    seen: &ConView,
) -> Result<(), AllocError>
    requires { members_view map.old.entries ≡ no_members }
    ensures { OnOk result (members_view map.new.entries
        ≡ con_members con.now seen.now (with_entry Single)) }
{
    put_after_gone(map, alloc, con, seen)?;
    put_gone(map, alloc, &con.lists, &seen.gone)?;
    put_number(map, alloc, "edition", u64::from(seen.edition))?;
    put_text(map, alloc, "con", con.code.as_str())?;
    put_number(map, alloc, "closed", u64::from(seen.closed))?;
    serde_json::put(map, alloc, "certified", Value::from(seen.certified))?;
    put_number(map, alloc, "blank", seen.blank)
}

// This one comes last, so that the others are the same where it is missing.
fn put_entry(
    map: &mut Map<String, Value>,
    alloc: Global,
    con: &Constituency,
    seen: &ConView,
) -> Result<(), AllocError>
    requires { members_view map.old.entries ≡ con_members con.now seen.now (with_entry Single) }
    ensures { OnOk result (object (members_view map.new.entries) ≡ shown_con con.now seen.now) }
{
    match con.entry {
        Entry::Single => Ok(()),
        Entry::Double => put_text(map, alloc, "entry", "double"),
    }
}

/// The JSON of a constituency as it is seen.
pub fn con_text(alloc: Global, con: &Constituency, seen: &ConView) -> Result<String, AllocError>
    ensures { IfOk result (λ text.
        string_bytes text ≡ compact_text (shown_con con.now seen.now)) }
{
    let mut map = Map::new(alloc);
    put_con(&mut map, alloc, con, seen)?;
    put_entry(&mut map, alloc, con, seen)?;
    Value::Object(map).to_string(alloc)
}
