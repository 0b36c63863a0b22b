//! The members of a result. Each function puts those after its own first.

ghost use Rattle.std.specs.Prelude.{◌≡◌, OnOk, length};
ghost use Rattle.serde_json.specs.Data.{no_members};
ghost use Rattle.serde_json.specs.View.{members_view};
ghost use Rattle.tally_returns.specs.View.{FitsView};
ghost use Rattle.tally_report_result.specs.Members.{from_certified, from_gone, from_lot};
ghost use Rattle.tally_report_result.specs.Members.{from_queried, from_spoiled, result_members};
ghost use Rattle.tally_report_result.specs.internal.Found.{parts_of};

use crate::candidates::{all_holders, gone_values};
use crate::code::{codes_of, group_codes, seats_in_question};
use crate::lists::{award_values, list_values};
use crate::parts::Parts;
use crate::past::past_values;
use crate::put::{put_array, put_number, put_text};
use crate::quota::quota_values;
use crate::word::{entry_word, status_word};
use serde_json::{Map, Value};
use std::alloc::{AllocError, Global};
use tally_report_lines::{base_word, lot_rule_word, method_word};
use tally_returns::ConView;
use tally_setup::Constituency;

fn put_from_spoiled(
    map: &mut Map<String, Value>,
    alloc: Global,
    con: &Constituency,
    view: &ConView,
    parts: &Parts,
) -> Result<(), AllocError>
    requires empty { members_view map.old.entries ≡ no_members }
    ensures { OnOk result (members_view map.new.entries
        ≡ from_spoiled con.now view.now (parts_of parts.now)) }
{
    put_number(map, alloc, "threshold", u64::from(con.profile.threshold))?;
    put_text(map, alloc, "status", status_word(&parts.status))?;
    put_number(map, alloc, "stations", u64::from(view.stations))?;
    put_number(map, alloc, "spoiled", view.spoiled)
}

fn put_from_queried(
    map: &mut Map<String, Value>,
    alloc: Global,
    con: &Constituency,
    view: &ConView,
    parts: &Parts,
) -> Result<(), AllocError>
    requires empty { members_view map.old.entries ≡ no_members }
    requires view { FitsView con.now view.now }
    requires seats { length parts.now.seats.items ≡ length con.now.lists }
    ensures { OnOk result (members_view map.new.entries
        ≡ from_queried con.now view.now (parts_of parts.now)) }
{
    put_from_spoiled(map, alloc, con, view, parts)?;
    put_number(map, alloc, "seats", u64::from(con.seats))?;
    put_number(map, alloc, "received", u64::from(view.received))?;
    put_array(map, alloc, "quota", quota_values(alloc, con, view, parts)?)?;
    let question = seats_in_question(&parts.status);
    put_number(map, alloc, "question", u64::from(question))?;
    put_number(map, alloc, "queried", u64::from(view.queried))
}

fn put_from_lot(
    map: &mut Map<String, Value>,
    alloc: Global,
    con: &Constituency,
    view: &ConView,
    parts: &Parts,
) -> Result<(), AllocError>
    requires empty { members_view map.old.entries ≡ no_members }
    requires view { FitsView con.now view.now }
    requires seats { length parts.now.seats.items ≡ length con.now.lists }
    ensures { OnOk result (members_view map.new.entries
        ≡ from_lot con.now view.now (parts_of parts.now)) }
{
    put_from_queried(map, alloc, con, view, parts)?;
    put_array(map, alloc, "past", past_values(alloc, &view.past)?)?;
    put_text(map, alloc, "note", &view.note)?;
    put_text(map, alloc, "name", con.name.as_str())?;
    put_text(map, alloc, "method", method_word(con.profile.method))?;
    put_text(map, alloc, "lot_rule", lot_rule_word(con.profile.lot))?;
    put_array(map, alloc, "lot", codes_of(alloc, con, &view.lot)?)
}

fn put_from_gone(
    map: &mut Map<String, Value>,
    alloc: Global,
    con: &Constituency,
    view: &ConView,
    parts: &Parts,
) -> Result<(), AllocError>
    requires empty { members_view map.old.entries ≡ no_members }
    requires view { FitsView con.now view.now }
    requires seats { length parts.now.seats.items ≡ length con.now.lists }
    ensures { OnOk result (members_view map.new.entries
        ≡ from_gone con.now view.now (parts_of parts.now)) }
{
    put_from_lot(map, alloc, con, view, parts)?;
    put_array(map, alloc, "lists", list_values(alloc, con, view, parts)?)?;
    put_array(map, alloc, "holders", all_holders(alloc, con, view)?)?;
    put_array(map, alloc, "group", group_codes(alloc, con, &parts.status)?)?;
    put_array(map, alloc, "gone", gone_values(alloc, con, &view.gone)?)
}

fn put_from_certified(
    map: &mut Map<String, Value>,
    alloc: Global,
    con: &Constituency,
    view: &ConView,
    parts: &Parts,
) -> Result<(), AllocError>
    requires empty { members_view map.old.entries ≡ no_members }
    requires view { FitsView con.now view.now }
    requires seats { length parts.now.seats.items ≡ length con.now.lists }
    ensures { OnOk result (members_view map.new.entries
        ≡ from_certified con.now view.now (parts_of parts.now)) }
{
    put_from_gone(map, alloc, con, view, parts)?;
    put_text(map, alloc, "entry", entry_word(con.entry))?;
    put_number(map, alloc, "edition", u64::from(view.edition))?;
    put_number(map, alloc, "corrected", u64::from(view.corrected))?;
    put_text(map, alloc, "con", con.code.as_str())?;
    put_number(map, alloc, "closed", u64::from(view.closed))?;
    serde_json::put(map, alloc, "certified", Value::from(view.certified))
}

/// All members of a result.
pub(crate) fn put_result(
    map: &mut Map<String, Value>,
    alloc: Global,
    con: &Constituency,
    view: &ConView,
    parts: &Parts,
) -> Result<(), AllocError>
    requires empty { members_view map.old.entries ≡ no_members }
    requires view { FitsView con.now view.now }
    requires seats { length parts.now.seats.items ≡ length con.now.lists }
    ensures { OnOk result (members_view map.new.entries
        ≡ result_members con.now view.now (parts_of parts.now)) }
{
    put_from_certified(map, alloc, con, view, parts)?;
    put_number(map, alloc, "blank", view.blank)?;
    put_text(map, alloc, "base", base_word(con.profile.base))?;
    put_array(
        map,
        alloc,
        "awards",
        award_values(alloc, con, &parts.awards)?,
    )
}
