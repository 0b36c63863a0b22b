//! Commands.

ghost use Rattle.std.specs.Prelude.{◌≡◌, codes, option_map, IfOk, string_bytes};
ghost use Rattle.serde_json.specs.View.{view};
ghost use Rattle.tally_returns.specs.AskSeen.{ask_seen};
ghost use Rattle.tally_desk_routes.specs.Bodies.{IsCommand, text_under, lodge_in, query_in};
ghost use Rattle.tally_desk_routes.specs.Bodies.{correct_in};
ghost use Rattle.tally_desk_routes.specs.Bodies.{close_in, confirm_in, draw_in, certify_in};
ghost use Rattle.tally_desk_routes.specs.Bodies.{reopen_in};
ghost use Rattle.tally_desk_routes.specs.Bodies.{vacate_in, con_command, station_command};

use crate::fields::{code_under, codes_under, counts_of_body, number_under, text_under, value_of};
use crate::routes::{ConCommand, StationCommand};
use serde_json::Value;
use std::alloc::{AllocError, Global};
use tally_returns::Ask;
use tally_setup::Code;

fn note_in(alloc: Global, value: &Value) -> Result<Option<String>, AllocError>
    ensures { IfOk result
        (λ found. option_map string_bytes found ≡ text_under (codes "note") (view value.now)) }
{
    match text_under(value, "note") {
        Some(text) => Ok(Some(String::from_str(alloc, text)?)),
        None => Ok(None),
    }
}

#[tactic(auto, unfolding(crate::specs::Bodies::lodge_in))]
fn lodge(alloc: Global, station: Code, value: &Value) -> Result<Option<Ask>, AllocError>
    ensures { IfOk result (λ found.
        option_map ask_seen found ≡ lodge_in station (view value.now)) }
{
    let Some(slip) = code_under(value, "slip") else {
        return Ok(None);
    };
    let Some(counts) = counts_of_body(alloc, value)? else {
        return Ok(None);
    };
    Ok(Some(Ask::Lodge {
        station,
        slip,
        counts,
    }))
}

#[tactic(auto, unfolding(crate::specs::Bodies::query_in))]
fn query(alloc: Global, station: Code, value: &Value) -> Result<Option<Ask>, AllocError>
    ensures { IfOk result (λ found.
        option_map ask_seen found ≡ query_in station (view value.now)) }
{
    let Some(rev) = number_under(value, "rev") else {
        return Ok(None);
    };
    let Some(note) = note_in(alloc, value)? else {
        return Ok(None);
    };
    Ok(Some(Ask::Query { station, rev, note }))
}

#[tactic(auto, unfolding(crate::specs::Bodies::correct_in))]
fn correct(alloc: Global, station: Code, value: &Value) -> Result<Option<Ask>, AllocError>
    ensures { IfOk result
        (λ found. option_map ask_seen found ≡ correct_in station (view value.now)) }
{
    let Some(rev) = number_under(value, "rev") else {
        return Ok(None);
    };
    let Some(slip) = code_under(value, "slip") else {
        return Ok(None);
    };
    let Some(counts) = counts_of_body(alloc, value)? else {
        return Ok(None);
    };
    Ok(Some(Ask::Correct {
        station,
        rev,
        slip,
        counts,
    }))
}

#[tactic(auto, unfolding(crate::specs::Bodies::close_in))]
fn close(station: Code, value: &Value) -> Option<Ask>
    ensures { option_map ask_seen result ≡ close_in station (view value.now) }
{
    let rev = number_under(value, "rev")?;
    Some(Ask::Close { station, rev })
}

#[tactic(auto, unfolding(crate::specs::Bodies::confirm_in))]
fn confirm(alloc: Global, station: Code, value: &Value) -> Result<Option<Ask>, AllocError>
    ensures { IfOk result
        (λ found. option_map ask_seen found ≡ confirm_in station (view value.now)) }
{
    let Some(rev) = number_under(value, "rev") else {
        return Ok(None);
    };
    let Some(slip) = code_under(value, "slip") else {
        return Ok(None);
    };
    let Some(counts) = counts_of_body(alloc, value)? else {
        return Ok(None);
    };
    Ok(Some(Ask::Confirm {
        station,
        rev,
        slip,
        counts,
    }))
}

#[tactic(auto, unfolding(crate::specs::Bodies::draw_in))]
fn draw(alloc: Global, con: Code, value: &Value) -> Result<Option<Ask>, AllocError>
    ensures { IfOk result (λ found. option_map ask_seen found ≡ draw_in con (view value.now)) }
{
    let Some(edition) = number_under(value, "edition") else {
        return Ok(None);
    };
    let Some(order) = codes_under(alloc, value, "order")? else {
        return Ok(None);
    };
    Ok(Some(Ask::Draw {
        con,
        edition,
        order,
    }))
}

#[tactic(auto, unfolding(crate::specs::Bodies::certify_in))]
fn certify(con: Code, value: &Value) -> Option<Ask>
    ensures { option_map ask_seen result ≡ certify_in con (view value.now) }
{
    let edition = number_under(value, "edition")?;
    Some(Ask::Certify { con, edition })
}

#[tactic(auto, unfolding(crate::specs::Bodies::reopen_in))]
fn reopen(alloc: Global, con: Code, value: &Value) -> Result<Option<Ask>, AllocError>
    ensures { IfOk result (λ found. option_map ask_seen found ≡ reopen_in con (view value.now)) }
{
    let Some(edition) = number_under(value, "edition") else {
        return Ok(None);
    };
    let Some(note) = note_in(alloc, value)? else {
        return Ok(None);
    };
    Ok(Some(Ask::Reopen { con, edition, note }))
}

#[tactic(auto, unfolding(crate::specs::Bodies::vacate_in))]
fn vacate(alloc: Global, con: Code, value: &Value) -> Result<Option<Ask>, AllocError>
    ensures { IfOk result (λ found. option_map ask_seen found ≡ vacate_in con (view value.now)) }
{
    let Some(list) = code_under(value, "list") else {
        return Ok(None);
    };
    let Some(place) = number_under(value, "place") else {
        return Ok(None);
    };
    let Some(note) = note_in(alloc, value)? else {
        return Ok(None);
    };
    Ok(Some(Ask::Vacate {
        con,
        list,
        place,
        note,
    }))
}

/// The command on a station that a JSON value is.
fn station_command(
    alloc: Global,
    command: StationCommand,
    station: Code,
    value: &Value,
) -> Result<Option<Ask>, AllocError>
    ensures { IfOk result
        (λ found. option_map ask_seen found ≡ station_command command station (view value.now)) }
{
    match command {
        StationCommand::Lodge => lodge(alloc, station, value),
        StationCommand::Query => query(alloc, station, value),
        StationCommand::Correct => correct(alloc, station, value),
        StationCommand::Close => Ok(close(station, value)),
        StationCommand::Confirm => confirm(alloc, station, value),
    }
}

/// The command on a constituency that a JSON value is.
fn con_command(
    alloc: Global,
    command: ConCommand,
    con: Code,
    value: &Value,
) -> Result<Option<Ask>, AllocError>
    ensures { IfOk result
        (λ found. option_map ask_seen found ≡ con_command command con (view value.now)) }
{
    match command {
        ConCommand::Draw => draw(alloc, con, value),
        ConCommand::Certify => Ok(certify(con, value)),
        ConCommand::Reopen => reopen(alloc, con, value),
        ConCommand::Vacate => vacate(alloc, con, value),
    }
}

/// The command on the station of this code that a body is. None is a bad body.
pub fn ask_on_station(
    alloc: Global,
    command: StationCommand,
    station: Code,
    body: &[u8],
) -> Result<Option<Ask>, AllocError>
    ensures { IfOk result (λ ask.
        IsCommand (station_command command station) body.now (option_map ask_seen ask)) }
{
    match value_of(alloc, body)? {
        Some(value) => station_command(alloc, command, station, &value),
        None => Ok(None),
    }
}

/// The command on the constituency of this code that a body is. None is a bad body.
pub fn ask_on_con(
    alloc: Global,
    command: ConCommand,
    con: Code,
    body: &[u8],
) -> Result<Option<Ask>, AllocError>
    ensures { IfOk result (λ ask.
        IsCommand (con_command command con) body.now (option_map ask_seen ask)) }
{
    match value_of(alloc, body)? {
        Some(value) => con_command(alloc, command, con, &value),
        None => Ok(None),
    }
}
