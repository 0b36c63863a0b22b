//! Who holds the seats.

ghost use Rattle.std.specs.Prelude.{◌≡◌, ℕ, ◌<◌, ◌≤◌, ◌++◌, IfOk, OnOk, [], length, map, replicate};
ghost use Rattle.std.specs.Prelude.{slice_index, slice_index_or, string_bytes};
ghost use Rattle.std.specs.List.{flat_map, repeat};
ghost use Rattle.tally_machine_law.specs.Holders.{holders};
ghost use Rattle.tally_returns.specs.View.{FitsView};
ghost use Rattle.tally_report.specs.Fault.{IsRefused, seats_fault};
ghost use Rattle.tally_report_lines.specs.Columns.{list_lines};
ghost use Rattle.tally_report.specs.internal.GoneByList.{AreByList, IsOneMore};
ghost use Rattle.tally_report.specs.HoldersText.{empty_line, holder_line, holder_lines};
ghost use Rattle.tally_report.specs.HoldersText.{holders_text, seat_lines};

use crate::fault::ReportFault;
use std::alloc::{AllocError, Global};
use tally_machine::holders;
use tally_report_lines::{CODE_WIDTH, push_heading, push_left, push_number};
use tally_returns::ConView;
use tally_setup::{Constituency, ListEntry};

/// The candidate who holds each seat of a certified constituency, and the seats that are empty
/// because their list has no more candidates (LOREG articles 163.1 e) and 164.1).
pub fn holders_text(
    alloc: Global,
    con: &Constituency,
    view: &ConView,
) -> Result<String, ReportFault>
    requires { FitsView con.now view.now }
    ensures text { IfOk result (λ text. string_bytes text ≡ holders_text con.now view.now) }
    ensures fault { IsRefused (seats_fault view.now) result }
{
    if !view.certified {
        return Err(ReportFault::NotCertified);
    }
    let mut text = String::new(alloc);
    push_heading(&mut text, "HOLDERS", con)?;
    push_lists(alloc, &mut text, con, view)?;
    Ok(text)
}

fn push_lists(
    alloc: Global,
    text: &mut String,
    con: &Constituency,
    view: &ConView,
) -> Result<(), AllocError>
    requires { length view.now.seats ≡ length con.now.lists }
    ensures { OnOk result (string_bytes text.new
        ≡ string_bytes text.old ++ list_lines (holder_lines view.now) con.now) }
{
    let gone = gone_by_list(alloc, view, view.seats.len())?;
    for (place, list) in con.lists.iter().enumerate() {
        push_list(alloc, text, view, place, list, &gone)?;
    }
    Ok(())
}

#[tactic(auto, using(crate::proofs::GoneLemmas::gone_at))]
fn push_list(
    alloc: Global,
    text: &mut String,
    view: &ConView,
    place: usize,
    list: &ListEntry,
    gone: &[Vec<u32>],
) -> Result<(), AllocError>
    requires seats { place < length view.now.seats }
    requires gone { AreByList view.now.gone (length view.now.seats)
        (map (λ places. places.items) gone.now) }
    ensures { OnOk result (string_bytes text.new
        ≡ string_bytes text.old ++ holder_lines view.now place list.now) }
{
    let gone = places_at(gone, place);
    push_seats(alloc, text, list, view.seats[place], gone)
}

/// The lines of a list of this many seats, of whose candidates those at these places are gone.
fn push_seats(
    alloc: Global,
    text: &mut String,
    list: &ListEntry,
    seats: u32,
    gone: &[u32],
) -> Result<(), AllocError>
    ensures { OnOk result (string_bytes text.new
        ≡ string_bytes text.old
        ++ seat_lines list.now seats (holders (length list.now.candidates) seats gone.now)) }
{
    let held = holders(alloc, list.candidates.len() as u32, seats, gone)?;
    push_held(text, list, &held)?;
    push_empty(text, list, (seats as usize).saturating_sub(held.len()))
}

/// The places of the candidates who are gone, those of each of this many lists, in one pass over
/// them.
pub fn gone_by_list(
    alloc: Global,
    view: &ConView,
    lists: usize,
) -> Result<Vec<Vec<u32>>, AllocError>
    ensures { IfOk result (λ gone.
        AreByList view.now.gone lists (map (λ places. places.items) gone.items)) }
{
    let mut gone = nobody(alloc, lists)?;
    for candidate in &view.gone {
        add_gone(&mut gone, candidate.list, candidate.place)?;
    }
    Ok(gone)
}

/// No place for each of this many lists.
fn nobody(alloc: Global, lists: usize) -> Result<Vec<Vec<u32>>, AllocError>
    ensures { IfOk result (λ gone.
        map (λ places. places.items) gone.items ≡ replicate lists []) }
{
    let mut gone = Vec::with_capacity(alloc, lists)?;
    for _ in 0..lists {
        gone.push(Vec::new(alloc))?;
    }
    Ok(gone)
}

/// One more place, of the list that is counted from 1. There are no places here of another list.
#[tactic(auto, using(crate::proofs::GoneLemmas::not_listed))]
fn add_gone(gone: &mut Vec<Vec<u32>>, list: u32, place: u32) -> Result<(), AllocError>
    ensures { OnOk result (IsOneMore list place
        (map (λ places. places.items) gone.old.items)
        (map (λ places. places.items) gone.new.items)) }
{
    if list == 0 || list as usize > gone.len() {
        return Ok(());
    }
    gone[list as usize - 1].push(place)?;
    Ok(())
}

/// The places of the list at a place, from 0.
pub fn places_at(gone: &[Vec<u32>], place: usize) -> &[u32]
    requires { place < length (map (λ places. places.items) gone.now) }
    ensures { result.now ≡ slice_index_or (map (λ places. places.items) gone.now) place [] }
{
    gone[place].as_slice()
}

/// The lines of those who hold seats.
fn push_held(text: &mut String, list: &ListEntry, held: &[u32]) -> Result<(), AllocError>
    requires from_one { (i : ℕ) → i < length held.now → 1 ≤ slice_index held.now i }
    requires candidates { (i : ℕ) → i < length held.now
        → slice_index held.now i ≤ length list.now.candidates }
    ensures { OnOk result (string_bytes text.new
        ≡ string_bytes text.old ++ flat_map (holder_line list.now) held.now) }
{
    for place in held {
        push_holder(text, list, *place)?;
    }
    Ok(())
}

fn push_holder(text: &mut String, list: &ListEntry, place: u32) -> Result<(), AllocError>
    requires from_one { 1 ≤ place }
    requires candidate { place ≤ length list.now.candidates }
    ensures { OnOk result (string_bytes text.new
        ≡ string_bytes text.old ++ holder_line list.now place) }
{
    push_left(text, list.code.as_str(), CODE_WIDTH)?;
    push_number(text, u64::from(place), 5)?;
    let name = list.candidates[place as usize - 1].as_str();
    writeln!(text, " {name}")
}

/// The lines of the seats that are empty.
fn push_empty(text: &mut String, list: &ListEntry, seats: usize) -> Result<(), AllocError>
    ensures { OnOk result (string_bytes text.new
        ≡ string_bytes text.old ++ repeat seats (empty_line list.now)) }
{
    for _ in 0..seats {
        push_empty_seat(text, list)?;
    }
    Ok(())
}

fn push_empty_seat(text: &mut String, list: &ListEntry) -> Result<(), AllocError>
    ensures { OnOk result (string_bytes text.new ≡ string_bytes text.old ++ empty_line list.now) }
{
    push_left(text, list.code.as_str(), CODE_WIDTH)?;
    text.push_str("    - empty\n")
}
