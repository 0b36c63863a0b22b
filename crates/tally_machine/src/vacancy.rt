//! What is decided of a Vacate.

ghost use Rattle.std.specs.Prelude.{◌≡◌, ◌≢◌, ◌≤◌, ◌∷◌, Ok, Err, IfOk, IfErr, length};
ghost use Rattle.tally_machine_law.specs.Certification.{gone_of, holders_of, vacate_result};
ghost use Rattle.tally_machine_law.specs.Holders.{newcomer};
ghost use Rattle.tally_returns.specs.View.{FitsView};
ghost use Rattle.tally_returns.specs.declared.refusal.Refusal.TheVariants.{Memory};

use crate::list_order::{Found, list_found};
use crate::seat_holders::{holders, newcomer};
use std::alloc::{AllocError, Global};
use tally_returns::{ConView, Gone, Refusal};
use tally_setup::{Code, Constituency, good_note};

/// A seat that was left.
#[derive(Drop)]
pub struct Vacancy {
    /// The candidate who left it.
    pub gone: Gone,
    /// The place of the candidate who now moves in, from 1, or `None` where the seat stays empty.
    pub next: Option<u32>,
}

/// The consequence where the candidate at this place of the list, from 1, is gone for good: who is
/// gone and who moves in, or why this is refused.
pub fn vacate(
    alloc: Global,
    con: &Constituency,
    view: &ConView,
    list: Code,
    place: u32,
    note: &str,
) -> Result<Vacancy, Refusal>
    requires { FitsView con.now view.now }
    ensures vacated { IfOk result (λ v.
        vacate_result con.now view.now list place note.now ≡ Ok (v.gone, v.next)) }
    ensures refused { IfErr result (λ e.
        e ≢ Memory → vacate_result con.now view.now list place note.now ≡ Err e) }
{
    let Some(found) = list_found(con, list) else {
        return Err(Refusal::NoCandidate);
    };
    if place < 1 || place > found.candidates {
        return Err(Refusal::NoCandidate);
    }
    if !good_note(note) {
        return Err(Refusal::BadNote);
    }
    if !view.certified {
        return Err(Refusal::NotCertified);
    }
    let gone = gone_of(alloc, view, found.place)?;
    if gone.contains(&place) {
        return Err(Refusal::AlreadyGone);
    }
    let before = holders_of(alloc, view, &found, &gone)?;
    if !before.contains(&place) {
        return Err(Refusal::NotHolder);
    }
    let next = next_holder(alloc, view, &found, gone, &before, place)?;
    let note = String::from_str(alloc, note)?;
    let list = found.place;
    Ok(Vacancy {
        gone: Gone { list, place, note },
        next,
    })
}

/// The places of the candidates of a list who are gone.
fn gone_of(alloc: Global, view: &ConView, list: u32) -> Result<Vec<u32>, AllocError>
    ensures { IfOk result (λ places. places.items ≡ gone_of view.now list) }
{
    let mut places = Vec::new(alloc);
    for candidate in &view.gone {
        if candidate.list == list {
            places.push(candidate.place)?;
        }
    }
    Ok(places)
}

/// The places of the candidates who hold the seats of the list, where these are gone.
fn holders_of(
    alloc: Global,
    view: &ConView,
    list: &Found,
    gone: &[u32],
) -> Result<Vec<u32>, AllocError>
    requires place { 1 ≤ list.now.place }
    requires seats { list.now.place ≤ length view.now.seats }
    ensures { IfOk result (λ places. places.items ≡ holders_of view.now list.now gone.now) }
{
    let seats = view.seats[list.place as usize - 1];
    holders(alloc, list.candidates, seats, gone)
}

/// The one who moves in where the candidate at this place goes too.
fn next_holder(
    alloc: Global,
    view: &ConView,
    list: &Found,
    gone: Vec<u32>,
    before: &[u32],
    place: u32,
) -> Result<Option<u32>, AllocError>
    requires place { 1 ≤ list.now.place }
    requires seats { list.now.place ≤ length view.now.seats }
    ensures { IfOk result (λ next.
        next ≡ newcomer before.now (holders_of view.now list.now (place ∷ gone.items))) }
{
    let mut gone = gone;
    gone.push(place)?;
    let after = holders_of(alloc, view, list, &gone)?;
    Ok(newcomer(before, &after))
}
