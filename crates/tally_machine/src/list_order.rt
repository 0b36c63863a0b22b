//! The lists that codes name, and the order of a lot.

ghost use Rattle.std.specs.Prelude.{◌≡◌, ◌≤◌, ℕ, false, IfOk, option_map, slice_index_or};
ghost use Rattle.std.specs.List.{list_all};
ghost use Rattle.tally_frac.specs.ListSet.{has_place};
ghost use Rattle.tally_machine_law.specs.Certification.{are_distinct, list_found, list_places};
ghost use Rattle.tally_machine_law.specs.Certification.{marked_places_from, names_group};
ghost use Rattle.tally_machine_law.specs.Holders.{is_among};

use std::alloc::{AllocError, Global};
use std::marker::Model;
use tally_frac::ListSet;
use tally_setup::{Code, Constituency};

/// A list: its place in the constituency, from 1, and how many candidates it has.
#[derive(Drop)]
pub(crate) struct Found {
    pub(crate) place: u32,
    pub(crate) candidates: u32,
}

impl Model for Found {
    ghost use Rattle.tally_machine_law.specs.Certification.{ListFound};

    ghost Value = { ListFound };

    ghost view = { λ found. record { place = found.place; candidates = found.candidates } };
}

/// The list of a code.
pub(crate) fn list_found(con: &Constituency, code: Code) -> Option<Found>
    ensures { result ≡ list_found con.now code }
{
    for (index, list) in con.lists.iter().enumerate() {
        if code == list.code {
            return Some(Found {
                place: index as u32 + 1,
                candidates: list.candidates.len() as u32,
            });
        }
    }
    None
}

/// The places of the lists of these codes, where each is one.
pub(crate) fn list_places(
    alloc: Global,
    con: &Constituency,
    order: &[Code],
) -> Result<Option<Vec<u32>>, AllocError>
    ensures { IfOk result (λ places.
        list_places con.now order.now ≡ option_map (λ found. found.items) places) }
{
    let mut places = Vec::new(alloc);
    for code in order {
        let Some(found) = list_found(con, *code) else {
            return Ok(None);
        };
        places.push(found.place)?;
    }
    Ok(Some(places))
}

/// Whether places name each list of the group once, and no other, where there are this many lists.
pub(crate) fn names_group(lists: u32, group: &ListSet, places: &[u32]) -> bool
    requires { (l : ℕ) → lists ≤ l → slice_index_or group.now l false ≡ false }
    ensures { result ≡ names_group group.now places.now }
{
    names_no_other(group, places) && are_distinct(places) && names_all(lists, group, places)
}

fn names_no_other(group: &ListSet, places: &[u32]) -> bool
    ensures { result ≡ list_all (has_place group.now) places.now }
{
    places.iter().all(|place| group.has(*place))
}

fn are_distinct(places: &[u32]) -> bool
    ensures { result ≡ are_distinct places.now }
{
    for (index, place) in places.iter().enumerate() {
        if places[index + 1..].contains(place) {
            return false;
        }
    }
    true
}

fn names_all(lists: u32, group: &ListSet, places: &[u32]) -> bool
    requires { (l : ℕ) → lists ≤ l → slice_index_or group.now l false ≡ false }
    ensures { result ≡
        list_all (λ place. is_among place places.now) (marked_places_from 1 group.now) }
{
    for list in 0..lists {
        if group.has(list + 1) && !places.contains(&(list + 1)) {
            return false;
        }
    }
    true
}
