//! Reading a setup.

ghost use Rattle.std.specs.Prelude.{◌≡◌, ◌+◌, ◌≤◌, ◌++◌, ◌^◌, Ok, IfOk, IfErr, length};
ghost use Rattle.toml.specs.View.{view};
ghost use Rattle.tally_rules.specs.Fault.{IsFaultIn, IsPlacedFaultIn};
ghost use Rattle.tally_rules.specs.Place.{IsPlaceIn, place_after};
ghost use Rattle.tally_rules.specs.internal.Found.{IsNoDocument, IsPlacedIn};
ghost use Rattle.tally_rules.specs.Reading.{read_constituencies, document_of, setup_of};
ghost use Rattle.tally_rules.specs.Reading.{setup_of_text};
ghost use Rattle.tally_rules.specs.declared.fault.SetupFault.TheVariants.{NotToml};

mod entry;
mod fault;
mod key;
mod profile;

use crate::fault::SetupFault;
use crate::place::Place;
use entry::{Kind, constituency_entry, read_array};
use fault::{Key, KeyFault, PlacedFault};
use profile::{Profiles, read_profiles};
use std::alloc::Global;
use std::str;
use tally_setup::{Codes, MOST_CONSTITUENCIES, Setup};
use toml::Value;

/// The most bytes that a setup's text has, 8 MiB.
const TEXT_LIMIT: usize = 8_388_608;

/// Reads a setup from its text, or answers the text's first fault, in the order of the format:
/// the length, TOML, the profiles with their keys, and the constituencies with their keys, lists
/// and stations. Keys that the format does not have are passed over.
pub fn read_setup(alloc: Global, text: &[u8]) -> Result<Setup, SetupFault>
    ensures setup { IfOk result (λ setup. setup_of_text text.now ≡ Ok setup) }
    ensures fault { IfErr result (IsFaultIn (setup_of_text text.now)) }
{
    match read_setup_placed(alloc, text) {
        Ok(setup) => Ok(setup),
        Err((fault, _)) => Err(fault),
    }
}

/// As `read_setup`, and beside the fault its place: of a text that is not TOML the line and the
/// column, of any other fault the entry that has it. A text over the limit, a fault of the arrays
/// of profiles and of constituencies themselves, and being out of memory have no place.
#[tactic(auto, unfolding(crate::specs::Reading::setup_of_text))]
pub fn read_setup_placed(alloc: Global, text: &[u8]) -> Result<Setup, (SetupFault, Option<Place>)>
    ensures setup { IfOk result (λ setup. setup_of_text text.now ≡ Ok setup) }
    ensures fault { IfErr result (IsPlacedFaultIn (setup_of_text text.now)) }
    ensures not_toml { IfErr result (λ e. e.0 ≡ NotToml → IsPlaceIn text.now e.1) }
{
    if text.len() > TEXT_LIMIT {
        return Err((SetupFault::OverLimit("text"), None));
    }
    let document = match document_of(alloc, text) {
        Ok(document) => document,
        Err(TextFault::NotToml(offset)) => {
            return Err((SetupFault::NotToml, Some(place_after(&text[..offset]))));
        }
        Err(TextFault::Memory) => return Err((SetupFault::Memory, None)),
    };
    match setup_of(alloc, &document) {
        Ok(setup) => Ok(setup),
        Err(
            PlacedFault {
                fault: KeyFault::Memory,
                place: _,
            },
        ) => Err((SetupFault::Memory, None)),
        Err(PlacedFault { fault, place }) => Err((fault.named(), place)),
    }
}

/// Why a text has no table.
#[derive(Clone, Copy)]
enum TextFault {
    /// It is not TOML from this byte on, from 0.
    NotToml(usize),
    Memory,
}

/// The table that the text is in TOML.
#[tactic(auto, unfolding(crate::specs::Reading::document_of))]
fn document_of(alloc: Global, text: &[u8]) -> Result<Value, TextFault>
    ensures document { IfOk result (λ document. document_of text.now ≡ Ok (view document)) }
    ensures fault { IfErr result (IsNoDocument text.now) }
{
    let text = match str::from_utf8(text) {
        Ok(text) => text,
        Err(fault) => return Err(TextFault::NotToml(fault.valid_up_to())),
    };
    match toml::table_from_str(alloc, text) {
        Ok(table) => Ok(Value::Table(table)),
        Err(fault) => match fault.span() {
            Some(span) => Err(TextFault::NotToml(span.start)),
            None => Err(TextFault::Memory),
        },
    }
}

/// The place after these bytes of a text.
fn place_after(before: &[u8]) -> Place
    ensures { result ≡ place_after 1 1 before.now }
{
    let mut line = 1;
    let mut column = 1;
    for byte in before {
        if *byte == b'\n' {
            line += 1;
            column = 1;
        } else {
            column += 1;
        }
    }
    Place::Text(line, column)
}

#[tactic(auto, unfolding(crate::specs::Reading::setup_of))]
fn setup_of(alloc: Global, document: &Value) -> Result<Setup, PlacedFault>
    ensures setup { IfOk result (λ setup. setup_of (view document.now) ≡ Ok setup) }
    ensures fault { IfErr result (IsPlacedIn (setup_of (view document.now))) }
{
    let profiles = read_profiles(alloc, document)?;
    read_constituencies(alloc, document, &profiles)
}

/// The constituencies of a setup's text.
#[tactic(auto, unfolding(crate::specs::Reading::read_constituencies))]
fn read_constituencies(
    alloc: Global,
    document: &Value,
    profiles: &Profiles,
) -> Result<Setup, PlacedFault>
    ensures setup { IfOk result (λ setup.
        read_constituencies profiles.now (view document.now) ≡ Ok setup) }
    ensures fault { IfErr result
        (IsPlacedIn (read_constituencies profiles.now (view document.now))) }
{
    let limit = MOST_CONSTITUENCIES;
    let entries = read_array(document, Key::Constituency, Kind::Table, limit)?;
    let mut cons = Vec::with_capacity(alloc, entries.len())?;
    let mut codes = Codes::new(alloc);
    let mut stations = Codes::new(alloc);
    for con in entries {
        let con = constituency_entry(alloc, con, profiles, &cons, &mut codes, &mut stations)?;
        cons.push_reserved(con);
    }
    Ok(Setup::new(alloc, cons, codes, stations)?)
}
