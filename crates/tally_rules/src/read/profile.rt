//! The profiles of a setup.

ghost use Rattle.std.specs.Prelude.{◌≡◌, ◌≤◌, ◌++◌, ◌∷◌, [], Ok, IfOk, IfErr, IfSome};
ghost use Rattle.toml.specs.View.{view};
ghost use Rattle.tally_frac.specs.Limits.{whole_base};
ghost use Rattle.tally_rules.specs.Place.{coded, in_entry};
ghost use Rattle.tally_rules.specs.internal.Found.{IsFoundIn, IsPlacedIn};
ghost use Rattle.tally_rules.specs.Reading.{profile_entry, profile_with, read_profiles};
ghost use Rattle.tally_rules.specs.Reading.{rest_of_profile};
ghost use Rattle.tally_rules.specs.declared.place.SetupArray.TheVariants.{Profiles as ProfileArray};

use crate::place::{Place, SetupArray};
use crate::read::entry::{Kind, next_code, read_array};
use crate::read::fault::{Key, KeyFault, PlacedFault};
use crate::read::key::{read_base, read_lot_rule, read_method, read_number};
use std::alloc::Global;
use std::marker::Model;
use tally_frac::WHOLE_BASE;
use tally_setup::{Code, Codes, MOST_PROFILES, Profile};
use toml::Value;

/// The profiles by their codes, in order. Each threshold is at most 10,000.
#[derive(Drop)]
pub(super) struct Profiles {
    codes: Codes,
    profiles: Vec<(Code, Profile)>,
}

impl Model for Profiles {
    ghost use Rattle.std.specs.Prelude.{◌≡◌, ℕ, All, List};
    ghost use Rattle.tally_setup.specs.Limits.{IsProfile};
    ghost use Rattle.tally_rules.specs.Reading.{profile_codes};
    ghost use Rattle.tally_setup.specs.declared.profile.Profile as declared;

    ghost Value = { List (List ℕ × declared.Profile) };

    ghost view = { λ p. p.profiles.items };

    ghost invariant = { λ p. (p.codes ≡ profile_codes p.profiles.items) ×
        All (λ (p : List ℕ × declared.Profile). IsProfile p.1) p.profiles.items };
}

impl Profiles {
    /// The profile of a code.
    pub fn find(&self, code: Code) -> Option<Profile>
        ensures profile { result ≡ profile_with code self.now }
        ensures threshold { IfSome result (λ profile. profile.threshold ≤ whole_base) }
    {
        match self.profiles.get(self.codes.index_of(code)?) {
            Some((_, profile)) => Some(*profile),
            None => None,
        }
    }
}

/// The keys of an entry of `profile` beside its code.
#[tactic(auto, unfolding(crate::specs::Reading::rest_of_profile))]
fn rest_of_profile(entry: &Value) -> Result<Profile, KeyFault>
    ensures profile { IfOk result (λ profile. rest_of_profile (view entry.now) ≡ Ok profile) }
    ensures threshold { IfOk result (λ profile. profile.threshold ≤ whole_base) }
    ensures fault { IfErr result (IsFoundIn (rest_of_profile (view entry.now))) }
{
    Ok(Profile {
        method: read_method(entry)?,
        threshold: read_number(entry, Key::Threshold, 0, WHOLE_BASE)?,
        base: read_base(entry)?,
        lot: read_lot_rule(entry)?,
    })
}

/// The keys of the entry of this number and code, which has the fault, if there is one.
fn profile_of(entry: &Value, number: usize, code: Code) -> Result<(Code, Profile), PlacedFault>
    ensures code { IfOk result (λ p. p.0 ≡ code) }
    ensures profile { IfOk result (λ p.
        in_entry (coded ProfileArray number code) (rest_of_profile (view entry.now)) ≡ Ok p.1) }
    ensures threshold { IfOk result (λ p. p.1.threshold ≤ whole_base) }
    ensures fault { IfErr result (IsPlacedIn
        (in_entry (coded ProfileArray number code) (rest_of_profile (view entry.now)))) }
{
    let here = SetupArray::Profiles.coded(number, code);
    match rest_of_profile(entry) {
        Ok(profile) => Ok((code, profile)),
        Err(fault) => Err(PlacedFault {
            fault,
            place: Some(Place::Entry(here, None)),
        }),
    }
}

/// An entry of `profile`, whose code is added to those taken.
#[tactic(auto, unfolding(crate::specs::Reading::profile_entry))]
fn profile_entry(entry: &Value, taken: &mut Codes) -> Result<(Code, Profile), PlacedFault>
    ensures profile { IfOk result (λ p. profile_entry taken.old (view entry.now) ≡ Ok p) }
    ensures taken { IfOk result (λ p. taken.new ≡ taken.old ++ p.0 ∷ []) }
    ensures threshold { IfOk result (λ p. p.1.threshold ≤ whole_base) }
    ensures fault { IfErr result (IsPlacedIn (profile_entry taken.old (view entry.now))) }
{
    let number = taken.len() + 1;
    match next_code(entry, &SetupArray::Profiles, taken) {
        Ok(code) => profile_of(entry, number, code),
        Err(found) => Err(found),
    }
}

/// The profiles of a setup's text.
#[tactic(auto, unfolding(crate::specs::Reading::read_profiles))]
pub(super) fn read_profiles(alloc: Global, text: &Value) -> Result<Profiles, PlacedFault>
    ensures profiles { IfOk result (λ profiles. read_profiles (view text.now) ≡ Ok profiles) }
    ensures fault { IfErr result (IsPlacedIn (read_profiles (view text.now))) }
{
    let entries = read_array(text, Key::Profile, Kind::Table, MOST_PROFILES)?;
    let mut profiles = Vec::with_capacity(alloc, entries.len())?;
    let mut codes = Codes::new(alloc);
    for profile in entries {
        profiles.push_reserved(profile_entry(profile, &mut codes)?);
    }
    Ok(Profiles { codes, profiles })
}
