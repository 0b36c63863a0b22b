//! Faults, as they are passed on within the reading.

ghost use Rattle.std.specs.Prelude.{◌≡◌, ◌≢◌, Ok, Err, None, Option, Some, IfOk, IfErr};
ghost use Rattle.tally_rules.specs.Fault.{IsPlacedFaultIn};
ghost use Rattle.tally_rules.specs.Reading.{Reading};
ghost use Rattle.tally_rules.specs.internal.Found.{key_name, IsFoundAt};
ghost use Rattle.tally_rules.specs.declared.read.fault.KeyFault.TheVariants.{Memory};
ghost use Rattle.tally_rules.specs.declared.place.Place.{Place};
ghost use Rattle.tally_rules.specs.declared.place.Place.TheVariants.{Entry};
ghost use Rattle.tally_rules.specs.declared.fault.SetupFault.TheVariants.{NotToml};

use crate::fault::SetupFault;
use crate::place::{Place, Way};
use std::alloc::{AllocError, AllocFailed};
use tally_setup::Code;

/// The keys of a setup.
#[derive(Clone, Copy)]
pub(super) enum Key {
    Profile,
    Code,
    Method,
    Threshold,
    Base,
    Lot,
    Constituency,
    Name,
    Seats,
    Entry,
    Size,
    List,
    Candidates,
    Station,
    Electors,
    Agents,
}

impl Key {
    /// The key's own name.
    pub fn name(self) -> &'static str
        ensures { result.now ≡ key_name self }
    {
        match self {
            Key::Profile => "profile",
            Key::Code => "code",
            Key::Method => "method",
            Key::Threshold => "threshold",
            Key::Base => "base",
            Key::Lot => "lot",
            Key::Constituency => "constituency",
            Key::Name => "name",
            Key::Seats => "seats",
            Key::Entry => "entry",
            Key::Size => "size",
            Key::List => "list",
            Key::Candidates => "candidates",
            Key::Station => "station",
            Key::Electors => "electors",
            Key::Agents => "agents",
        }
    }
}

/// A fault of a key or of an entry, as `SetupFault` but with the key itself in place of its name:
/// the `?` of a fault that holds a `&'static str` has no proof yet.
#[derive(Clone, Copy)]
pub(super) enum KeyFault {
    Missing(Key),
    BadValue(Key),
    OverLimit(Key),
    Duplicate(Code),
    UnknownProfile,
    Memory,
}

impl KeyFault {
    /// The fault with the names of keys.
    pub fn named(self) -> SetupFault
        ensures fault { (reading : Reading) → (place : Option Place) → self ≢ Memory
            → IsFoundAt reading place self → IsPlacedFaultIn reading (result, place) }
        ensures text { result ≢ NotToml }
    {
        match self {
            KeyFault::Missing(key) => SetupFault::Missing(key.name()),
            KeyFault::BadValue(key) => SetupFault::BadValue(key.name()),
            KeyFault::OverLimit(key) => SetupFault::OverLimit(key.name()),
            KeyFault::Duplicate(code) => SetupFault::Duplicate(code),
            KeyFault::UnknownProfile => SetupFault::UnknownProfile,
            KeyFault::Memory => SetupFault::Memory,
        }
    }
}

/// A fault with its place.
#[derive(Drop)]
pub(super) struct PlacedFault {
    pub fault: KeyFault,
    pub place: Option<Place>,
}

/// A reading of an entry, which has the fault, if there is one.
pub(super) fn in_entry<T: Drop>(way: &Way, read: Result<T, KeyFault>) -> Result<T, PlacedFault>
    ensures value { IfOk result (λ value. read ≡ Ok value) }
    ensures fault { IfErr result (λ found. read ≡ Err found.fault) }
    ensures place { IfErr result (λ found. found.place ≡ Some (Entry way.now None)) }
{
    match read {
        Ok(value) => Ok(value),
        Err(fault) => Err(PlacedFault {
            fault,
            place: Some(Place::Entry(way.copy(), None)),
        }),
    }
}

impl From<KeyFault> for PlacedFault {
    ghost from_gives = { λ fault found. found ≡ record { fault = fault; place = None } };

    fn from(fault: KeyFault) -> PlacedFault {
        PlacedFault { fault, place: None }
    }
}

impl From<AllocError> for PlacedFault {
    ghost from_gives = { λ _ found. found ≡ record { fault = Memory; place = None } };

    fn from(_refused: AllocError) -> PlacedFault {
        PlacedFault {
            fault: KeyFault::Memory,
            place: None,
        }
    }
}

impl<T: Drop> From<AllocFailed<T>> for PlacedFault {
    ghost from_gives = { λ _ found. found ≡ record { fault = Memory; place = None } };

    fn from(_refused: AllocFailed<T>) -> PlacedFault {
        PlacedFault {
            fault: KeyFault::Memory,
            place: None,
        }
    }
}

impl From<AllocError> for KeyFault {
    ghost from_gives = { λ _ fault. fault ≡ Memory };

    fn from(_refused: AllocError) -> KeyFault {
        KeyFault::Memory
    }
}
