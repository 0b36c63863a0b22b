//! Codes that differ, in order.

ghost use Rattle.std.specs.Prelude.{◌≡◌, ◌<◌, [], ◌∷◌, ◌++◌, ◌^◌, length, not, IfOk, IfSome};
ghost use Rattle.std.specs.Prelude.{if◌then◌else◌};
ghost use Rattle.tally_setup.specs.Codes.{is_among_codes, index_of, AreDistinct};

use crate::code::Code;
use std::alloc::{AllocError, Global};
use std::collections::HashMap;
use std::marker::Model;

/// Codes in order, no two of them the same, of which each is found by its hash. Contracts
/// see the list of the codes.
#[derive(Drop)]
pub struct Codes {
    codes: Vec<Code>,
    places: HashMap<Code, usize>,
}

impl Model for Codes {
    ghost use Rattle.std.specs.Prelude.{ℕ, List};
    ghost use Rattle.tally_setup.specs.internal.Index.{IsIndex};

    ghost Value = { List (List ℕ) };

    ghost view = { λ c. c.codes.items };

    ghost invariant = { λ c. IsIndex c.codes.items c.places };
}

impl Codes {
    /// No codes.
    pub fn new(alloc: Global) -> Codes
        ensures { result ≡ [] }
    {
        Codes {
            codes: Vec::new(alloc),
            places: HashMap::new(alloc),
        }
    }

    /// Adds a code at the end, unless it is there already, and says whether it did.
    pub fn insert(&mut self, code: Code) -> Result<bool, AllocError>
        ensures added { IfOk result (λ added. added ≡ not (is_among_codes code self.old)) }
        ensures codes { IfOk result (λ added.
            self.new ≡ (if added then self.old ++ code ∷ [] else self.old)) }
        ensures distinct { AreDistinct self.new }
    {
        if self.places.contains_key(&code) {
            return Ok(false);
        }
        // Room first, so that no code is in the one and not in the other.
        self.codes.reserve(1)?;
        self.places.insert(code, self.codes.len())?;
        self.codes.push(code)?;
        Ok(true)
    }

    /// How many there are.
    pub fn len(&self) -> usize
        ensures count { result ≡ length self.now }
        ensures bound { result < 2 ^ 63 }
    {
        self.codes.len()
    }

    /// The place of a code, from 0.
    pub fn index_of(&self, code: Code) -> Option<usize>
        ensures place { result ≡ index_of code self.now }
        ensures bound { IfSome result (λ place. place < 2 ^ 63) }
    {
        // Called for what its contract says: a place fits a number.
        let _count = self.len();
        self.places.get(&code).copied()
    }
}
