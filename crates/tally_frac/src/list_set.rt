//! Sets of lists.

ghost use Rattle.std.specs.Prelude.{◌≡◌, ℕ, ◌-◌, ◌<◌, ◌↔◌, IsTrue, List, Bool, false, true};
ghost use Rattle.std.specs.Prelude.{length, replicate, slice_index_or, slice_set};
ghost use Rattle.tally_frac.specs.Limits.{most_lists};
ghost use Rattle.tally_frac.specs.ListSet.{has_place};

use crate::limits::MOST_LISTS;
use std::marker::Model;

/// A set of lists, by their places from 1 to 60. Contracts see it as one mark for each of the 60
/// places.
#[derive(Clone, Copy, Debug, PartialEq, Eq)]
pub struct ListSet {
    marks: [bool; MOST_LISTS],
}

impl Model for ListSet {
    ghost use Rattle.std.specs.Prelude.{◌≡◌, List, Bool, length};
    ghost use Rattle.tally_frac.specs.Limits.{most_lists};

    ghost Value = { List Bool };

    ghost view = { λ set. set.marks };

    ghost invariant = { λ set. length set.marks ≡ most_lists };

    ghost inverse = { λ marks. record { marks = marks } };
}

impl ListSet {
    /// Whether the list at a place, counted from 1, is in the set.
    pub fn has(&self, place: u32) -> bool
        ensures { result ≡ has_place self.now place }
    {
        let marks = &self.marks;
        if place < 1 || place as usize > MOST_LISTS {
            return false;
        }
        marks[place as usize - 1]
    }

    /// The empty set.
    pub fn empty() -> ListSet
        ensures { result ≡ replicate most_lists false }
    {
        ListSet {
            marks: [false; MOST_LISTS],
        }
    }

    /// How many lists a set may have, 60.
    pub fn limit(&self) -> usize
        ensures marks { result ≡ length self.now }
        ensures limit { result ≡ most_lists }
    {
        let marks = &self.marks;
        marks.len()
    }

    /// Whether a list, by its number from 0, is in the set.
    pub fn has_list(&self, list: usize) -> bool
        requires { list < most_lists }
        ensures { result ≡ slice_index_or self.now list false }
    {
        self.marks[list]
    }

    /// Takes the list at a place, counted from 1, out of the set: whether it was there.
    pub fn strike(&mut self, place: u32) -> bool
        ensures had { result ≡ has_place self.old place }
        ensures struck { IsTrue result → self.new ≡ slice_set self.old (place - 1) false }
        ensures kept { result ≡ false → self.new ≡ self.old }
    {
        let marks = &self.marks;
        if place < 1 || place as usize > MOST_LISTS {
            return false;
        }
        let list = place as usize - 1;
        if !marks[list] {
            return false;
        }
        self.marks[list] = false;
        true
    }

    /// Whether no list is in the set.
    pub fn is_empty(&self) -> bool
        ensures { IsTrue result ↔ ((l : ℕ) → slice_index_or self.now l false ≡ false) }
    {
        are_clear(&self.marks)
    }

    /// Puts a list, by its number from 0, into the set.
    pub fn insert(&mut self, list: usize)
        requires { list < most_lists }
        ensures { self.new ≡ slice_set self.old list true }
    {
        self.marks[list] = true;
    }
}

fn are_clear(marks: &[bool]) -> bool
    ensures { IsTrue result ↔ ((l : ℕ) → slice_index_or marks.now l false ≡ false) }
{
    for list in 0..marks.len() {
        if marks[list] {
            return false;
        }
    }
    true
}
