//! Lots.

ghost use Rattle.std.specs.Prelude.{◌≡◌, ℕ, ◌+◌, ◌<◌, ◌↔◌, ◌==◌, IsTrue, false, length};
ghost use Rattle.std.specs.Prelude.{slice_index, slice_index_or, if◌then◌else◌};
ghost use Rattle.tally_frac.specs.Limits.{most_lists};
ghost use Rattle.tally_law.specs.Lot as spec;
ghost use Rattle.tally_allot_award.specs.internal.Pairs.{turns};

use tally_frac::{ListSet, MOST_LISTS};
use tally_setup::LotRule;

/// The places of the lists, by their numbers from 0: in the lot where the lot names them, and else
/// in the setup.
pub(crate) fn places_under(lot: &[u32]) -> [usize; MOST_LISTS]
    ensures { (l : ℕ) → l < most_lists → slice_index result l ≡ spec.place_of lot.now l }
{
    let mut places = places_in_setup();
    // From the end, so that the first of several entries for one list stays.
    for i in (0..lot.len()).rev() {
        put_entry(&mut places, lot, i);
    }
    places
}

/// Puts in the place of the list that the lot names at an index.
fn put_entry(places: &mut [usize; MOST_LISTS], lot: &[u32], index: usize)
    requires { index < length lot.now }
    ensures { (l : ℕ) → l < most_lists → slice_index places.new l ≡
        if slice_index lot.now index == l + 1 then index + 1 else slice_index places.old l }
{
    let place = lot[index] as usize;
    if place >= 1 && place <= MOST_LISTS {
        places[place - 1] = index + 1;
    }
}

/// The lists whose places are counted from the last for even seats: those that the lot names, where
/// lots alternate.
pub(crate) fn turning_under(lot_rule: LotRule, lot: &[u32]) -> ListSet
    ensures { (l : ℕ) → l < most_lists →
        slice_index_or result l false ≡ turns lot_rule lot.now l }
{
    match lot_rule {
        LotRule::Fixed => ListSet::empty(),
        LotRule::Alternating => named_in(lot),
    }
}

fn named_in(lot: &[u32]) -> ListSet
    ensures { (l : ℕ) → l < most_lists →
        slice_index_or result l false ≡ spec.is_named lot.now l }
{
    let mut named = ListSet::empty();
    for place in lot {
        if *place >= 1 && *place as usize <= MOST_LISTS {
            named.insert(*place as usize - 1);
        }
    }
    named
}

fn places_in_setup() -> [usize; MOST_LISTS]
    ensures { (l : ℕ) → l < most_lists → slice_index result l ≡ l + 1 }
{
    let mut places = [0; MOST_LISTS];
    for list in 0..MOST_LISTS {
        places[list] = list + 1;
    }
    places
}

/// Whether a lot names each list of a group once, and no other.
pub fn is_order_of(group: &ListSet, lot: &[u32]) -> bool
    ensures { IsTrue result ↔ spec.IsOrderOf group.now lot.now }
{
    let mut left = *group;
    for i in 0..lot.len() {
        // A list that the lot named before is no longer there.
        if !left.strike(lot[i]) {
            return false;
        }
    }
    left.is_empty()
}
