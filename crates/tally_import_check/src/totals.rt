//! The totals of returns.

ghost use Rattle.std.specs.Prelude.{◌≡◌, ◌+◌, ◌<◌, ◌^◌, ℕ, true, [], ◌∷◌, length, slice_index};
ghost use Rattle.std.specs.Prelude.{IfOk};
ghost use Rattle.tally_returns.specs.Counts.{are_counts};
ghost use Rattle.tally_import_check.specs.internal.Totals.{AreTotals, AreTotalsOfFew, TotalsRise};

use std::alloc::{AllocError, Global};
use tally_returns::Counts;

/// The votes for each list, the blank votes and the spoiled ones of returns, together.
#[derive(Drop)]
pub(crate) struct Totals {
    pub(crate) votes: Vec<u64>,
    pub(crate) blank: u64,
    pub(crate) spoiled: u64,
}

/// The totals of no return.
pub(crate) fn no_totals(alloc: Global, lists: usize) -> Result<Totals, AllocError>
    ensures { IfOk result (λ totals. AreTotals lists [] totals) }
{
    Ok(Totals {
        votes: vec![in alloc; 0; lists]?,
        blank: 0,
        spoiled: 0,
    })
}

/// Adds a return to the totals of others.
pub(crate) fn add_return(totals: &mut Totals, counts: &Counts)
    requires totals { AreTotalsOfFew (length counts.now.votes) totals.old }
    requires counts { are_counts (length counts.now.votes) counts.now ≡ true }
    ensures { TotalsRise (length counts.now.votes) totals.old (counts.now ∷ []) totals.new }
{
    add_votes(totals.votes.as_mut_slice(), counts.votes.as_slice());
    totals.blank += u64::from(counts.blank);
    totals.spoiled += u64::from(counts.spoiled);
}

/// Adds votes to the totals of the same lists.
fn add_votes(totals: &mut [u64], votes: &[u32])
    requires same { length totals.old ≡ length votes.now }
    requires room { (place : ℕ)
        → slice_index totals.old place + slice_index votes.now place < 2 ^ 64 }
    ensures { (place : ℕ) → slice_index totals.new place
        ≡ slice_index totals.old place + slice_index votes.now place }
{
    for place in 0..totals.len() {
        totals[place] += u64::from(votes[place]);
    }
}
