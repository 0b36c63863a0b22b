//! The stations whose return is decisive for the seats.

ghost use Rattle.std.specs.Prelude.{◌≡◌, ◌<◌, ◌≤◌, ◌↔◌, ℕ, true, IfOk, length, slice_index};
ghost use Rattle.tally_returns.specs.View.{blank_of};
ghost use Rattle.tally_report_allotment.specs.Recount.{AreReturnsOf, counted, votes_counted};
ghost use Rattle.tally_report_allotment.specs.RecountText.{AreDecisive, IsDecisive};
ghost use Rattle.tally_report_allotment.specs.internal.Counting.{votes_less};

use std::alloc::{AllocError, Global};
use tally_allot_votes::votes_allow;
use tally_returns::Counts;
use tally_setup::Constituency;

/// For each station, whether its return is counted and decisive: without it the votes would not
/// allow these seats. `votes` and `blank` are the sums over all returns that are counted.
pub(crate) fn decisive_marks(
    alloc: Global,
    con: &Constituency,
    returns: &[Option<Counts>],
    votes: &[u64],
    blank: u64,
    seats: &[u32],
) -> Result<Vec<bool>, AllocError>
    requires returns { AreReturnsOf con.now returns.now }
    requires votes { votes.now ≡ votes_counted con.now returns.now }
    requires blank { blank ≡ blank_of (counted returns.now) }
    requires seats { length seats.now ≡ length con.now.lists }
    ensures { IfOk result (λ marks. AreDecisive con.now returns.now seats.now marks.items) }
{
    let mut marks = Vec::with_capacity(alloc, returns.len())?;
    for place in 0..returns.len() {
        marks.push(is_decisive(alloc, con, returns, place, votes, blank, seats)?)?;
    }
    Ok(marks)
}

/// Whether the return of a station, by its number from 0, is counted and decisive.
fn is_decisive(
    alloc: Global,
    con: &Constituency,
    returns: &[Option<Counts>],
    place: usize,
    votes: &[u64],
    blank: u64,
    seats: &[u32],
) -> Result<bool, AllocError>
    requires returns { AreReturnsOf con.now returns.now }
    requires place { place < length returns.now }
    requires votes { votes.now ≡ votes_counted con.now returns.now }
    requires blank { blank ≡ blank_of (counted returns.now) }
    requires seats { length seats.now ≡ length con.now.lists }
    ensures { IfOk result (λ is. (is ≡ true) ↔ IsDecisive con.now returns.now seats.now place) }
{
    let Some(counts) = &returns[place] else {
        return Ok(false);
    };
    let rest = votes_less(alloc, con.lists.len(), votes, &counts.votes)?;
    let rest_blank = blank - u64::from(counts.blank);
    Ok(!votes_allow(&con.profile, con.seats, &rest, rest_blank, seats))
}

/// The votes of this many lists, less those of a return.
fn votes_less(
    alloc: Global,
    lists: usize,
    votes: &[u64],
    by: &[u32],
) -> Result<Vec<u64>, AllocError>
    requires votes { length votes.now ≡ lists }
    requires by { length by.now ≡ lists }
    requires each { (list : ℕ) → list < lists
        → slice_index by.now list ≤ slice_index votes.now list }
    ensures { IfOk result (λ rest. rest.items ≡ votes_less lists votes.now by.now) }
{
    let mut rest = Vec::with_capacity(alloc, lists)?;
    for list in 0..lists {
        rest.push(votes[list] - u64::from(by[list]))?;
    }
    Ok(rest)
}
