//! Sums of closed votes, and numbers of returns in each status.

ghost use Rattle.std.specs.Prelude.{◌≡◌, ◌≤◌, length};
ghost use Rattle.tally_keeper.specs.MovedSum.{CanMove, moved_sum};
ghost use Rattle.tally_keeper.specs.internal.Sums.{CanCount, CanCountOne, CanMoveCounts};
ghost use Rattle.tally_keeper.specs.internal.Sums.{CanMoveEach, moved_sums, with_counts};
ghost use Rattle.tally_keeper.specs.internal.Sums.{with_return_counted, with_status};
ghost use Rattle.tally_setup.specs.Limits.{most_stations};

use tally_returns::{ConView, Counts, Return, Status};

/// A sum of votes, from 0 to 5,000,000,000, with this number added to it or taken away.
pub fn moved(n: u64, by: u32, add: bool) -> u64
    requires { CanMove n by add }
    ensures { result ≡ moved_sum n by add }
{
    if add {
        n + u64::from(by)
    } else {
        n - u64::from(by)
    }
}

/// Counts a return in the view of its constituency, or no longer counts it.
pub(crate) fn count_return(view: &mut ConView, standing: &Return, add: bool)
    requires { CanCount view.old standing.now add }
    ensures { view.new ≡ with_return_counted view.old standing.now add }
{
    count_status(view, standing.status, add);
    if let Status::Closed = standing.status {
        count_votes(view, &standing.counts, add);
    }
}

/// One more or one fewer return has this status.
fn count_status(view: &mut ConView, status: Status, add: bool)
    requires { CanCountOne view.old status add }
    ensures { view.new ≡ with_status view.old status add }
{
    match status {
        Status::Received => view.received = one_moved(view.received, add),
        Status::Queried => view.queried = one_moved(view.queried, add),
        Status::Corrected => view.corrected = one_moved(view.corrected, add),
        Status::Closed => view.closed = one_moved(view.closed, add),
    }
}

fn one_moved(n: u32, add: bool) -> u32
    requires can { CanMove n 1 add }
    requires few { n ≤ most_stations }
    ensures { result ≡ moved_sum n 1 add }
{
    if add { n + 1 } else { n - 1 }
}

/// Adds the counts of a closed return to the sums, or takes them away.
fn count_votes(view: &mut ConView, counts: &Counts, add: bool)
    requires { CanMoveCounts view.old counts.now add }
    ensures { view.new ≡ with_counts view.old counts.now add }
{
    move_votes(&mut view.votes, &counts.votes, add);
    view.blank = moved(view.blank, counts.blank, add);
    view.spoiled = moved(view.spoiled, counts.spoiled, add);
}

fn move_votes(votes: &mut [u64], by: &[u32], add: bool)
    requires lists { length by.now ≡ length votes.old }
    requires each { CanMoveEach votes.old by.now add }
    ensures { votes.new ≡ moved_sums votes.old by.now add }
{
    for place in 0..votes.len() {
        votes[place] = moved(votes[place], by[place], add);
    }
}
