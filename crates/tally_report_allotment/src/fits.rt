//! Whether returns are those of a constituency.

ghost use Rattle.std.specs.Prelude.{◌≡◌, ◌<◌, ◌≤◌, ◌↔◌, IsTrue, length, true};
ghost use Rattle.tally_frac.specs.Limits.{most_lists};
ghost use Rattle.tally_returns.specs.Counts.{all_votes, are_counts};
ghost use Rattle.tally_report_allotment.specs.Recount.{AreReturnsOf};
ghost use Rattle.tally_report_allotment.specs.internal.Counting.{IsReturnAt};

use crate::recount::Recount;
use tally_returns::Counts;
use tally_setup::Constituency;

impl Recount {
    /// Whether there is one place for each station of a constituency, and each return that is
    /// counted may be one of its station: one number for each list, none above 1,000,000, and no
    /// more votes than may vote there.
    pub fn fits(&self, con: &Constituency) -> bool
        ensures { IsTrue result ↔ AreReturnsOf con.now self.now.returns.items }
    {
        are_returns_of(con, self.returns.as_slice())
    }
}

fn are_returns_of(con: &Constituency, returns: &[Option<Counts>]) -> bool
    ensures { IsTrue result ↔ AreReturnsOf con.now returns.now }
{
    if returns.len() != con.stations.as_slice().len() {
        return false;
    }
    for place in 0..returns.len() {
        if !is_return_at(con, returns, place) {
            return false;
        }
    }
    true
}

/// Whether the return at a place, if it is counted, may be one of the station there.
fn is_return_at(con: &Constituency, returns: &[Option<Counts>], place: usize) -> bool
    requires one_each { length returns.now ≡ length con.now.stations }
    requires place { place < length returns.now }
    ensures { IsTrue result ↔ IsReturnAt con.now returns.now place }
{
    let Some(counts) = &returns[place] else {
        return true;
    };
    let station = &con.stations[place];
    are_counts_of(con.lists.as_slice().len(), station.entitled(), counts)
}

/// Whether counts are for this many lists, up to 60, and have at most this many votes.
fn are_counts_of(lists: usize, entitled: u64, counts: &Counts) -> bool
    requires { lists ≤ most_lists }
    ensures { IsTrue result ↔ (are_counts lists counts.now ≡ true)
        × (all_votes counts.now ≤ entitled) }
{
    if !counts.are_for(lists) {
        return false;
    }
    counts.all_votes() <= entitled
}
