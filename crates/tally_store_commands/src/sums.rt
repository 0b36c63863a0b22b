//! The sums of closed votes of a constituency, moved by a return.

ghost use Rattle.std.specs.Prelude.{◌≡◌, ◌≤◌, OnSome, SomeIff, length};
ghost use Rattle.tally_frac.specs.Limits.{most_lists};
ghost use Rattle.tally_store_schema.specs.internal.Inside.{InDatabase, StaysInside};
ghost use Rattle.tally_store_commands.specs.internal.Moves.{MovesSums};
ghost use Rattle.tally_keeper.specs.MovedSum.{CanMove, moved_sum};
ghost use Rattle.tally_keeper.specs.internal.Sums.{moved_sums};
ghost use Rattle.tally_store_commands.specs.internal.Sums.{FitCounts, FitEach, with_counts_moved};

use sqlite::{Alter, Error, ErrorCode, Transaction};
use std::alloc::Global;
use tally_frac::MOST_VOTES;
use tally_keeper::moved;
use tally_returns::Counts;
use tally_setup::Constituency;
use tally_store_entries::{find_sums, put_sums};
use tally_store_rows::Sums;

/// Adds the counts of a return that is closed now to the sums of its constituency, or takes out
/// those of one that is no longer closed. A sum that is not moved is not written. Sums that are not
/// those of its lists, or from which they cannot be taken out, are an error.
pub(crate) fn move_sums<S: Alter>(
    alloc: Global,
    tx: &mut Transaction<'_, S>,
    con: &Constituency,
    counts: &Counts,
    add: bool,
) -> Result<(), Error>
    requires few { length con.now.lists ≤ most_lists }
    ensures stays { StaysInside S.Store tx.old tx.new }
    ensures moved { InDatabase S.Store (MovesSums con.now counts.now add) tx.old tx.new result }
{
    let sums = find_sums(alloc, tx, con.code.as_str())?;
    if sums.votes.len() != con.lists.len() {
        return Err(Error::SqliteFailure(ErrorCode::DatabaseCorrupt));
    }
    let Some(sums) = moved_sums(sums, counts, add) else {
        return Err(Error::SqliteFailure(ErrorCode::DatabaseCorrupt));
    };
    put_sums(tx, con.code.as_str(), counts, &sums)
}

/// The sums with these counts added or taken out, if they are of the same lists and the results are
/// numbers of votes.
fn moved_sums(sums: Sums, counts: &Counts, add: bool) -> Option<Sums>
    ensures { SomeIff result (FitCounts sums counts.now add)
        (with_counts_moved sums counts.now add) }
{
    let blank = moved_if(sums.blank, counts.blank, add)?;
    let spoiled = moved_if(sums.spoiled, counts.spoiled, add)?;
    let mut votes = sums.votes;
    move_votes(&mut votes, &counts.votes, add)?;
    Some(Sums {
        votes,
        blank,
        spoiled,
    })
}

/// Adds numbers to the sums of the same lists or takes them out, if that can be done with each.
fn move_votes(votes: &mut [u64], by: &[u32], add: bool) -> Option<()>
    ensures fit { SomeIff result (FitEach votes.old by.now add) tt }
    ensures moved { OnSome result (votes.new ≡ moved_sums votes.old by.now add) }
{
    if votes.len() != by.len() {
        return None;
    }
    for place in 0..votes.len() {
        votes[place] = moved_if(votes[place], by[place], add)?;
    }
    Some(())
}

/// The sum with a number added or taken out, if the result is a number of votes.
fn moved_if(n: u64, by: u32, add: bool) -> Option<u64>
    ensures { SomeIff result (CanMove n by add) (moved_sum n by add) }
{
    if add {
        if n > MOST_VOTES - u64::from(by) {
            return None;
        }
        return Some(moved(n, by, true));
    }
    if u64::from(by) > n {
        return None;
    }
    Some(moved(n, by, false))
}
