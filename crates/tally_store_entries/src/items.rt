//! The numbers of a return, each of an item.

ghost use Rattle.std.specs.Prelude.{◌≤◌, map, length};
ghost use Rattle.tally_frac.specs.Limits.{most_lists};
ghost use Rattle.tally_store_rows.specs.Cells.{item_row, items_of};
ghost use Rattle.tally_store_entries.specs.internal.Written.{AddsRows, SetsCounts, SetsVotes};
ghost use Rattle.tally_store_schema.specs.internal.Inside.{InDatabase, Stays};
ghost use Rattle.tally_store_schema.specs.declared.table.KeyedTable.TheVariants.{Counts};

use sqlite::{Alter, Error, Transaction};
use tally_returns::Counts as VoteCounts;
use tally_store_rows::SPOILED_ITEM;
use tally_store_schema::{insert_numbers, update_count};

/// Adds the counts of a station.
pub(crate) fn insert_counts<S: Alter>(
    tx: &mut Transaction<'_, S>,
    station: &str,
    counts: &VoteCounts,
) -> Result<(), Error>
    requires few { length counts.now.votes ≤ most_lists }
    ensures stays { Stays S.Store tx.old tx.new }
    ensures added { InDatabase S.Store
        (AddsRows Counts (map (item_row station.now) (items_of counts.now))) tx.old tx.new result }
{
    insert_numbers(tx, station, 0, &[counts.blank])?;
    insert_numbers(tx, station, 1, counts.votes.as_slice())?;
    insert_numbers(tx, station, SPOILED_ITEM, &[counts.spoiled])
}

/// Sets the numbers of the lists of a station, one by one.
fn update_votes<S: Alter>(
    tx: &mut Transaction<'_, S>,
    station: &str,
    votes: &[u32],
) -> Result<(), Error>
    requires few { length votes.now ≤ most_lists }
    ensures stays { Stays S.Store tx.old tx.new }
    ensures set { InDatabase S.Store (SetsVotes station.now votes.now) tx.old tx.new result }
{
    let mut item = 1u32;
    for n in votes {
        update_count(tx, station, item, *n)?;
        item += 1;
    }
    Ok(())
}

/// Sets the counts of a station, number by number.
pub(crate) fn update_counts<S: Alter>(
    tx: &mut Transaction<'_, S>,
    station: &str,
    counts: &VoteCounts,
) -> Result<(), Error>
    requires few { length counts.now.votes ≤ most_lists }
    ensures stays { Stays S.Store tx.old tx.new }
    ensures set { InDatabase S.Store (SetsCounts station.now counts.now) tx.old tx.new result }
{
    update_count(tx, station, 0, counts.blank)?;
    update_votes(tx, station, counts.votes.as_slice())?;
    update_count(tx, station, SPOILED_ITEM, counts.spoiled)
}
