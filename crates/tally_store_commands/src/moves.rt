//! A return that has moved, written in the tables.

ghost use Rattle.std.specs.Prelude.{◌≡◌, ◌≢◌, ◌≤◌, length};
ghost use Rattle.tally_frac.specs.Limits.{most_lists};
ghost use Rattle.tally_returns.specs.declared.returns.Status.TheVariants.{Closed, Queried};
ghost use Rattle.tally_store_schema.specs.internal.Inside.{InDatabase, StaysInside};
ghost use Rattle.tally_store_commands.specs.internal.Moves.{PutsMoved, Uncounts, with_queried};
ghost use Rattle.tally_store_commands.specs.internal.Moves.{with_standing};

use crate::sums::move_sums;
use sqlite::{Alter, Error, Transaction};
use std::alloc::Global;
use tally_returns::{Return, Status};
use tally_setup::{Code, Constituency};
use tally_store_entries::{change_return, put_lot};

/// Writes a return that is queried now. Its counts are no longer in the totals, and the lot of its
/// constituency is taken out.
pub(crate) fn put_queried<S: Alter>(
    alloc: Global,
    tx: &mut Transaction<'_, S>,
    con: &Constituency,
    station: Code,
    before: &Return,
    standing: &Return,
) -> Result<(), Error>
    requires few { length con.now.lists ≤ most_lists }
    requires queried { standing.now.status ≡ Queried }
    requires same_counts { before.now.counts ≡ standing.now.counts }
    ensures stays { StaysInside S.Store tx.old tx.new }
    ensures put { InDatabase S.Store (PutsMoved (with_queried con.now station standing.now) con.now
        station before.now) tx.old tx.new result }
{
    uncount(alloc, tx, con, before)?;
    put_lot(tx, con.code.as_str(), &[])?;
    change_return(tx, station.as_str(), standing)
}

/// Takes the counts of a return, if it is closed, out of the sums of its constituency.
fn uncount<S: Alter>(
    alloc: Global,
    tx: &mut Transaction<'_, S>,
    con: &Constituency,
    before: &Return,
) -> Result<(), Error>
    requires few { length con.now.lists ≤ most_lists }
    ensures stays { StaysInside S.Store tx.old tx.new }
    ensures uncounted { InDatabase S.Store (Uncounts con.now before.now) tx.old tx.new result }
{
    match before.status {
        Status::Closed => move_sums(alloc, tx, con, &before.counts, false),
        _ => Ok(()),
    }
}

/// Writes a return that is closed now. Its counts are added to the totals.
pub(crate) fn put_closed<S: Alter>(
    alloc: Global,
    tx: &mut Transaction<'_, S>,
    con: &Constituency,
    station: Code,
    before: &Return,
    standing: &Return,
) -> Result<(), Error>
    requires few { length con.now.lists ≤ most_lists }
    requires open { before.now.status ≢ Closed }
    requires closed { standing.now.status ≡ Closed }
    requires same_counts { before.now.counts ≡ standing.now.counts }
    ensures stays { StaysInside S.Store tx.old tx.new }
    ensures put { InDatabase S.Store (PutsMoved (with_standing station standing.now) con.now station
        before.now) tx.old tx.new result }
{
    move_sums(alloc, tx, con, &standing.counts, true)?;
    change_return(tx, station.as_str(), standing)
}
