//! What a constituency has in the tables `lots` and `seats`.

ghost use Rattle.std.specs.Prelude.{◌≡◌, ◌≤◌, length};
ghost use Rattle.tally_frac.specs.Limits.{most_lists};
ghost use Rattle.tally_store_schema.specs.Office.{Inserts};
ghost use Rattle.tally_store_schema.specs.declared.table.KeyedTable.TheVariants.{Cons, Lots, Seats};
ghost use Rattle.tally_store_schema.specs.declared.table.KeyedTable.TheVariants.{Totals};
ghost use Rattle.tally_store_schema.specs.declared.table.KeyedTable.TheVariants as table;
ghost use Rattle.tally_store_rows.specs.Cells.{con_rows, gone_rows, lot_rows, past_rows};
ghost use Rattle.tally_store_entries.specs.internal.Constituencies.{Changes, ChangesSums, HasGone};
ghost use Rattle.tally_store_entries.specs.internal.Constituencies.{HasLot};
ghost use Rattle.tally_store_entries.specs.internal.Constituencies.{HasRecord, HasEdition, Writes};
ghost use Rattle.tally_store_entries.specs.internal.Constituencies.{WritesSeats};
ghost use Rattle.tally_store_entries.specs.internal.Written.{candidate_row};
ghost use Rattle.tally_store_entries.specs.internal.Entries.{PutsNumbers};
ghost use Rattle.tally_store_entries.specs.internal.Sums.{MovesItem, MovesNumbers};
ghost use Rattle.tally_store_schema.specs.internal.Inside.{InDatabase, Stays};

use sqlite::{Alter, Error, ErrorCode, Transaction};
use tally_returns::{Counts, Gone, Past};
use tally_store_rows::{SPOILED_ITEM, Sums};
use tally_store_schema::{
    delete_lot, delete_seats, insert_gone, insert_lots, insert_past, insert_seats, update_con,
    update_total,
};

/// Writes the lot of a constituency in place of what it had: the places of the lists, in the order
/// of the lot. An empty lot leaves no rows.
pub fn put_lot<S: Alter>(tx: &mut Transaction<'_, S>, con: &str, lot: &[u32]) -> Result<(), Error>
    requires few { length lot.now ≤ most_lists }
    ensures stays { Stays S.Store tx.old tx.new }
    ensures put { InDatabase S.Store (PutsNumbers Lots con.now lot.now) tx.old tx.new result }
    ensures lots { InDatabase S.Store (Writes Lots lot_rows con.now (HasLot lot.now))
        tx.old tx.new result }
{
    delete_lot(tx, con)?;
    insert_lots(tx, con, lot)
}

/// Writes the seats of a constituency in place of what it had: those of each list, in the setup's
/// order. Without seats no rows are left.
pub fn put_seats<S: Alter>(
    tx: &mut Transaction<'_, S>,
    con: &str,
    seats: &[u32],
) -> Result<(), Error>
    requires few { length seats.now ≤ most_lists }
    ensures stays { Stays S.Store tx.old tx.new }
    ensures put { InDatabase S.Store (PutsNumbers Seats con.now seats.now) tx.old tx.new result }
    ensures seats { InDatabase S.Store (WritesSeats con.now seats.now) tx.old tx.new result }
{
    delete_seats(tx, con)?;
    insert_seats(tx, con, seats)
}

/// Writes the edition of a constituency, whether it is certified, and the note of its last
/// reopening.
pub fn put_con<S: Alter>(
    tx: &mut Transaction<'_, S>,
    con: &str,
    edition: u32,
    certified: bool,
    note: &str,
) -> Result<(), Error>
    ensures stays { Stays S.Store tx.old tx.new }
    ensures written { InDatabase S.Store
        (Changes Cons con_rows con.now (HasEdition edition certified note.now))
        tx.old tx.new result }
{
    update_con(tx, con, edition, certified, note)
}

/// Adds the row of a candidate who is gone.
fn insert_candidate<S: Alter>(
    tx: &mut Transaction<'_, S>,
    con: &str,
    gone: &Gone,
) -> Result<(), Error>
    ensures stays { Stays S.Store tx.old tx.new }
    ensures inserted { InDatabase S.Store (Inserts table.Gone (candidate_row con.now gone.now))
        tx.old tx.new result }
{
    insert_gone(tx, con, gone.list, gone.place, gone.note.as_str())
}

/// Adds a candidate of a constituency who is gone.
pub fn put_gone<S: Alter>(tx: &mut Transaction<'_, S>, con: &str, gone: &Gone) -> Result<(), Error>
    ensures stays { Stays S.Store tx.old tx.new }
    ensures written { InDatabase S.Store (Writes table.Gone gone_rows con.now (HasGone gone.now))
        tx.old tx.new result }
{
    insert_candidate(tx, con, gone)
}

/// Puts a certificate of a constituency on record: its edition and the seats of each list, in the
/// setup's order.
pub fn put_record<S: Alter>(
    tx: &mut Transaction<'_, S>,
    con: &str,
    past: &Past,
) -> Result<(), Error>
    requires few { length past.now.seats ≤ most_lists }
    ensures stays { Stays S.Store tx.old tx.new }
    ensures written { InDatabase S.Store (Writes table.Past past_rows con.now (HasRecord past.now))
        tx.old tx.new result }
{
    insert_past(tx, con, past.edition, past.seats.as_slice())
}

/// Sets the sum of an item that is moved by a number, if the database can hold it. One that is
/// moved by 0 is as it was, and is not written.
fn move_sum<S: Alter>(
    tx: &mut Transaction<'_, S>,
    con: &str,
    item: u32,
    by: u32,
    n: u64,
) -> Result<(), Error>
    ensures stays { Stays S.Store tx.old tx.new }
    ensures moved { InDatabase S.Store (MovesItem Totals con.now item by n) tx.old tx.new result }
{
    if by == 0 {
        return Ok(());
    }
    let Ok(n) = i64::try_from(n) else {
        return Err(Error::SqliteFailure(ErrorCode::TooBig));
    };
    update_total(tx, con, item, n)
}

/// Sets the sums of the lists of a constituency that are moved by these numbers, one by one.
fn move_list_sums<S: Alter>(
    tx: &mut Transaction<'_, S>,
    con: &str,
    by: &[u32],
    votes: &[u64],
) -> Result<(), Error>
    requires few { length votes.now ≤ most_lists }
    requires lists { length by.now ≡ length votes.now }
    ensures stays { Stays S.Store tx.old tx.new }
    ensures moved { InDatabase S.Store (MovesNumbers Totals con.now by.now votes.now)
        tx.old tx.new result }
{
    let mut item = 1u32;
    for place in 0..votes.len() {
        move_sum(tx, con, item, by[place], votes[place])?;
        item += 1;
    }
    Ok(())
}

/// Writes the sums of a constituency in place of sums from which they differ by these counts. What
/// a count of 0 does not move is not written.
pub fn put_sums<S: Alter>(
    tx: &mut Transaction<'_, S>,
    con: &str,
    by: &Counts,
    sums: &Sums,
) -> Result<(), Error>
    requires few { length sums.now.votes ≤ most_lists }
    requires lists { length by.now.votes ≡ length sums.now.votes }
    ensures stays { Stays S.Store tx.old tx.new }
    ensures written { InDatabase S.Store
        (ChangesSums con.now by.now sums.now) tx.old tx.new result }
{
    move_sum(tx, con, 0, by.blank, sums.blank)?;
    move_list_sums(tx, con, by.votes.as_slice(), sums.votes.as_slice())?;
    move_sum(tx, con, SPOILED_ITEM, by.spoiled, sums.spoiled)
}
