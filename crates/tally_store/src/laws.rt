//! What holds of every store.

ghost use Rattle.std.specs.Prelude.{IsTrue};
ghost use Rattle.sqlite_store.specs.FileStore.{view};
ghost use Rattle.sqlite_trees.specs.View.{IsClean};
ghost use Rattle.tally_store.specs.EnteredTwice.{HasRowsEnteredTwiceIn};
ghost use Rattle.tally_store.specs.Keeping.{HasCertificatesIn, IsKeptIn};
ghost use Rattle.tally_store.specs.NextOpening.{FindsContent, FindsWhatIsLeft, OpensWholeOffice};

use crate::store::Store;
use sqlite::{Alter, Connection, FileStore};
use sqlite_disk::Disk;
use tally_machine::laws as machine;

/// Between calls, as long as the disk has returned what was written and has not failed, a crash
/// leaves the tables of the store's state, and so all that was acknowledged.
pub fn a_crash_between_calls_leaves_the_last_commit<S: Alter>(store: &Store<S>)
    ensures { IsKeptIn S.Store store.now }
{
    // Called for what its contract says: a constituency has a view in each lawful state.
    machine::a_constituency_has_a_view();
    // Called for what its contract says: what a store keeps true of its database.
    store.stored_setup();
}

/// As long as the disk has returned what was written and has not failed, the rows of `seats` of
/// each constituency that is certified are those of the one allotment of its closed votes, which
/// gives exactly its seats.
pub fn certified_seats_are_the_allotment<S: Alter>(store: &Store<S>)
    ensures { HasCertificatesIn S.Store store.now }
{
    // Called for what its contract says: in a lawful state a certified constituency has the one
    // allotment of its closed votes.
    machine::a_certificate_is_of_closed_votes();
    // Called for what its contract says: a constituency has a view in each lawful state.
    machine::a_constituency_has_a_view();
    // Called for what its contract says: what a store keeps true of its database.
    store.stored_setup();
}

/// In a constituency whose returns are entered twice, each closed row of `returns` was entered
/// twice, with the numbers that its rows of `counts` have. This holds of whatever happened since
/// the store's content was the opening state of its setup, as long as the disk has returned what
/// was written and has not failed.
pub fn closed_rows_were_entered_twice<S: Alter>(store: &Store<S>)
    ensures { HasRowsEnteredTwiceIn S.Store store.now }
{
    // Called for what its contract says: a constituency has a view in each lawful state.
    machine::a_constituency_has_a_view();
    // Called for what its contract says: what a store keeps true of its database.
    store.stored_setup();
}

/// The next opening finds the office. `next` is a connection to the files of the store as a crash
/// left them, as `open_from` says of what it opens. It has one of the databases that a crash may
/// leave, and is opened as the state that has these tables. Where the crash came between two calls,
/// that state is the store's content. This holds as long as the store's disk has returned what was
/// written.
pub fn the_next_opening_finds_the_office<D: Disk + Drop, E: Disk + Drop>(
    store: Store<FileStore<D>>,
    next: &Connection<FileStore<E>>,
) -> FileStore<D>
    ensures left { IsClean (view result) → FindsWhatIsLeft store.conn next.now }
    ensures opens { OpensWholeOffice next.now }
    ensures between { IsClean (view result) → FindsContent store.conn next.now store.setup }
{
    files_left(store)
}

/// Takes the files out of a store. If they are clean afterwards, they were clean before, and each
/// tree of the database had the number that the file gives for it.
fn files_left<S: Alter + Drop>(store: Store<S>) -> S
    ensures kept { IsKeptIn S.Store store }
    ensures clean { IsClean (S.Store.view result) → IsClean (S.Store.view store.conn.store) }
    ensures numbered { IsClean (S.Store.view result) →
        IsTrue (S.Store.view store.conn.store).is_numbered }
{
    // Called for what its contract says: between calls a crash leaves the last commit.
    a_crash_between_calls_leaves_the_last_commit(&store);
    // Called for what its contract says: the file lists each tree by the number that it has.
    store.close().into_store()
}
