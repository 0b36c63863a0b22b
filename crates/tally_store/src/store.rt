//! A keeper over a database.

ghost use Rattle.std.specs.Prelude.{◌≡◌, false, Ok, IfOk, IfErr, OnOk};
ghost use Rattle.sqlite.specs.State.{HasCleanDisk, Survives};
ghost use Rattle.sqlite.specs.Held.{state};
ghost use Rattle.tally_rules.specs.Reading.{setup_of_text};
ghost use Rattle.tally_store_open.specs.Crash.{CountsNothing, IsUnwrittenToday};
ghost use Rattle.tally_store_open.specs.Crash.{LeavesOpening, LeavesTakenOver};
ghost use Rattle.tally_store_open.specs.Create.{IsCreateFault, no_schema};
ghost use Rattle.tally_store_open.specs.Open.{IsOpenFault, IsSetupOf};
ghost use Rattle.tally_store.specs.Create.{HasOpeningTables, IsGivenBack, ShowsFound};
ghost use Rattle.tally_store.specs.internal.Making.{ShowsState};
ghost use Rattle.tally_store_commands.specs.internal.Known.{known_of};
ghost use Rattle.tally_store.specs.Keeping.{conn_left};
ghost use Rattle.tally_store.specs.Store.{IsStored};
ghost use Rattle.tally_store.specs.internal.Making.{IsOfKnownState};

use sqlite::{Alter, Connection};
use std::alloc::Global;
use std::collections::BTreeMap;
use std::marker::Model;
use tally_keeper::{CreateFault, OpenFault};
use tally_machine::laws;
use tally_setup::{Code, Setup};
use tally_store_open::{create_in, open_in};
use tally_store_rows::Statuses;

/// Keeps the office's state in a database, by a connection that is in no transaction. It has the
/// setup whose text is in the database, and may know how many returns of each constituency are in
/// each status. These numbers are counted as the database is opened, and change with the returns.
/// After an error they are forgotten, and counted again when they are next needed.
#[derive(Drop)]
pub struct Store<S: Alter> {
    pub(crate) conn: Connection<S>,
    pub(crate) setup: Setup,
    pub(crate) known: BTreeMap<Code, Statuses>,
    pub(crate) alloc: Global,
}

impl<S: Alter> Model for Store<S> {
    ghost use Rattle.sqlite.specs.Held.{state};
    ghost use Rattle.tally_store_commands.specs.internal.Known.{known_of};
    ghost use Rattle.tally_store.specs.Store.{Stored, stored_code};
    ghost use Rattle.tally_store.specs.internal.Served.{IsServed};

    ghost Value = { Stored S };

    ghost coded = { stored_code S.code };

    ghost view = { λ s. record { conn = s.conn; setup = s.setup } };

    ghost invariant = { λ s. IsServed s.setup (state S.Store s.conn) (known_of s.known) };
}

/// The store of a connection to the tables of an office, of which this is known.
fn store_over<S: Alter>(
    alloc: Global,
    conn: Connection<S>,
    setup: Setup,
    known: BTreeMap<Code, Statuses>,
) -> Store<S>
    requires autocommit { conn.in_transaction ≡ false }
    requires office { IsOfKnownState setup (state S.Store conn) (known_of known) }
    ensures conn { result.conn ≡ conn }
    ensures setup { result.setup ≡ setup }
    ensures content { ShowsState setup (state S.Store conn) }
{
    // Called for what its contract says: the setup is within its limits.
    let _cons = setup.cons();
    // Called for what its contract says: a constituency has a view in each lawful state.
    laws::a_constituency_has_a_view();
    Store {
        conn,
        setup,
        known,
        alloc,
    }
}

impl<S: Alter> Store<S> {
    /// Makes the tables of an office that opens, of the setup that the text is, in a database
    /// without tables, in one transaction. Otherwise the connection comes back with its tables as
    /// they were.
    pub fn create(
        alloc: Global,
        mut conn: Connection<S>,
        text: &[u8],
    ) -> Result<Store<S>, (Connection<S>, CreateFault)>
        requires autocommit { conn.in_transaction ≡ false }
        ensures setup { IfOk result (λ store. setup_of_text text.now ≡ Ok store.setup) }
        ensures unset { OnOk result ((state S.Store conn).now.schema ≡ no_schema) }
        ensures made { IfOk result (λ store. HasCleanDisk (state S.Store store.conn) →
            HasOpeningTables store.setup text.now (state S.Store store.conn)) }
        ensures fault { IfErr result (λ e.
            IsCreateFault text.now (state S.Store conn).now.schema e.1) }
        ensures same { IfErr result (λ e. IsGivenBack (state S.Store conn) (state S.Store e.0)) }
        ensures crash { Survives (state S.Store conn) (state S.Store (conn_left result))
            (LeavesOpening text.now) }
    {
        match create_in(alloc, &mut conn, text) {
            Ok(setup) => Ok(store_over(alloc, conn, setup, BTreeMap::new(alloc))),
            Err(fault) => Err((conn, fault)),
        }
    }

    /// Takes a database whose tables are those of a lawful state. Tables of version 1 are taken
    /// over, in one transaction. Where there is a table `past`, nothing is written. Otherwise the
    /// connection comes back with its tables as they were.
    pub fn open(alloc: Global, conn: Connection<S>) -> Result<Store<S>, (Connection<S>, OpenFault)>
        requires autocommit { conn.in_transaction ≡ false }
        ensures setup { IfOk result (λ store. HasCleanDisk (state S.Store store.conn) →
            IsSetupOf (state S.Store conn).now store.setup) }
        ensures opened { IfOk result (λ store. HasCleanDisk (state S.Store store.conn) →
            ShowsFound store.setup (state S.Store conn) (state S.Store store.conn)) }
        ensures fault { IfErr result (λ e. HasCleanDisk (state S.Store e.0) →
            IsOpenFault (state S.Store conn).now e.1) }
        ensures same { IfErr result (λ e. IsGivenBack (state S.Store conn) (state S.Store e.0)) }
        ensures crash { Survives (state S.Store conn) (state S.Store (conn_left result))
            (LeavesTakenOver (state S.Store conn).now) }
        ensures unwritten { IsUnwrittenToday
            (state S.Store conn) (state S.Store (conn_left result)) }
        ensures counts { IfOk result (λ store.
            CountsNothing (state S.Store conn) (state S.Store store.conn)) }
    {
        let mut known = BTreeMap::new(alloc);
        let (conn, opened) = open_in(alloc, conn, &mut known);
        match opened {
            Ok(setup) => Ok(store_over(alloc, conn, setup, known)),
            Err(fault) => Err((conn, fault)),
        }
    }

    /// The setup of a store. The contract says what a store keeps true of its database.
    pub(crate) fn stored_setup(&self) -> &Setup
        ensures setup { result.now ≡ self.now.setup }
        ensures kept { IsStored self.now.setup (state S.Store self.now.conn) }
    {
        &self.setup
    }

    /// Gives the connection back, in no transaction.
    pub fn close(self) -> Connection<S>
        ensures same { result ≡ self.conn }
        ensures autocommit { result.in_transaction ≡ false }
    {
        let Store { conn, .. } = self;
        conn
    }
}
