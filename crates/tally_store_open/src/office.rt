//! Whether the rows of whole tables are those of a lawful state.

ghost use Rattle.std.specs.Prelude.{◌≡◌, All, IfOk, IfSome, IsSome, IsTrue, OnOk, OnSome, true};
ghost use Rattle.std.specs.FinMap.{from_entries, insert};
ghost use Rattle.tally_store_open.specs.internal.Entries.{AreLawfulEntries, AreReturnsOf};
ghost use Rattle.tally_store_open.specs.internal.Entries.{IsLawfulEntry, IsLedgerOf, rises};
ghost use Rattle.tally_store_open.specs.internal.Found.{AreLawfulCons};
ghost use Rattle.tally_store_open.specs.internal.Tree.{AreNumbered};
ghost use Rattle.tally_store_open.specs.Numbers.{HasNumbersOfRows, numbers_of};
ghost use Rattle.tally_store_open.specs.OfficeRows.{AreLawfulRows, AreRowsOfOneState};
ghost use Rattle.tally_store_open.specs.OfficeRows.{rows_in_order};
ghost use Rattle.tally_keeper.specs.Kept.{opening_kept};
ghost use Rattle.tally_returns.specs.Return.{Returns};
ghost use Rattle.tally_setup.specs.Limits.{IsSetup};
ghost use Rattle.tally_store_rows.specs.Views.{tables_in};

use crate::cons::are_lawful_cons;
use crate::numbers::put_all;
use crate::returns::{are_lawful, stations_rise};
use sqlite::Row;
use std::alloc::{AllocError, Global};
use std::collections::BTreeMap;
use tally_keeper::Ledger;
use tally_machine::laws;
use tally_setup::{Code, Setup};
use tally_store_rows::{ConTables, ReturnFound, Statuses, entries_in};

/// The rows of all tables but `setup`, without their rowids, those of each table in the order of
/// its key.
#[derive(Clone, Copy)]
pub struct OfficeRows<'a> {
    pub returns: &'a [Row],
    pub counts: &'a [Row],
    pub cons: &'a [Row],
    pub tables: ConTables<'a>,
}

/// The setup again, where these are the rows of the tables of a lawful state over it, and `None`
/// where they are those of no lawful state. The numbers of each constituency are put into a tree.
/// It costs n log n in the rows.
pub fn accept_rows(
    alloc: Global,
    setup: Setup,
    rows: &OfficeRows<'_>,
    known: &mut BTreeMap<Code, Statuses>,
) -> Result<Option<Setup>, AllocError>
    ensures passed { IfOk result (λ found.
        OnSome found (AreRowsOfOneState setup (rows_in_order rows.now))) }
    ensures must_pass { IfOk result (λ found.
        AreLawfulRows setup (rows_in_order rows.now) → IsSome found) }
    ensures setup { IfOk result (λ found. IfSome found (λ again. again ≡ setup)) }
    ensures numbers { IfOk result (λ found.
        OnSome found (HasNumbersOfRows setup (rows_in_order rows.now) (numbers_of known.new))) }
{
    // Called for what its contract says: the setup is within its limits.
    let _cons = setup.cons();
    // Called for what its contract says: a constituency has a view in each lawful state.
    laws::a_constituency_has_a_view();
    let Some(ledger) = ledger_of_rows(alloc, setup, rows.returns, rows.counts)? else {
        return Ok(None);
    };
    let lawful = accept_cons(alloc, &ledger, rows.cons, rows.tables, known)?;
    Ok(lawful.then_some(ledger.into_setup()))
}

/// A ledger with the returns whose rows these are, where they are in the order of their stations
/// and each is lawful there.
fn ledger_of_rows(
    alloc: Global,
    setup: Setup,
    returns: &[Row],
    counts: &[Row],
) -> Result<Option<Ledger>, AllocError>
    requires { IsSetup setup }
    ensures read { IfOk result (λ found. IfSome found (λ ledger.
        IsLedgerOf setup returns.now counts.now ledger)) }
    ensures must_read { IfOk result (λ found. (standing : Returns) →
        AreReturnsOf setup returns.now counts.now standing → IsSome found) }
{
    let Some(entries) = lawful_entries(alloc, &setup, returns, counts)? else {
        return Ok(None);
    };
    Ok(Some(ledger_of(alloc, setup, entries)?))
}

/// The returns whose rows these are, where they are in the order of their stations and each is
/// lawful there.
fn lawful_entries(
    alloc: Global,
    setup: &Setup,
    returns: &[Row],
    counts: &[Row],
) -> Result<Option<Vec<ReturnFound>>, AllocError>
    requires { IsSetup setup.now }
    ensures read { IfOk result (λ found. IfSome found (λ entries.
        AreLawfulEntries setup.now returns.now counts.now entries.items)) }
    ensures must_read { IfOk result (λ found. (standing : Returns) →
        AreReturnsOf setup.now returns.now counts.now standing → IsSome found) }
{
    let Some(entries) = entries_in(alloc, setup, returns, counts)? else {
        return Ok(None);
    };
    if !stations_rise(&entries) {
        return Ok(None);
    }
    if !are_lawful(setup, &entries) {
        return Ok(None);
    }
    Ok(Some(entries))
}

/// Whether these are the rows of lawful constituencies with the returns of the ledger. Where they
/// are, the numbers of each constituency are put into a tree.
fn accept_cons(
    alloc: Global,
    ledger: &Ledger,
    cons: &[Row],
    tables: ConTables<'_>,
    known: &mut BTreeMap<Code, Statuses>,
) -> Result<bool, AllocError>
    ensures lawful { IfOk result (λ yes.
        IsTrue yes → AreLawfulCons ledger.now cons.now (tables_in tables.entry)) }
    ensures otherwise { IfOk result (λ yes.
        AreLawfulCons ledger.now cons.now (tables_in tables.entry) → IsTrue yes) }
    ensures numbers { IfOk result (λ yes.
        IsTrue yes → AreNumbered ledger.now (numbers_of known.new)) }
{
    if !are_lawful_cons(alloc, ledger, cons, tables)? {
        return Ok(false);
    }
    put_all(ledger, known)?;
    Ok(true)
}

/// A ledger with these returns.
fn ledger_of(alloc: Global, setup: Setup, entries: Vec<ReturnFound>) -> Result<Ledger, AllocError>
    requires rise { rises entries.items ≡ true }
    requires lawful { All (IsLawfulEntry setup) entries.items }
    ensures { IfOk result (λ ledger.
        ledger ≡ record (opening_kept setup) { returns = from_entries entries.items }) }
{
    let mut ledger = Ledger::new(alloc, setup)?;
    for entry in entries {
        put_entry(&mut ledger, entry)?;
    }
    Ok(ledger)
}

fn put_entry(ledger: &mut Ledger, entry: ReturnFound) -> Result<(), AllocError>
    requires { IsLawfulEntry ledger.now.setup entry }
    ensures { OnOk result
        (ledger.new ≡ record ledger.old { returns = insert ledger.old.returns entry.0 entry.1 }) }
{
    ledger.put(entry.station, entry.standing)
}
