//! Whether the tables of an office are those of a lawful state.

ghost use Rattle.std.specs.Prelude.{◌≡◌, IfErr, IfOk, OnOk};
ghost use Rattle.tally_store_open.specs.Numbers.{HasNumbersOfRows, numbers_of};
ghost use Rattle.tally_store_open.specs.OfficeRows.{AreLawfulRows, AreRowsOfOneState};
ghost use Rattle.tally_store_open.specs.OfficeRows.{rows_in_order};
ghost use Rattle.tally_keeper.specs.declared.fault.OpenFault.TheVariants.{BadTables};
ghost use Rattle.tally_store_schema.specs.internal.Inside.{OnlyReadsFrom};
ghost use Rattle.tally_store_schema.specs.Office.{HasTables, ShowsTable};
ghost use Rattle.tally_store_open.specs.Calls.{Accepts, Rejects};
ghost use Rattle.tally_store_open.specs.internal.Opening.{CountsTables, IsJudged, IsUnlawful, Sees};
ghost use Rattle.tally_store_open.specs.internal.Opening.{ShowsOffice, rows_found};

use crate::office::{OfficeRows, accept_rows};
use sqlite::{Alter, Error, ErrorCode, Row, Transaction};
use std::alloc::Global;
use std::collections::BTreeMap;
use tally_keeper::OpenFault;
use tally_setup::{Code, Setup};
use tally_store_rows::{ConTables, Statuses};
use tally_store_schema::{KeyedTable, all_rows};

/// The rows of all tables but `setup`.
#[derive(Drop)]
pub(crate) struct FoundRows {
    pub(crate) returns: Vec<Row>,
    pub(crate) counts: Vec<Row>,
    pub(crate) cons: Vec<Row>,
    pub(crate) lots: Vec<Row>,
    pub(crate) seats: Vec<Row>,
    pub(crate) gone: Vec<Row>,
    pub(crate) totals: Vec<Row>,
    pub(crate) past: Vec<Row>,
}

/// All rows of two tables. It takes calls out of a function that has more than the prover follows.
fn read_two<S: Alter>(
    tx: &mut Transaction<'_, S>,
    first: KeyedTable,
    second: KeyedTable,
) -> Result<(Vec<Row>, Vec<Row>), Error>
    ensures reads { OnlyReadsFrom HasTables S.Store tx.old tx.new result }
    ensures first { Sees S.Store (λ s _ rows. ShowsTable first s rows.0.items)
        tx.old tx.new result }
    ensures second { Sees S.Store (λ s _ rows. ShowsTable second s rows.1.items)
        tx.old tx.new result }
{
    let rows = all_rows(tx, first)?;
    Ok((rows, all_rows(tx, second)?))
}

/// All rows of all tables but `setup`.
fn read_rows<S: Alter>(tx: &mut Transaction<'_, S>) -> Result<FoundRows, Error>
    ensures reads { OnlyReadsFrom HasTables S.Store tx.old tx.new result }
    ensures shown { Sees S.Store (λ s _ rows. ShowsOffice s (rows_found rows))
        tx.old tx.new result }
{
    let (returns, counts) = read_two(tx, KeyedTable::Returns, KeyedTable::Counts)?;
    let (cons, totals) = read_two(tx, KeyedTable::Cons, KeyedTable::Totals)?;
    let (lots, seats) = read_two(tx, KeyedTable::Lots, KeyedTable::Seats)?;
    let (gone, past) = read_two(tx, KeyedTable::Gone, KeyedTable::Past)?;
    Ok(FoundRows {
        returns,
        counts,
        cons,
        lots,
        seats,
        gone,
        totals,
        past,
    })
}

impl FoundRows {
    /// These rows, lent.
    fn lent(&self) -> OfficeRows<'_>
        ensures { rows_in_order result ≡ rows_found self.now }
    {
        OfficeRows {
            returns: &self.returns,
            counts: &self.counts,
            cons: &self.cons,
            tables: ConTables {
                lots: &self.lots,
                seats: &self.seats,
                gone: &self.gone,
                totals: &self.totals,
                past: &self.past,
            },
        }
    }
}

/// The setup again, where the rows are those of a lawful state over it, and `BadTables` where they
/// are those of none. The numbers of its returns are put into a tree.
fn accept(
    alloc: Global,
    setup: Setup,
    rows: &FoundRows,
    known: &mut BTreeMap<Code, Statuses>,
) -> Result<Result<Setup, OpenFault>, Error>
    ensures passed { IfOk result (λ answer.
        OnOk answer (AreRowsOfOneState setup (rows_found rows.now))) }
    ensures refused { IfOk result (λ answer. IfErr answer (λ fault.
        (fault ≡ BadTables) × (AreLawfulRows setup (rows_found rows.now) → ⊥))) }
    ensures setup { IfOk result (λ answer. IfOk answer (λ again. again ≡ setup)) }
    ensures numbers { IfOk result (λ answer.
        OnOk answer (HasNumbersOfRows setup (rows_found rows.now) (numbers_of known.new))) }
{
    match accept_rows(alloc, setup, &rows.lent(), known) {
        Ok(Some(setup)) => Ok(Ok(setup)),
        Ok(None) => Ok(Err(OpenFault::BadTables)),
        Err(_) => Err(Error::SqliteFailure(ErrorCode::OutOfMemory)),
    }
}

/// The setup again, where the tables are those of a lawful state over it, and `BadTables` where
/// they are those of none. The numbers of its returns are put into a tree.
pub(crate) fn judge_office<S: Alter>(
    alloc: Global,
    tx: &mut Transaction<'_, S>,
    setup: Setup,
    known: &mut BTreeMap<Code, Statuses>,
) -> Result<Result<Setup, OpenFault>, Error>
    ensures reads { OnlyReadsFrom HasTables S.Store tx.old tx.new result }
    ensures judged { Sees S.Store (Accepts IsJudged) tx.old tx.new result }
    ensures refused { Sees S.Store (Rejects (IsUnlawful setup)) tx.old tx.new result }
    ensures setup { IfOk result (λ answer. IfOk answer (λ again. again ≡ setup)) }
    ensures numbers { Sees S.Store (Accepts (CountsTables known.new)) tx.old tx.new result }
{
    let rows = read_rows(tx)?;
    accept(alloc, setup, &rows, known)
}
