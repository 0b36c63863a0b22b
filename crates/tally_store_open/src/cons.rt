//! Which constituencies that were read are those of a lawful state.

ghost use Rattle.std.specs.Prelude.{◌≡◌, IfOk, IsTrue};
ghost use Rattle.std.specs.Ordering.{is_lt, nat_cmp};
ghost use Rattle.tally_store_open.specs.internal.Entries.{is_below, rises, rises_on};
ghost use Rattle.tally_store_open.specs.internal.Found.{AreAllLawful, AreEachLawful, AreLawfulCons};
ghost use Rattle.tally_store_open.specs.internal.Found.{IsLawfulFound, gone_places, is_as_counted};
ghost use Rattle.tally_store_open.specs.internal.Found.{past_edition, same_numbers};
ghost use Rattle.tally_store_schema.specs.Rows.{text_cmp};
ghost use Rattle.tally_store_rows.specs.Views.{tables_in};

use crate::found::{ConFound, views_from};
use crate::view::is_lawful_view;
use sqlite::Row;
use std::alloc::{AllocError, Global};
use tally_keeper::Ledger;
use tally_returns::{ConView, Gone, Past};
use tally_store_rows::ConTables;

/// Whether these are the rows of lawful constituencies with the returns of the ledger.
pub(crate) fn are_lawful_cons(
    alloc: Global,
    ledger: &Ledger,
    cons: &[Row],
    tables: ConTables<'_>,
) -> Result<bool, AllocError>
    ensures lawful { IfOk result (λ yes.
        IsTrue yes → AreLawfulCons ledger.now cons.now (tables_in tables.entry)) }
    ensures otherwise { IfOk result (λ yes.
        AreLawfulCons ledger.now cons.now (tables_in tables.entry) → IsTrue yes) }
{
    let Some(found) = views_from(alloc, ledger, cons, tables)? else {
        return Ok(false);
    };
    are_all_lawful(alloc, ledger, &found)
}

/// Whether there is one lawful constituency for each of the setup, in the order of their codes.
fn are_all_lawful(alloc: Global, ledger: &Ledger, found: &[ConFound]) -> Result<bool, AllocError>
    ensures lawful { IfOk result (λ yes. IsTrue yes → AreAllLawful ledger.now found.now) }
    ensures otherwise { IfOk result (λ yes. AreAllLawful ledger.now found.now → IsTrue yes) }
{
    if found.len() != ledger.setup().cons().len() {
        return Ok(false);
    }
    if !codes_rise(found) {
        return Ok(false);
    }
    are_each_lawful(alloc, ledger, found)
}

/// Whether each is a constituency of a lawful state with the returns of the ledger.
fn are_each_lawful(alloc: Global, ledger: &Ledger, found: &[ConFound]) -> Result<bool, AllocError>
    ensures lawful { IfOk result (λ yes. IsTrue yes → AreEachLawful ledger.now found.now) }
    ensures otherwise { IfOk result (λ yes. AreEachLawful ledger.now found.now → IsTrue yes) }
{
    for con in found {
        if !is_lawful(alloc, ledger, con)? {
            return Ok(false);
        }
    }
    Ok(true)
}

/// Whether the code of each constituency is below the next.
fn codes_rise(found: &[ConFound]) -> bool
    ensures { result ≡ rises found.now }
{
    for i in 1..found.len() {
        if !is_below(&found[i - 1], &found[i]) {
            return false;
        }
    }
    true
}

fn is_below(one: &ConFound, other: &ConFound) -> bool
    ensures { result ≡ is_below one.now other.now }
{
    one.con.as_bytes().cmp(other.con.as_bytes()).is_lt()
}

fn is_lawful(alloc: Global, ledger: &Ledger, found: &ConFound) -> Result<bool, AllocError>
    ensures lawful { IfOk result (λ yes. IsTrue yes → IsLawfulFound ledger.now found.now) }
    ensures otherwise { IfOk result (λ yes. IsLawfulFound ledger.now found.now → IsTrue yes) }
{
    let Some(con) = ledger.setup().con(found.con) else {
        return Ok(false);
    };
    let Some(counted) = ledger.view(found.con) else {
        return Ok(false);
    };
    if !is_as_counted(&found.view, counted) {
        return Ok(false);
    }
    is_lawful_view(alloc, con, &found.view)
}

/// Whether the numbers and sums are those that were counted, and those who are gone and the
/// certificates that were reopened are in order.
fn is_as_counted(view: &ConView, counted: &ConView) -> bool
    ensures { result ≡ is_as_counted counted.now view.now }
{
    same_numbers(view, counted) && gone_rise(&view.gone) && past_rises(&view.past)
}

/// Whether two views have the same numbers of returns and the same sums.
fn same_numbers(view: &ConView, counted: &ConView) -> bool
    ensures { result ≡ same_numbers counted.now view.now }
{
    view.stations == counted.stations
        && view.received == counted.received
        && view.queried == counted.queried
        && view.corrected == counted.corrected
        && view.closed == counted.closed
        && view.votes.as_slice() == counted.votes.as_slice()
        && view.blank == counted.blank
        && view.spoiled == counted.spoiled
}

/// Whether each candidate who is gone comes before the next, by list and then by place.
fn gone_rise(gone: &[Gone]) -> bool
    ensures { result ≡ rises_on gone_places text_cmp gone.now }
{
    for i in 1..gone.len() {
        if !gone[i - 1].is_before(&gone[i]) {
            return false;
        }
    }
    true
}

/// Whether each certificate is of an edition below the next.
fn past_rises(past: &[Past]) -> bool
    ensures { result ≡ rises_on past_edition nat_cmp past.now }
{
    for i in 1..past.len() {
        if !is_earlier(&past[i - 1], &past[i]) {
            return false;
        }
    }
    true
}

fn is_earlier(one: &Past, other: &Past) -> bool
    ensures { result ≡ is_lt (nat_cmp (past_edition one.now) (past_edition other.now)) }
{
    one.edition.cmp(&other.edition).is_lt()
}
