//! What is decided of a command on a constituency.

ghost use Rattle.std.specs.Prelude.{◌≡◌, ◌≢◌, ◌≤◌, ℕ, false, Ok, Err, IfOk, IfErr, OnOk, Some};
ghost use Rattle.std.specs.Prelude.{None, length, slice_index_or, string_bytes};
ghost use Rattle.tally_frac.specs.Limits.{most_lists};
ghost use Rattle.tally_allot.specs.AllotFault.{IsFaultOf};
ghost use Rattle.tally_machine_law.specs.Certification.{Certifies, Draws, IsCertifyRefusal};
ghost use Rattle.tally_machine_law.specs.Certification.{IsDrawRefusal, count_checks, drawn_places};
ghost use Rattle.tally_machine_law.specs.Certification.{list_places, reopen_result};
ghost use Rattle.tally_returns.specs.Checks.{first_refusal};
ghost use Rattle.tally_machine_law.specs.Outcome.{IsOutcome, allotted, rule_in, poll_in};
ghost use Rattle.tally_returns.specs.View.{FitsView};
ghost use Rattle.tally_returns.specs.declared.refusal.Refusal.TheVariants.{Memory};

use crate::list_order::{list_places, names_group};
use std::alloc::Global;
use tally_allot::{AllotFault, ListSet, allot};
use tally_returns::{ConView, LAST_EDITION, Past, Refusal};
use tally_setup::{Code, Constituency, good_note};

/// The outcome of a reopening.
#[derive(Drop)]
pub struct Reopening {
    /// The note that says why.
    pub note: String,
    /// The seats that the certificate gave, and its edition.
    pub past: Past,
}

/// The seats that certifying gives each list, in the setup's order (LOREG article 163.1), or why
/// it is refused. A view that came from a database may hold a lot that is not the one to be taken:
/// then, where the checks before it pass, the database is refused.
pub fn certify(
    alloc: Global,
    con: &Constituency,
    view: &ConView,
    edition: u32,
) -> Result<Vec<u32>, Refusal>
    requires { FitsView con.now view.now }
    ensures seats { IfOk result (λ seats. Certifies con.now view.now edition (Ok seats.items)) }
    ensures refused { IfErr result (IsCertifyRefusal con.now view.now edition) }
{
    check_count(view, edition)?;
    let fault = match seats_by_votes(alloc, con, view) {
        Ok(seats) => return Ok(seats),
        Err(fault) => fault,
    };
    match fault {
        AllotFault::NoEligible => Err(Refusal::NoEligible),
        AllotFault::LotMissing { group, seats } => {
            // Called for what its contract says: how many marks a group has.
            let _marks = group.limit();
            Err(Refusal::LotMissing { group, seats })
        }
        AllotFault::WrongLot => Err(Refusal::Store),
        AllotFault::Memory => Err(Refusal::Memory),
    }
}

/// The places of the lists in the order of a lot that was drawn, or why it is refused. Lists are
/// named by their codes. A lot that the view has is not replaced by another, right or wrong.
pub fn draw(
    alloc: Global,
    con: &Constituency,
    view: &ConView,
    edition: u32,
    order: &[Code],
) -> Result<Vec<u32>, Refusal>
    requires { FitsView con.now view.now }
    ensures places { IfOk result (λ places.
        Draws con.now view.now edition order.now (Ok places.items)) }
    ensures refused { IfErr result (IsDrawRefusal con.now view.now edition order.now) }
{
    check_count(view, edition)?;
    let fault = match seats_by_votes(alloc, con, view) {
        Ok(_) if view.lot.is_empty() => return Err(Refusal::LotNotNeeded),
        Ok(_) => return Err(Refusal::LotStands),
        Err(fault) => fault,
    };
    match fault {
        AllotFault::NoEligible => Err(Refusal::NoEligible),
        AllotFault::LotMissing { group, .. } => drawn_places(alloc, con, &group, order),
        AllotFault::WrongLot => Err(Refusal::LotStands),
        AllotFault::Memory => Err(Refusal::Memory),
    }
}

/// The note of a reopening of this view and what is put on record, or why it is refused.
pub fn reopen(alloc: Global, view: &ConView, edition: u32, note: &str) -> Result<Reopening, Refusal>
    ensures reopened { IfOk result (λ r.
        reopen_result view.now edition note.now ≡ Ok (string_bytes r.note, r.past)) }
    ensures refused { IfErr result (λ refusal.
        refusal ≢ Memory → reopen_result view.now edition note.now ≡ Err refusal) }
{
    if !good_note(note) {
        return Err(Refusal::BadNote);
    }
    if !view.certified {
        return Err(Refusal::NotCertified);
    }
    if view.edition != edition {
        return Err(Refusal::Stale { now: view.edition });
    }
    if view.edition == LAST_EDITION {
        return Err(Refusal::Exhausted);
    }
    Ok(Reopening {
        note: String::from_str(alloc, note)?,
        past: Past {
            edition: view.edition,
            seats: view.seats.as_slice().to_vec(alloc)?,
        },
    })
}

/// The checks of Draw and of Certify before the votes are looked at.
fn check_count(view: &ConView, edition: u32) -> Result<(), Refusal>
    requires { view.now.closed ≤ view.now.stations }
    ensures passed { OnOk result (first_refusal (count_checks view.now edition) ≡ None) }
    ensures refused { IfErr result (λ refusal.
        first_refusal (count_checks view.now edition) ≡ Some refusal) }
{
    if view.certified {
        return Err(Refusal::Certified);
    }
    if view.edition != edition {
        return Err(Refusal::Stale { now: view.edition });
    }
    if view.edition == LAST_EDITION {
        return Err(Refusal::Exhausted);
    }
    if view.closed != view.stations {
        return Err(Refusal::NotAllClosed {
            left: view.stations - view.closed,
        });
    }
    Ok(())
}

/// The seats of each list by the closed votes and the recorded lot.
fn seats_by_votes(alloc: Global, con: &Constituency, view: &ConView) -> Result<Vec<u32>, AllotFault>
    requires { FitsView con.now view.now }
    ensures seats { IfOk result (λ seats. IsOutcome con.now view.now (allotted seats.items)) }
    ensures fault { IfErr result
        (IsFaultOf (rule_in con.now) (poll_in con.now view.now) con.now.seats view.now.lot) }
{
    allot(
        alloc,
        &con.profile,
        con.seats,
        &view.votes,
        view.blank,
        &view.lot,
    )
}

/// The places of the lists that an order names, where it names each list of the group once and no
/// other. An order longer than the lists does not, and is not looked up.
fn drawn_places(
    alloc: Global,
    con: &Constituency,
    group: &ListSet,
    order: &[Code],
) -> Result<Vec<u32>, Refusal>
    requires { (l : ℕ) → length con.now.lists ≤ l →
        slice_index_or group.now l false ≡ false }
    ensures marks { length group.now ≡ most_lists }
    ensures places { IfOk result (λ places.
        drawn_places group.now (list_places con.now order.now) ≡ Ok places.items) }
    ensures refused { IfErr result (λ refusal.
        refusal ≢ Memory → drawn_places group.now (list_places con.now order.now) ≡ Err refusal) }
{
    // Called for what its contract says: how many marks a group has.
    let _marks = group.limit();
    if order.len() > con.lists.len() {
        return Err(Refusal::LotWrongGroup { group: *group });
    }
    let Some(places) = list_places(alloc, con, order)? else {
        return Err(Refusal::LotWrongGroup { group: *group });
    };
    if !names_group(con.lists.len() as u32, group, &places) {
        return Err(Refusal::LotWrongGroup { group: *group });
    }
    Ok(places)
}
