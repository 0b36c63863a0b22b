//! The provisional seats of a constituency, and their status.

ghost use Rattle.std.specs.Prelude.{◌≡◌, IfErr, IfOk, length};
ghost use Rattle.tally_allot.specs.AllotFault.{IsFaultOf};
ghost use Rattle.tally_allot.specs.LeastSeats.{AreLeastSeats};
ghost use Rattle.tally_law.specs.Poll.{HasEligible};
ghost use Rattle.tally_machine_law.specs.Outcome.{IsLawfulView, IsOutcome, allotted};
ghost use Rattle.tally_machine_law.specs.Outcome.{poll_in, rule_in};
ghost use Rattle.tally_returns.specs.View.{FitsView};
ghost use Rattle.tally_report.specs.ProvisionalSeats.{AreProvisionalSeats, no_seats};
ghost use Rattle.tally_report.specs.declared.fault.ReportFault.TheVariants.{Memory};
ghost use Rattle.tally_report.specs.declared.status.ProvisionalStatus.TheVariants.{NoEligible};

use crate::fault::ReportFault;
use std::alloc::{AllocError, Global};
use tally_allot::{AllotFault, ListSet, allot, least_seats};
use tally_returns::ConView;
use tally_setup::Constituency;

/// The status of provisional seats.
#[derive(Clone, Copy, Debug, PartialEq, Eq)]
pub enum ProvisionalStatus {
    /// They are those of the certificate.
    Certified,
    /// The votes that are closed now, or these and the recorded lot, decide them.
    Open,
    /// A lot is needed and none is recorded.
    LotNeeded {
        /// The lists among which the lot decides.
        group: ListSet,
        /// The seats that it decides.
        in_question: u32,
    },
    /// No list is eligible.
    NoEligible,
}

/// The seats of each list if the votes that are closed now were all the votes.
#[derive(Drop)]
pub struct Provisional {
    /// Their status.
    pub status: ProvisionalStatus,
    /// The seats of each list, in order of place. Where a lot is needed and none is recorded, what
    /// each has in any case.
    pub seats: Vec<u32>,
}

/// The provisional seats of a constituency: those of its certificate; or those that the closed
/// votes and the recorded lot give, as if these were all the votes (LOREG article 163.1); or, where
/// a lot is needed and none is recorded, what each list has whatever lot may be drawn.
pub fn provisional_seats(
    alloc: Global,
    con: &Constituency,
    view: &ConView,
) -> Result<Provisional, ReportFault>
    requires { FitsView con.now view.now }
    ensures seats { IfOk result (λ found. IsLawfulView con.now view.now
        → AreProvisionalSeats con.now view.now found.status found.seats.items) }
    ensures one_each { IfOk result (λ found. length found.seats.items ≡ length con.now.lists) }
    ensures fault { IfErr result (λ fault. fault ≡ Memory) }
{
    if view.certified {
        let seats = view.seats.as_slice().to_vec(alloc)?;
        let status = ProvisionalStatus::Certified;
        return Ok(Provisional { status, seats });
    }
    let fault = match seats_by_votes(alloc, con, view) {
        Ok(seats) => {
            let status = ProvisionalStatus::Open;
            return Ok(Provisional { status, seats });
        }
        Err(fault) => fault,
    };
    match fault {
        AllotFault::NoEligible => Ok(without_seats(alloc, con)?),
        AllotFault::LotMissing { group, seats } => {
            // Called for what its contract says: how many marks a group has.
            let _marks = group.limit();
            let in_question = seats;
            let seats = least_by_votes(alloc, con, view)?;
            let status = ProvisionalStatus::LotNeeded { group, in_question };
            Ok(Provisional { status, seats })
        }
        // No lawful view has a wrong lot.
        AllotFault::WrongLot => Ok(without_seats(alloc, con)?),
        AllotFault::Memory => Err(ReportFault::Memory),
    }
}

/// The seats of each list by the closed votes and the recorded lot.
fn seats_by_votes(alloc: Global, con: &Constituency, view: &ConView) -> Result<Vec<u32>, AllotFault>
    requires { FitsView con.now view.now }
    ensures seats { IfOk result (λ seats. IsOutcome con.now view.now (allotted seats.items)) }
    ensures fault { IfErr result
        (IsFaultOf (rule_in con.now) (poll_in con.now view.now) con.now.seats view.now.lot) }
{
    let votes = view.votes.as_slice();
    let lot = recorded_lot(view);
    allot(alloc, &con.profile, con.seats, votes, view.blank, lot)
}

/// The recorded lot, whether or not the constituency is certified.
fn recorded_lot(view: &ConView) -> &[u32]
    ensures { result.now ≡ view.now.lot }
{
    &view.lot
}

/// The seats that each list has in any case by the closed votes, where some list is eligible.
fn least_by_votes(
    alloc: Global,
    con: &Constituency,
    view: &ConView,
) -> Result<Vec<u32>, ReportFault>
    requires view { FitsView con.now view.now }
    requires eligible { HasEligible (poll_in con.now view.now) }
    ensures least { IfOk result (λ seats.
        AreLeastSeats (rule_in con.now) (poll_in con.now view.now) con.now.seats seats.items) }
    ensures fault { IfErr result (λ fault. fault ≡ Memory) }
{
    let votes = view.votes.as_slice();
    let fault = match least_seats(alloc, &con.profile, con.seats, votes, view.blank) {
        Ok(seats) => return Ok(seats),
        Err(fault) => fault,
    };
    match fault {
        AllotFault::Memory => Err(ReportFault::Memory),
        _ => unreachable!(),
    }
}

/// No seat for each list, where none is eligible.
fn without_seats(alloc: Global, con: &Constituency) -> Result<Provisional, AllocError>
    ensures status { IfOk result (λ found. found.status ≡ NoEligible) }
    ensures seats { IfOk result (λ found. found.seats.items ≡ no_seats con.now) }
{
    let status = ProvisionalStatus::NoEligible;
    let seats = vec![in alloc; 0; con.lists.len()]?;
    Ok(Provisional { status, seats })
}
