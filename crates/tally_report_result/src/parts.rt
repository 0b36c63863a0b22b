//! What a result has beside what is seen of its constituency.

ghost use Rattle.std.specs.Prelude.{◌≡◌, IfErr, IfOk, length, not};
ghost use Rattle.tally_machine_law.specs.Outcome.{IsLawfulView};
ghost use Rattle.tally_returns.specs.View.{FitsView};
ghost use Rattle.tally_report.specs.declared.fault.ReportFault.TheVariants.{Memory};
ghost use Rattle.tally_report_result.specs.Parts.{AreResultParts, has_divisors, is_decided};
ghost use Rattle.tally_report_result.specs.internal.Found.{bare_parts, parts_of};

use std::alloc::Global;
use tally_allot::Award;
use tally_report::{
    Provisional, ProvisionalStatus, ReportFault, awards_in, provisional_seats, votes_short_in,
};
use tally_returns::ConView;
use tally_setup::Constituency;

/// The provisional seats of each list with their status, the votes that each list is short of one
/// more, and the awards. There are none of these two where they are not shown.
#[derive(Drop)]
pub(crate) struct Parts {
    pub(crate) status: ProvisionalStatus,
    pub(crate) seats: Vec<u32>,
    pub(crate) short: Vec<Option<u64>>,
    pub(crate) awards: Vec<Award>,
}

/// Whether the votes that are closed and the lot decide all seats.
pub(crate) fn is_decided(status: &ProvisionalStatus) -> bool
    ensures { result ≡ is_decided status.now }
{
    match status {
        ProvisionalStatus::Certified | ProvisionalStatus::Open => true,
        ProvisionalStatus::LotNeeded { .. } | ProvisionalStatus::NoEligible => false,
    }
}

/// The parts of the result of a constituency of which this is seen.
pub(crate) fn parts_in(
    alloc: Global,
    con: &Constituency,
    view: &ConView,
) -> Result<Parts, ReportFault>
    requires { FitsView con.now view.now }
    ensures parts { IfOk result (λ parts. IsLawfulView con.now view.now
        → AreResultParts con.now view.now (parts_of parts)) }
    ensures one_each { IfOk result (λ parts. length parts.seats.items ≡ length con.now.lists) }
    ensures fault { IfErr result (λ fault. fault ≡ Memory) }
{
    let Provisional { status, seats } = provisional_seats(alloc, con, view)?;
    if !is_decided(&status) {
        return Ok(without_awards(alloc, status, seats));
    }
    let Some(_rule) = con.profile.method.divisor_rule() else {
        return Ok(without_awards(alloc, status, seats));
    };
    let short = votes_short_in(alloc, con, view)?;
    let awards = awards_in(alloc, con, view)?;
    Ok(Parts {
        status,
        seats,
        short,
        awards,
    })
}

fn without_awards(alloc: Global, status: ProvisionalStatus, seats: Vec<u32>) -> Parts
    ensures { parts_of result ≡ bare_parts status seats.items }
{
    Parts {
        status,
        seats,
        short: Vec::new(alloc),
        awards: Vec::new(alloc),
    }
}
