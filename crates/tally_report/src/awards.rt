//! The seats in the order of their award.

ghost use Rattle.std.specs.Prelude.{◌≡◌, ◌≢◌, ℕ, ◌<◌, ◌++◌, IfOk, IfErr, List, OnOk, length};
ghost use Rattle.std.specs.Prelude.{slice_index_or, string_bytes};
ghost use Rattle.tally_setup.specs.declared.profile.Method.TheVariants.{Hare as by_hare};
ghost use Rattle.tally_allot.specs.Awards.{AreAwardsBy};
ghost use Rattle.tally_allot.specs.declared.award.Award.{Award as award_type};
ghost use Rattle.tally_machine_law.specs.Outcome.{IsLawfulView, IsOutcome, allotted};
ghost use Rattle.tally_machine_law.specs.Outcome.{poll_in, rule_in};
ghost use Rattle.tally_returns.specs.View.{FitsView};
ghost use Rattle.tally_report.specs.Fault.{IsRefused, divisors_fault};
ghost use Rattle.tally_report_lines.specs.Columns.{lines_from};
ghost use Rattle.tally_report.specs.AwardsText.{IsAwardsText, award_line};
ghost use Rattle.tally_report.specs.internal.Awards.{IsAwardIn};
ghost use Rattle.tally_report.specs.declared.fault.ReportFault.TheVariants.{Memory};

use crate::fault::ReportFault;
use crate::lots::laws_of_lots;
use std::alloc::{AllocError, Global};
use tally_allot::{AllotFault, Award, awards};
use tally_report_lines::{push_award_of, push_heading};
use tally_returns::ConView;
use tally_setup::Constituency;

/// The seats of a certified constituency in the order of their award, each with its quotient, under
/// a divisor rule (LOREG article 163.1 c)).
pub fn awards_text(alloc: Global, con: &Constituency, view: &ConView) -> Result<String, ReportFault>
    requires { FitsView con.now view.now }
    ensures text { IfOk result (λ text. IsLawfulView con.now view.now
        → IsAwardsText con.now view.now (string_bytes text)) }
    ensures fault { IsRefused (divisors_fault con.now view.now) result }
{
    if !view.certified {
        return Err(ReportFault::NotCertified);
    }
    let Some(_rule) = con.profile.method.divisor_rule() else {
        return Err(ReportFault::OtherMethod);
    };
    let awards = awards_in(alloc, con, view)?;
    let mut text = String::new(alloc);
    push_heading(&mut text, "AWARDS", con)?;
    push_awards(&mut text, con, &awards)?;
    Ok(text)
}

/// The awards by the closed votes and the recorded lot, whether or not the constituency is
/// certified. There are none where these allot no seats.
pub fn awards_in(
    alloc: Global,
    con: &Constituency,
    view: &ConView,
) -> Result<Vec<Award>, ReportFault>
    requires view { FitsView con.now view.now }
    requires by_divisors { con.now.profile.method ≢ by_hare }
    ensures awards { IfOk result (λ awards.
        (seats : List ℕ) → IsOutcome con.now view.now (allotted seats)
        → AreAwardsBy (rule_in con.now) (poll_in con.now view.now) view.now.lot con.now.seats
        awards.items) }
    ensures each { IfOk result (λ awards. (i : ℕ) (d : award_type) → i < length awards.items
        → IsAwardIn con.now (slice_index_or awards.items i d)) }
    ensures fault { IfErr result (λ fault. fault ≡ Memory) }
{
    let votes = view.votes.as_slice();
    let fault = match awards(alloc, &con.profile, con.seats, votes, view.blank, &view.lot) {
        Ok(awards) => return Ok(awards),
        Err(fault) => fault,
    };
    match fault {
        AllotFault::Memory => Err(ReportFault::Memory),
        _ => {
            // Called for what its contract says: the laws of lots.
            laws_of_lots();
            Ok(Vec::new(alloc))
        }
    }
}

fn push_awards(text: &mut String, con: &Constituency, awards: &[Award]) -> Result<(), AllocError>
    requires { (i : ℕ) (d : award_type) → i < length awards.now
        → IsAwardIn con.now (slice_index_or awards.now i d) }
    ensures { OnOk result (string_bytes text.new
        ≡ string_bytes text.old ++ lines_from (award_line con.now) 1 awards.now) }
{
    for (index, award) in awards.iter().enumerate() {
        push_award(text, con, index as u64 + 1, award)?;
    }
    Ok(())
}

fn push_award(
    text: &mut String,
    con: &Constituency,
    n: u64,
    award: &Award,
) -> Result<(), AllocError>
    requires { IsAwardIn con.now award.now }
    ensures { OnOk result (string_bytes text.new
        ≡ string_bytes text.old ++ award_line con.now n award.now) }
{
    let code = con.lists[award.list as usize - 1].code.as_str();
    push_award_of(text, code, n, award)
}
