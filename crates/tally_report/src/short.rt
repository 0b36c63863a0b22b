//! How many votes each list is short of one more seat.

ghost use Rattle.std.specs.Prelude.{◌≡◌, ◌≢◌, ℕ, ◌++◌, IfOk, IfErr, List, OnOk, length};
ghost use Rattle.std.specs.Prelude.{string_bytes};
ghost use Rattle.tally_setup.specs.Threshold.{eligible_lists};
ghost use Rattle.tally_setup.specs.declared.profile.Method.TheVariants.{Hare as by_hare};
ghost use Rattle.tally_machine_law.specs.Outcome.{IsLawfulView, IsOutcome, allotted};
ghost use Rattle.tally_returns.specs.View.{FitsView};
ghost use Rattle.tally_report.specs.Fault.{IsRefused, divisors_fault};
ghost use Rattle.tally_report_lines.specs.Columns.{list_lines};
ghost use Rattle.tally_report.specs.ShortText.{AreVotesShortIn, IsShortText, short_columns};
ghost use Rattle.tally_report.specs.ShortText.{short_line};
ghost use Rattle.tally_report.specs.declared.fault.ReportFault.TheVariants.{Memory};

use crate::fault::ReportFault;
use crate::lots::laws_of_lots;
use std::alloc::{AllocError, Global};
use tally_allot::{AllotFault, votes_short};
use tally_report_lines::{
    CODE_WIDTH, push_heading, push_left, push_number, push_votes, votes_short_at,
};
use tally_returns::ConView;
use tally_setup::{Constituency, ListEntry, eligible};

/// The seats of each eligible list of a certified constituency under a divisor rule, and how many
/// more votes it needs for one more; a dash where it has all seats.
pub fn short_text(alloc: Global, con: &Constituency, view: &ConView) -> Result<String, ReportFault>
    requires { FitsView con.now view.now }
    ensures text { IfOk result (λ text. IsLawfulView con.now view.now
        → IsShortText con.now view.now (string_bytes text)) }
    ensures fault { IsRefused (divisors_fault con.now view.now) result }
{
    if !view.certified {
        return Err(ReportFault::NotCertified);
    }
    let Some(_rule) = con.profile.method.divisor_rule() else {
        return Err(ReportFault::OtherMethod);
    };
    let numbers = votes_short_in(alloc, con, view)?;
    let marks = eligible(alloc, &con.profile, &view.votes, view.blank)?;
    let mut text = String::new(alloc);
    push_heading(&mut text, "SHORT", con)?;
    push_lists(&mut text, con, view, &marks, &numbers)?;
    Ok(text)
}

/// How many votes each list is short, by the closed votes and the recorded lot, whether or not the
/// constituency is certified. There are no numbers where these allot no seats.
pub fn votes_short_in(
    alloc: Global,
    con: &Constituency,
    view: &ConView,
) -> Result<Vec<Option<u64>>, ReportFault>
    requires view { FitsView con.now view.now }
    requires by_divisors { con.now.profile.method ≢ by_hare }
    ensures numbers { IfOk result (λ numbers.
        (seats : List ℕ) → IsOutcome con.now view.now (allotted seats)
        → AreVotesShortIn con.now view.now numbers.items) }
    ensures fault { IfErr result (λ fault. fault ≡ Memory) }
{
    let votes = view.votes.as_slice();
    let fault = match votes_short(alloc, &con.profile, con.seats, votes, view.blank, &view.lot) {
        Ok(numbers) => return Ok(numbers),
        Err(fault) => fault,
    };
    match fault {
        AllotFault::Memory => Err(ReportFault::Memory),
        _ => {
            // Called for what its contract says: the laws of lots.
            laws_of_lots();
            Ok(Vec::new(alloc))
        }
    }
}

fn push_lists(
    text: &mut String,
    con: &Constituency,
    view: &ConView,
    marks: &[bool],
    numbers: &[Option<u64>],
) -> Result<(), AllocError>
    requires seats { length view.now.seats ≡ length con.now.lists }
    requires lists { length view.now.votes ≡ length con.now.lists }
    requires marks { marks.now ≡ eligible_lists con.now.profile view.now.votes view.now.blank }
    ensures { OnOk result (string_bytes text.new
        ≡ string_bytes text.old ++ list_lines (short_line con.now view.now numbers.now) con.now) }
{
    for (place, list) in con.lists.iter().enumerate() {
        if marks[place] {
            push_list(
                text,
                list,
                view.seats[place],
                votes_short_at(numbers, place),
            )?;
        }
    }
    Ok(())
}

fn push_list(
    text: &mut String,
    list: &ListEntry,
    seats: u32,
    number: Option<u64>,
) -> Result<(), AllocError>
    ensures { OnOk result (string_bytes text.new
        ≡ string_bytes text.old ++ short_columns list.now seats number) }
{
    push_left(text, list.code.as_str(), CODE_WIDTH)?;
    push_number(text, u64::from(seats), 5)?;
    push_votes(text, number)?;
    text.push_str("\n")
}
