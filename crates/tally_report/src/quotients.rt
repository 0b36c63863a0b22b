//! The quotients of the lists.

ghost use Rattle.std.specs.Prelude.{max, ◌≡◌, ◌≤◌, ◌++◌, IfOk, IfErr, OnOk, length, string_bytes};
ghost use Rattle.std.specs.List.{flat_map, range_with_len};
ghost use Rattle.tally_frac.specs.Limits.{last_divisor, most_seats, most_votes};
ghost use Rattle.tally_machine_law.specs.Outcome.{IsLawfulView};
ghost use Rattle.tally_returns.specs.View.{FitsView};
ghost use Rattle.tally_report.specs.Fault.{IsRefused, divisors_fault};
ghost use Rattle.tally_report_lines.specs.Columns.{list_lines};
ghost use Rattle.tally_report.specs.QuotientsText.{greatest_of, quotient_column, quotients_by};
ghost use Rattle.tally_report.specs.QuotientsText.{quotients_line, quotients_text};
ghost use Rattle.tally_report.specs.declared.fault.ReportFault.TheVariants.{Memory};
ghost use Rattle.tally_setup.specs.Threshold.{eligible_lists};

use crate::fault::ReportFault;
use std::alloc::{AllocError, Global};
use tally_frac::{Divisors, MOST_SEATS};
use tally_report_lines::{CODE_WIDTH, push_heading, push_left, push_number};
use tally_returns::ConView;
use tally_setup::{Constituency, ListEntry, eligible};

/// The quotients of the eligible lists of a certified constituency under a divisor rule, rounded
/// down, up to one more than the most seats that a list has. A star is put before each that won a
/// seat (LOREG article 163.1 b) and c)).
pub fn quotients_text(
    alloc: Global,
    con: &Constituency,
    view: &ConView,
) -> Result<String, ReportFault>
    requires { FitsView con.now view.now }
    ensures text { IfOk result (λ text. IsLawfulView con.now view.now
        → string_bytes text ≡ quotients_text con.now view.now) }
    ensures fault { IsRefused (divisors_fault con.now view.now) result }
{
    if !view.certified {
        return Err(ReportFault::NotCertified);
    }
    match con.profile.method.divisor_rule() {
        Some(rule) => text_by(alloc, &rule, con, view),
        None => Err(ReportFault::OtherMethod),
    }
}

/// The text by these divisors. It stops at the quotient of a seat that no constituency has.
fn text_by<D: Divisors>(
    alloc: Global,
    divisors: &D,
    con: &Constituency,
    view: &ConView,
) -> Result<String, ReportFault>
    requires view { FitsView con.now view.now }
    requires seats { length view.now.seats ≡ length con.now.lists }
    ensures text { IfOk result (λ text. greatest_of view.now.seats ≤ most_seats →
        string_bytes text ≡
        quotients_by (D.divisor divisors.now) (D.unit_of divisors.now) con.now view.now) }
    ensures fault { IfErr result (λ fault. fault ≡ Memory) }
{
    let marks = eligible(alloc, &con.profile, &view.votes, view.blank)?;
    let last = greatest_of(&view.seats).min(MOST_SEATS) + 1;
    let mut text = String::new(alloc);
    push_heading(&mut text, "QUOTIENTS", con)?;
    push_lists(&mut text, divisors, con, view, &marks, last)?;
    Ok(text)
}

/// The greatest of these numbers, and 0 where there is none.
fn greatest_of(numbers: &[u32]) -> u32
    ensures { result ≡ greatest_of numbers.now }
{
    let mut most = 0;
    for n in numbers {
        most = greater(most, *n);
    }
    most
}

fn greater(a: u32, b: u32) -> u32
    ensures { result ≡ max a b }
{
    if a > b { a } else { b }
}

fn push_lists<D: Divisors>(
    text: &mut String,
    divisors: &D,
    con: &Constituency,
    view: &ConView,
    marks: &[bool],
    last: u32,
) -> Result<(), AllocError>
    requires view { FitsView con.now view.now }
    requires seats { length view.now.seats ≡ length con.now.lists }
    requires marks { marks.now ≡ eligible_lists con.now.profile view.now.votes view.now.blank }
    requires last { last ≤ last_divisor }
    ensures { OnOk result (string_bytes text.new
        ≡ string_bytes text.old
        ++ list_lines (quotients_line (D.divisor divisors.now) (D.unit_of divisors.now) last
        con.now view.now) con.now) }
{
    for (place, list) in con.lists.iter().enumerate() {
        if marks[place] {
            push_left(text, list.code.as_str(), CODE_WIDTH)?;
            push_quotients(text, divisors, view.votes[place], view.seats[place], last)?;
            text.push_str("\n")?;
        }
    }
    Ok(())
}

/// The quotients of a list of this many votes and seats, up to that of this seat.
fn push_quotients<D: Divisors>(
    text: &mut String,
    divisors: &D,
    votes: u64,
    seats: u32,
    last: u32,
) -> Result<(), AllocError>
    requires votes { votes ≤ most_votes }
    requires last { last ≤ last_divisor }
    ensures { OnOk result (string_bytes text.new
        ≡ string_bytes text.old
        ++ flat_map (quotient_column (D.divisor divisors.now) (D.unit_of divisors.now) votes seats)
        (range_with_len 1 last)) }
{
    for won in 0..last {
        push_quotient(text, divisors, votes, seats, won + 1)?;
    }
    Ok(())
}

fn push_quotient<D: Divisors>(
    text: &mut String,
    divisors: &D,
    votes: u64,
    seats: u32,
    k: u32,
) -> Result<(), AllocError>
    requires votes { votes ≤ most_votes }
    requires first { 1 ≤ k }
    requires last { k ≤ last_divisor }
    ensures { OnOk result (string_bytes text.new
        ≡ string_bytes text.old
        ++ quotient_column (D.divisor divisors.now) (D.unit_of divisors.now) votes seats k) }
{
    text.push_str(if k <= seats { "*" } else { " " })?;
    push_number(text, votes * divisors.unit() / divisors.nth(k), 11)
}
