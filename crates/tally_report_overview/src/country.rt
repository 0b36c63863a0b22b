//! The country: all constituencies together.

ghost use Rattle.std.specs.Prelude.{◌≡◌, ◌≤◌, ◌+◌, ◌++◌, ◌∷◌, List, IfErr, IfOk, OnOk, length};
ghost use Rattle.std.specs.Prelude.{if◌then◌else◌, slice_index_or, string_bytes, sum, sum_by};
ghost use Rattle.std.specs.BTreeMap.{get};
ghost use Rattle.std.specs.List.{AllZip};
ghost use Rattle.tally_frac.specs.Limits.{most_lists, most_votes};
ghost use Rattle.tally_returns.specs.View.{FitsView};
ghost use Rattle.tally_setup.specs.Code.{code_cmp};
ghost use Rattle.tally_setup.specs.Constituency as value;
ghost use Rattle.tally_setup.specs.Limits.{most_constituencies};
ghost use Rattle.tally_setup.specs.Threshold.{IsWithinVotes};
ghost use Rattle.tally_report_overview.specs.CountryText.{all_lists, certified_seats, country_text};
ghost use Rattle.tally_report_overview.specs.CountryText.{list_line, numbers_line, pair_line};
ghost use Rattle.tally_report_overview.specs.internal.Totals.{AreAdded, AreTotals, AreWithin};
ghost use Rattle.tally_report_overview.specs.internal.Totals.{AreWithinOf};
ghost use Rattle.tally_report_overview.specs.internal.Totals.{IsAdded, IsCount, IsCountWithin};
ghost use Rattle.tally_report_overview.specs.internal.Totals.{IsCountWithinOf, IsCountedMore};
ghost use Rattle.tally_report_overview.specs.internal.Totals.{lines_left};
ghost use Rattle.tally_report_overview.specs.internal.Totals.{most_of_all, most_of_con};
ghost use Rattle.tally_report_overview.specs.internal.Totals.{seats_at, votes_at};
ghost use Rattle.tally_report.specs.declared.fault.ReportFault.TheVariants.{Memory};

use std::alloc::{AllocError, Global};
use std::collections::BTreeMap;
use tally_report::ReportFault;
use tally_report_lines::{CODE_WIDTH, push_left, push_number};
use tally_returns::ConView;
use tally_setup::{Code, Constituency, ListEntry, Setup};

/// The seats and the votes of a list over constituencies.
#[derive(Clone, Copy)]
struct Total {
    seats: u64,
    votes: u64,
}

/// The constituencies that are certified, the stations and those that are closed, the seats that
/// certificates give, and the closed votes for lists.
#[derive(Clone, Copy)]
struct Counted {
    certified: u64,
    stations: u64,
    closed: u64,
    seats: u64,
    votes: u64,
}

/// The country: how many constituencies are certified and how many stations are closed; of each
/// list, in the setup's order, its seats in the certified constituencies and its
/// closed votes in all; and how many seats are a majority. The views are those of the
/// constituencies, in order. A code stands for one party throughout.
#[tactic(auto, using(crate::proofs::TotalLemmas::lines_are))]
pub fn country_text(
    alloc: Global,
    cons: &[Constituency],
    views: &[ConView],
) -> Result<String, ReportFault>
    requires views { AllZip FitsView cons.now views.now }
    requires limit { length cons.now ≤ most_constituencies }
    ensures text { IfOk result (λ text. string_bytes text ≡ country_text cons.now views.now) }
    ensures fault { IfErr result (λ fault. fault ≡ Memory) }
{
    let counted = count_views(cons, views);
    let seats = all_seats(cons);
    let mut text = String::from_str(alloc, "COUNTRY\n")?;
    push_pair(
        &mut text,
        "constituencies",
        cons.len() as u64,
        "certified",
        counted.certified,
    )?;
    push_pair(
        &mut text,
        "stations",
        counted.stations,
        "closed",
        counted.closed,
    )?;
    push_constituencies(&mut text, totals_of(alloc, cons, views)?, cons)?;
    push_numbers(&mut text, "total", counted.seats, counted.votes)?;
    text.push_str("\n")?;
    push_pair(&mut text, "seats", seats, "majority", seats / 2 + 1)?;
    Ok(text)
}

/// The country of a setup, whose constituencies have these views.
pub fn country_report(
    alloc: Global,
    setup: &Setup,
    views: &[ConView],
) -> Result<String, ReportFault>
    requires { AllZip FitsView setup.now views.now }
    ensures text { IfOk result (λ text. string_bytes text ≡ country_text setup.now views.now) }
    ensures fault { IfErr result (λ fault. fault ≡ Memory) }
{
    country_text(alloc, setup.cons(), views)
}

/// The counts over the views of constituencies.
fn count_views(cons: &[Constituency], views: &[ConView]) -> Counted
    requires views { AllZip FitsView cons.now views.now }
    requires limit { length cons.now ≤ most_constituencies }
    ensures { IsCount views.now result }
{
    let mut counted = Counted {
        certified: 0,
        stations: 0,
        closed: 0,
        seats: 0,
        votes: 0,
    };
    for (place, con) in cons.iter().enumerate() {
        counted = with_view(counted, con, &views[place]);
    }
    counted
}

fn with_view(counted: Counted, con: &Constituency, view: &ConView) -> Counted
    requires view { FitsView con.now view.now }
    requires within { IsCountWithin most_of_all counted }
    ensures more { IsCountedMore view.now counted result }
    ensures within { IsCountWithinOf most_of_con counted result }
{
    // Read for what a constituency keeps: it has at most 60 lists.
    let _lists = con.lists.len();
    Counted {
        certified: counted.certified + one_if(view.certified),
        stations: more(counted.stations, view.stations),
        closed: more(counted.closed, view.closed),
        seats: counted.seats + sum_of(certificate(view)),
        votes: counted.votes + votes_of(view),
    }
}

fn one_if(holds: bool) -> u64
    ensures one { result ≡ (if holds then 1 else 0) }
    ensures within { result ≤ most_of_con }
{
    if holds { 1 } else { 0 }
}

/// The closed votes for the lists.
fn votes_of(view: &ConView) -> u64
    requires { IsWithinVotes view.now.votes view.now.blank }
    ensures sum { result ≡ sum view.now.votes }
    ensures within { result ≤ most_of_con }
{
    view.votes.iter().sum::<u64>()
}

fn more(sum: u64, n: u32) -> u64
    requires { sum ≤ most_of_all }
    ensures sum { result ≡ sum + n }
    ensures within { result ≤ sum + most_of_con }
{
    sum + u64::from(n)
}

/// The seats of each list by the certificate, if there is one.
fn certificate(view: &ConView) -> &[u32]
    ensures { result.now ≡ certified_seats view.now }
{
    if view.certified { &view.seats } else { &[] }
}

fn sum_of(seats: &[u32]) -> u64
    requires { length seats.now ≤ most_lists }
    ensures sum { result ≡ sum seats.now }
    ensures within { result ≤ most_of_con }
{
    let mut sum = 0;
    for n in seats {
        sum += u64::from(*n);
    }
    sum
}

/// The seats and the votes of each list over all constituencies.
fn totals_of(
    alloc: Global,
    cons: &[Constituency],
    views: &[ConView],
) -> Result<BTreeMap<Code, Total>, AllocError>
    requires views { AllZip FitsView cons.now views.now }
    requires limit { length cons.now ≤ most_constituencies }
    ensures { IfOk result (λ totals. AreTotals cons.now views.now totals) }
{
    let mut totals = BTreeMap::new(alloc);
    for (place, con) in cons.iter().enumerate() {
        add_constituency(&mut totals, con, &views[place])?;
    }
    Ok(totals)
}

fn add_constituency(
    totals: &mut BTreeMap<Code, Total>,
    con: &Constituency,
    view: &ConView,
) -> Result<(), AllocError>
    requires view { FitsView con.now view.now }
    requires within { AreWithin most_of_all totals.old }
    ensures added { OnOk result (AreAdded con.now.lists (certified_seats view.now) view.now.votes
        totals.old totals.new) }
    ensures within { OnOk result (AreWithinOf most_of_con totals.old totals.new) }
{
    let seats = certificate(view);
    for (place, list) in con.lists.iter().enumerate() {
        add_list(
            totals,
            list.code,
            number_at(seats, place),
            view.votes[place],
        )?;
    }
    Ok(())
}

/// The number at a place, or 0.
fn number_at(numbers: &[u32], place: usize) -> u64
    ensures number { result ≡ slice_index_or numbers.now place 0 }
    ensures within { result ≤ most_votes }
{
    match numbers.get(place) {
        Some(number) => u64::from(*number),
        None => 0,
    }
}

fn add_list(
    totals: &mut BTreeMap<Code, Total>,
    code: Code,
    seats: u64,
    votes: u64,
) -> Result<(), AllocError>
    requires within { AreWithin (most_of_all + most_of_con) totals.old }
    requires seats { seats ≤ most_votes }
    requires votes { votes ≤ most_votes }
    ensures added { OnOk result (IsAdded code seats votes totals.old totals.new) }
    ensures within { OnOk result (AreWithinOf most_votes totals.old totals.new) }
{
    let total = total_of(totals, code);
    let more = Total {
        seats: total.seats + seats,
        votes: total.votes + votes,
    };
    totals.insert(code, more)?;
    Ok(())
}

/// The total of a code, which is nothing where none is known.
fn total_of(totals: &BTreeMap<Code, Total>, code: Code) -> Total
    ensures seats { result.seats ≡ seats_at totals.now code }
    ensures votes { result.votes ≡ votes_at totals.now code }
{
    match totals.get(&code) {
        Some(total) => *total,
        None => Total { seats: 0, votes: 0 },
    }
}

/// The lines of the lists of these constituencies, each by its total, which is taken at the
/// list's first place.
fn push_constituencies(
    text: &mut String,
    mut totals: BTreeMap<Code, Total>,
    cons: &[Constituency],
) -> Result<(), AllocError>
    ensures { OnOk result (string_bytes text.new ≡ string_bytes text.old
        ++ lines_left (get code_cmp totals) (all_lists cons.now)) }
{
    for con in cons {
        push_lists(text, &mut totals, &con.lists)?;
    }
    Ok(())
}

fn push_lists(
    text: &mut String,
    totals: &mut BTreeMap<Code, Total>,
    lists: &[ListEntry],
) -> Result<(), AllocError>
    ensures { OnOk result ((rest : List value.ListEntry)
        → string_bytes text.new ++ lines_left (get code_cmp totals.new) rest
        ≡ string_bytes text.old ++ lines_left (get code_cmp totals.old) (lists.now ++ rest)) }
{
    for list in lists {
        push_list(text, totals, list)?;
    }
    Ok(())
}

fn push_list(
    text: &mut String,
    totals: &mut BTreeMap<Code, Total>,
    list: &ListEntry,
) -> Result<(), AllocError>
    ensures { OnOk result ((rest : List value.ListEntry)
        → string_bytes text.new ++ lines_left (get code_cmp totals.new) rest
        ≡ string_bytes text.old ++ lines_left (get code_cmp totals.old) (list.now ∷ rest)) }
{
    match totals.remove(&list.code) {
        Some(total) => push_total(text, list, total),
        None => Ok(()),
    }
}

fn push_total(text: &mut String, list: &ListEntry, total: Total) -> Result<(), AllocError>
    ensures { OnOk result (string_bytes text.new
        ≡ string_bytes text.old ++ list_line list.now total.seats total.votes) }
{
    push_numbers(text, list.code.as_str(), total.seats, total.votes)?;
    let name = list.name.as_str();
    writeln!(text, " {name}")
}

fn push_numbers(text: &mut String, name: &str, seats: u64, votes: u64) -> Result<(), AllocError>
    ensures { OnOk result (string_bytes text.new
        ≡ string_bytes text.old ++ numbers_line name.now seats votes) }
{
    push_left(text, name, CODE_WIDTH)?;
    push_number(text, seats, 7)?;
    push_number(text, votes, 14)
}

fn push_pair(text: &mut String, name: &str, n: u64, other: &str, m: u64) -> Result<(), AllocError>
    ensures { OnOk result (string_bytes text.new
        ≡ string_bytes text.old ++ pair_line name.now n other.now m) }
{
    writeln!(text, "{name} {n} {other} {m}")
}

/// The seats of all constituencies.
fn all_seats(cons: &[Constituency]) -> u64
    requires { length cons.now ≤ most_constituencies }
    ensures sum { result ≡ sum_by (λ (con : value.Constituency). con.seats) cons.now }
    ensures within { result ≤ most_of_all }
{
    let mut seats = 0;
    for con in cons {
        seats += u64::from(con.seats);
    }
    seats
}
