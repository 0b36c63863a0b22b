//! The text of a recount.

ghost use Rattle.std.specs.Prelude.{◌≡◌, ◌<◌, ◌++◌, ℕ, Some, true, false, IfOk, IfErr, OnOk};
ghost use Rattle.std.specs.Prelude.{codes, length, slice_index_or, string_bytes};
ghost use Rattle.tally_allot.specs.AllotFault.{IsFaultOf};
ghost use Rattle.tally_allot_award.specs.internal.KeptPoll.{kept_poll};
ghost use Rattle.tally_law.specs.Rules.{rule_of};
ghost use Rattle.tally_setup.specs.Constituency.{list_codes};
ghost use Rattle.tally_report_lines.specs.Columns.{line_end, lines_from};
ghost use Rattle.tally_report_lines.specs.internal.Awards.{AreAwardsAmong};
ghost use Rattle.tally_report_allotment.specs.AllotmentText.{list_columns};
ghost use Rattle.tally_report_allotment.specs.Question.{poll_asked, question};
ghost use Rattle.tally_report_allotment.specs.Recount.{AreReturnsOf, poll_counted};
ghost use Rattle.tally_report_allotment.specs.Recount.{question_counted, recounted};
ghost use Rattle.tally_report_allotment.specs.RecountText.{AreDecisive, IsRecountText};
ghost use Rattle.tally_report_allotment.specs.RecountText.{counted_lines, decisive_line};
ghost use Rattle.tally_report_allotment.specs.RecountText.{decisive_part, named_line};
ghost use Rattle.tally_report_allotment.specs.RecountText.{recount_lines};
ghost use Rattle.tally_report_allotment.specs.RecountText.{stations_line};
ghost use Rattle.tally_report_allotment.specs.internal.Allotments.{details_of};

use crate::counted::{blank_counted, number_counted, spoiled_counted, votes_counted};
use crate::decisive::decisive_marks;
use crate::found::{Found, found_beside};
use crate::lines::{push_closing, push_list, push_method, push_terms};
use crate::question::Asked;
use std::alloc::{AllocError, Global};
use tally_allot::{AllotFault, allot};
use tally_allot_award::Poll;
use tally_report_lines::{push_heading, push_valid};
use tally_returns::Counts;
use tally_setup::{Code, Constituency, ListEntry, Station};

/// Returns of the stations of a constituency, to be counted as closed.
#[derive(Drop)]
pub struct Recount {
    /// For each station, in the order of the setup, the counts of its return where it is counted.
    pub returns: Vec<Option<Counts>>,
    /// How many stations are left out.
    pub without: u32,
    /// How many rows were neither counted nor of a station that is left out.
    pub passed: u32,
    /// The places of the lists that a lot was drawn among, in its order, or none. 0 stands for one
    /// that is no list.
    pub lot: Vec<u32>,
    /// Whether the awards or the quotas are asked for.
    pub awards: bool,
    /// Whether the stations whose return is decisive are asked for.
    pub decisive: bool,
}

/// The text of a recount, in which each counted return is taken as closed. In order:
///
/// - how many stations are counted, and the valid, blank and spoiled votes;
/// - each list's votes, share and seats, whether it is eligible, and under a divisor rule the votes
///   that it is short of one more seat;
/// - the list that is next;
/// - the seats in the order of their award, or the quotas;
/// - the stations without whose votes the seats could not be the same (LOREG article 113).
///
/// It refuses as `allotment_text` does.
pub fn recount_text(
    alloc: Global,
    con: &Constituency,
    recount: &Recount,
) -> Result<String, AllotFault>
    requires { AreReturnsOf con.now recount.now.returns.items }
    ensures text { IfOk result (λ text.
        IsRecountText con.now (recounted recount.now) (string_bytes text)) }
    ensures fault { IfErr result (IsFaultOf (rule_of con.now.profile)
        (poll_counted con.now recount.now.returns.items) con.now.seats recount.now.lot.items) }
{
    let asked = asked_in(alloc, con, recount)?;
    let seats = allot(
        alloc,
        &asked.profile,
        asked.seats,
        &asked.votes,
        asked.blank,
        &asked.lot,
    )?;
    let found = found_beside(alloc, &asked, &seats, recount.awards)?;
    let marks = marks_asked(alloc, con, recount, &asked, &seats)?;
    Ok(text_of(alloc, con, recount, &asked, &seats, &found, &marks)?)
}

/// The seats of the constituency, asked for by the votes of the returns that are counted.
fn asked_in(alloc: Global, con: &Constituency, recount: &Recount) -> Result<Asked, AllocError>
    requires { AreReturnsOf con.now recount.now.returns.items }
    ensures { IfOk result (λ asked.
        question asked ≡ question_counted con.now (recounted recount.now)) }
{
    let votes = votes_counted(alloc, con, &recount.returns)?;
    let blank = blank_counted(con, &recount.returns);
    let lists = codes_of(alloc, &con.lists)?;
    let lot = recount.lot.as_slice().to_vec(alloc)?;
    Ok(Asked {
        profile: con.profile,
        seats: con.seats,
        lists,
        votes,
        blank,
        lot,
    })
}

/// The codes of lists, in their order.
fn codes_of(alloc: Global, lists: &[ListEntry]) -> Result<Vec<Code>, AllocError>
    ensures { IfOk result (λ codes. codes.items ≡ list_codes lists.now) }
{
    let mut codes = Vec::with_capacity(alloc, lists.len())?;
    for list in lists {
        codes.push(list.code)?;
    }
    Ok(codes)
}

/// Of each station whether it is decisive, where that is asked for.
fn marks_asked(
    alloc: Global,
    con: &Constituency,
    recount: &Recount,
    asked: &Asked,
    seats: &[u32],
) -> Result<Vec<bool>, AllocError>
    requires returns { AreReturnsOf con.now recount.now.returns.items }
    requires asked { question asked.now ≡ question_counted con.now (recounted recount.now) }
    requires seats { length seats.now ≡ length con.now.lists }
    ensures { IfOk result (λ marks. recount.now.decisive ≡ true
        → AreDecisive con.now recount.now.returns.items seats.now marks.items) }
{
    if !recount.decisive {
        return Ok(Vec::new(alloc));
    }
    decisive_marks(
        alloc,
        con,
        &recount.returns,
        &asked.votes,
        asked.blank,
        seats,
    )
}

/// The text of these seats, of what was found beside them, and of the stations that are marked.
fn text_of(
    alloc: Global,
    con: &Constituency,
    recount: &Recount,
    asked: &Asked,
    seats: &[u32],
    found: &Found,
    marks: &[bool],
) -> Result<String, AllocError>
    requires returns { AreReturnsOf con.now recount.now.returns.items }
    requires lists { length asked.now.lists.items ≡ length con.now.lists }
    requires seats { length seats.now ≡ length con.now.lists }
    requires next { (m : ℕ) → found.now.next ≡ Some m → m < length asked.now.lists.items }
    requires won { AreAwardsAmong (length asked.now.lists.items) found.now.won.items }
    ensures { IfOk result (λ text. string_bytes text ≡ recount_lines con.now
        (recounted recount.now) (question asked.now) seats.now (details_of found.now) marks.now) }
{
    let poll = Poll::new(&asked.profile, &asked.votes, asked.blank);
    let mut text = String::new(alloc);
    push_counted(&mut text, con, recount, asked)?;
    push_named(&mut text, asked, &poll, seats, found, &con.lists)?;
    push_closing(&mut text, asked, &poll, seats, found, recount.awards)?;
    push_decisive_asked(&mut text, con, recount, marks)?;
    Ok(text)
}

/// The lines before those of the lists.
fn push_counted(
    text: &mut String,
    con: &Constituency,
    recount: &Recount,
    asked: &Asked,
) -> Result<(), AllocError>
    requires { AreReturnsOf con.now recount.now.returns.items }
    ensures { OnOk result (string_bytes text.new ≡ string_bytes text.old
        ++ counted_lines con.now (recounted recount.now) (question asked.now)) }
{
    push_heading(text, "RECOUNT", con)?;
    push_stations(text, con, recount)?;
    writeln!(text, "passed {}", recount.passed)?;
    text.push_str("method ")?;
    push_method(text, asked)?;
    push_terms(text, asked)?;
    let spoiled = spoiled_counted(con, &recount.returns);
    push_valid(text, &asked.votes, asked.blank, spoiled)
}

/// How many stations there are, how many of their returns are counted, and how many are left out.
fn push_stations(text: &mut String, con: &Constituency, recount: &Recount) -> Result<(), AllocError>
    requires { AreReturnsOf con.now recount.now.returns.items }
    ensures { OnOk result (string_bytes text.new
        ≡ string_bytes text.old ++ stations_line con.now (recounted recount.now)) }
{
    let stations = con.stations.len();
    let counted = number_counted(con, &recount.returns);
    let without = recount.without;
    writeln!(
        text,
        "stations {stations} counted {counted} without {without}"
    )
}

/// The lines of the lists, each with the list's name at its end.
fn push_named(
    text: &mut String,
    asked: &Asked,
    poll: &Poll,
    seats: &[u32],
    found: &Found,
    lists: &[ListEntry],
) -> Result<(), AllocError>
    requires seats { length seats.now ≡ length lists.now }
    requires votes { length asked.now.votes.items ≡ length lists.now }
    requires same { poll.now.votes.now ≡ asked.now.votes.items }
    requires poll { kept_poll poll.now ≡ poll_asked (question asked.now) }
    ensures { OnOk result (string_bytes text.new ≡ string_bytes text.old
        ++ lines_from (named_line (question asked.now) seats.now (details_of found.now)) 0
        lists.now) }
{
    for (place, list) in lists.iter().enumerate() {
        push_named_line(text, asked, poll, seats[place], found, place, list)?;
    }
    Ok(())
}

/// The line of the list at a place, which has these seats.
fn push_named_line(
    text: &mut String,
    asked: &Asked,
    poll: &Poll,
    seats: u32,
    found: &Found,
    place: usize,
    list: &ListEntry,
) -> Result<(), AllocError>
    requires place { place < length asked.now.votes.items }
    requires same { poll.now.votes.now ≡ asked.now.votes.items }
    requires poll { kept_poll poll.now ≡ poll_asked (question asked.now) }
    ensures { OnOk result (string_bytes text.new ≡ string_bytes text.old
        ++ list_columns (question asked.now) (details_of found.now) seats place list.now.code
        ++ codes " " ++ list.now.name ++ line_end) }
{
    push_list(text, asked, poll, seats, found, place, &list.code)?;
    let name = list.name.as_str();
    writeln!(text, " {name}")
}

/// The lines of the stations that are marked, if they are asked for.
fn push_decisive_asked(
    text: &mut String,
    con: &Constituency,
    recount: &Recount,
    marks: &[bool],
) -> Result<(), AllocError>
    ensures { OnOk result (string_bytes text.new
        ≡ string_bytes text.old ++ decisive_part con.now (recounted recount.now) marks.now) }
{
    if !recount.decisive {
        return Ok(());
    }
    push_decisive(text, marks, &con.stations)
}

/// The lines of the stations that are marked.
fn push_decisive(text: &mut String, marks: &[bool], stations: &[Station]) -> Result<(), AllocError>
    ensures { OnOk result (string_bytes text.new
        ≡ string_bytes text.old ++ lines_from (decisive_line marks.now) 0 stations.now) }
{
    for (place, station) in stations.iter().enumerate() {
        push_if_decisive(text, marks, place, station)?;
    }
    Ok(())
}

/// The line of a station, if it is marked.
fn push_if_decisive(
    text: &mut String,
    marks: &[bool],
    place: usize,
    station: &Station,
) -> Result<(), AllocError>
    ensures { OnOk result (string_bytes text.new
        ≡ string_bytes text.old ++ decisive_line marks.now place station.now) }
{
    if !is_marked(marks, place) {
        return Ok(());
    }
    let code = station.code.as_str();
    writeln!(text, "decisive {code}")
}

fn is_marked(marks: &[bool], place: usize) -> bool
    ensures { result ≡ slice_index_or marks.now place false }
{
    match marks.get(place) {
        Some(mark) => *mark,
        None => false,
    }
}
