//! What the calls answer for a poll, as text.

ghost use Rattle.std.specs.Prelude.{◌≡◌, ◌≢◌};
ghost use Rattle.tally_law.specs.Conditions.{AreLimitsKept};
ghost use Rattle.tally_setup.specs.declared.profile.Method.TheVariants.{Hare};

use crate::polls::{Poll, are_limits_kept, poll_of};
use std::alloc::{AllocError, Global};
use std::test::Fail;
use tally_allot::{
    AllotFault, ListSet, allot, awards, is_allotment, least_seats, lot_need, quotas, votes_short,
};
use tally_setup::Method;
use tally_test_scripts::numbers;

/// `lot of 1 2 for 1`: the places of the lists of a group, and the seats in question.
fn lot_text(alloc: Global, group: &ListSet, seats: u32) -> Result<String, AllocError> {
    let mut text = String::from_str(alloc, "lot of")?;
    for place in 0..64 {
        if group.has(place) {
            write!(text, " {place}")?;
        }
    }
    write!(text, " for {seats}")?;
    Ok(text)
}

pub(crate) fn fault_text(alloc: Global, fault: AllotFault) -> Result<String, AllocError> {
    let mut text = fault.to_string(alloc)?;
    if let AllotFault::LotMissing { group, seats } = fault {
        text.push_str(": ")?;
        text.push_str(lot_text(alloc, &group, seats)?.as_str())?;
    }
    Ok(text)
}

fn seats_text(alloc: Global, poll: &Poll) -> Result<String, AllocError>
    requires { let p = poll.now in AreLimitsKept p.profile p.seats p.votes.items p.blank }
{
    let (profile, votes, lot) = (&poll.profile, &poll.votes, &poll.lot);
    match allot(alloc, profile, poll.seats, votes, poll.blank, lot) {
        Ok(seats) => format!(in alloc; "{seats:?}"),
        Err(fault) => fault_text(alloc, fault),
    }
}

fn need_text(alloc: Global, poll: &Poll) -> Result<String, AllocError>
    requires { let p = poll.now in AreLimitsKept p.profile p.seats p.votes.items p.blank }
{
    match lot_need(alloc, &poll.profile, poll.seats, &poll.votes, poll.blank) {
        Ok(Some(need)) => lot_text(alloc, &need.group, need.seats),
        Ok(None) => String::from_str(alloc, "no lot"),
        Err(fault) => fault_text(alloc, fault),
    }
}

fn least_text(alloc: Global, poll: &Poll) -> Result<String, AllocError>
    requires { let p = poll.now in AreLimitsKept p.profile p.seats p.votes.items p.blank }
{
    match least_seats(alloc, &poll.profile, poll.seats, &poll.votes, poll.blank) {
        Ok(seats) => format!(in alloc; "{seats:?}"),
        Err(fault) => fault_text(alloc, fault),
    }
}

fn quotas_text(alloc: Global, poll: &Poll) -> Result<String, AllocError>
    requires limits { let p = poll.now in AreLimitsKept p.profile p.seats p.votes.items p.blank }
    requires hare { poll.now.profile.method ≡ Hare }
{
    let (profile, votes, lot) = (&poll.profile, &poll.votes, &poll.lot);
    match quotas(alloc, profile, poll.seats, votes, poll.blank, lot) {
        Ok(rows) => format!(in alloc; "{rows:?}"),
        Err(fault) => fault_text(alloc, fault),
    }
}

fn awards_text(alloc: Global, poll: &Poll) -> Result<String, AllocError>
    requires limits { let p = poll.now in AreLimitsKept p.profile p.seats p.votes.items p.blank }
    requires divisors { poll.now.profile.method ≢ Hare }
{
    let (profile, votes, lot) = (&poll.profile, &poll.votes, &poll.lot);
    match awards(alloc, profile, poll.seats, votes, poll.blank, lot) {
        Ok(given) => format!(in alloc; "{given:?}"),
        Err(fault) => fault_text(alloc, fault),
    }
}

fn short_text(alloc: Global, poll: &Poll) -> Result<String, AllocError>
    requires limits { let p = poll.now in AreLimitsKept p.profile p.seats p.votes.items p.blank }
    requires divisors { poll.now.profile.method ≢ Hare }
{
    let (profile, votes, lot) = (&poll.profile, &poll.votes, &poll.lot);
    match votes_short(alloc, profile, poll.seats, votes, poll.blank, lot) {
        Ok(numbers) => format!(in alloc; "{numbers:?}"),
        Err(fault) => fault_text(alloc, fault),
    }
}

/// The answer of a call for a poll.
fn answer(alloc: Global, call: &str, poll: &Poll) -> Result<String, AllocError> {
    if !are_limits_kept(&poll.profile, poll.seats, &poll.votes, poll.blank) {
        return String::from_str(alloc, "no poll");
    }
    if call == "allot" {
        return seats_text(alloc, poll);
    }
    if call == "need" {
        return need_text(alloc, poll);
    }
    if call == "least" {
        return least_text(alloc, poll);
    }
    if poll.profile.method == Method::Hare {
        return quotas_text(alloc, poll);
    }
    if call == "awards" {
        return awards_text(alloc, poll);
    }
    short_text(alloc, poll)
}

/// Whether these seats are the allotment of a poll.
fn is_right(poll: &Poll, seats: &[u32]) -> bool {
    let (profile, votes, lot) = (&poll.profile, &poll.votes, &poll.lot);
    are_limits_kept(profile, poll.seats, votes, poll.blank)
        && is_allotment(profile, poll.seats, votes, poll.blank, lot, seats)
}

/// Whether a line such as `CALL POLL = ANSWER` holds. The calls are `allot`, `need`, `awards`,
/// `quotas` and `short`; and `right SEATS: POLL` and `wrong SEATS: POLL` have no answer.
pub(crate) fn holds(alloc: Global, line: &str) -> Result<bool, Fail> {
    let (call, rest) = line.split_once(" ").unwrap_or((line, ""));
    if let Some((poll, wanted)) = rest.split_once(" = ") {
        let poll = poll_of(alloc, poll)?;
        return Ok(answer(alloc, call, &poll)?.as_str() == wanted);
    }
    let (seats, poll) = rest.split_once(": ").unwrap_or((rest, ""));
    let (seats, poll) = (numbers(alloc, seats)?, poll_of(alloc, poll)?);
    Ok(is_right(&poll, &seats) == (call == "right"))
}
