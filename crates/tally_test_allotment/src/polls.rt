//! Polls as lines of text.

ghost use Rattle.std.specs.Prelude.{◌+◌, ◌≤◌, IsTrue, sum};
ghost use Rattle.tally_law.specs.Conditions.{AreLimitsKept};

use std::alloc::Global;
use std::test::Fail;
use tally_setup::{Base, LotRule, Method, Profile};
use tally_test_scripts::{number, numbers};

/// A poll, and the places of a lot.
#[derive(Drop)]
pub(crate) struct Poll {
    pub(crate) profile: Profile,
    pub(crate) seats: u32,
    pub(crate) blank: u64,
    pub(crate) votes: Vec<u64>,
    pub(crate) lot: Vec<u32>,
}

/// The poll of a line such as `dhondt 300 8 0: 104000 72000: 2 1`: the rule, the threshold, of the
/// valid votes, the seats, the blank votes; the votes of the lists; the lot. Lots alternate where
/// the rule says so, as `dhondt/alternating`.
pub(crate) fn poll_of(alloc: Global, line: &str) -> Result<Poll, Fail> {
    let (terms, rest) = line.split_once(": ").unwrap_or((line, ""));
    let (votes, lot) = rest.split_once(": ").unwrap_or((rest, ""));
    let (rule, terms) = terms.split_once(" ").unwrap_or((terms, ""));
    let (threshold, terms) = terms.split_once(" ").unwrap_or((terms, ""));
    let (seats, blank) = terms.split_once(" ").unwrap_or((terms, ""));
    let (rule, lots) = rule.split_once("/").unwrap_or((rule, "fixed"));
    let profile = Profile {
        method: Method::named(rule).ok_or("no rule")?,
        threshold: number(threshold)?,
        base: Base::Valid,
        lot: lot_rule(lots),
    };
    let votes = all_votes(alloc, votes)?;
    Ok(Poll {
        profile,
        seats: number(seats)?,
        blank: votes_of(blank)?,
        votes,
        lot: numbers(alloc, lot)?,
    })
}

fn lot_rule(lots: &str) -> LotRule {
    if lots == "alternating" {
        LotRule::Alternating
    } else {
        LotRule::Fixed
    }
}

/// The votes of a text, of which a poll may have more than a `u32` holds.
fn votes_of(text: &str) -> Result<u64, Fail> {
    Ok(text.parse::<u64>().ok().ok_or("no votes")?)
}

fn all_votes(alloc: Global, text: &str) -> Result<Vec<u64>, Fail> {
    let mut votes = Vec::new(alloc);
    for word in text.split_whitespace() {
        votes.push(votes_of(word)?)?;
    }
    Ok(votes)
}

/// The most votes of a poll.
const MOST: u64 = 5_000_000_000;

fn are_few(votes: &[u64], blank: u64) -> bool
    ensures { IsTrue result → sum votes.now + blank ≤ MOST }
{
    if blank > MOST {
        return false;
    }
    let mut left = MOST - blank;
    for list in votes {
        if *list > left {
            return false;
        }
        left -= *list;
    }
    true
}

/// Whether these keep the limits of every allotment.
pub(crate) fn are_limits_kept(profile: &Profile, seats: u32, votes: &[u64], blank: u64) -> bool
    ensures { IsTrue result → AreLimitsKept profile.now seats votes.now blank }
{
    let lists = votes.len();
    if lists < 1 || lists > 60 || seats < 1 || seats > 500 {
        return false;
    }
    profile.threshold <= 10_000 && are_few(votes, blank)
}
