//! The votes of the returns that are counted.

ghost use Rattle.std.specs.Prelude.{◌≡◌, ◌≤◌, true, [], ◌∷◌, IfOk, IfSome, length};
ghost use Rattle.tally_returns.specs.Counts.{are_counts, most_of_one_number};
ghost use Rattle.tally_returns.specs.View.{blank_of, spoiled_of, votes_of_lists};
ghost use Rattle.tally_setup.specs.Limits.{most_stations};
ghost use Rattle.tally_report_allotment.specs.Recount.{AreReturnsOf, counted, votes_counted};
ghost use Rattle.tally_report_allotment.specs.internal.Counting.{AreForLists, IsPartOf};
ghost use Rattle.tally_report_allotment.specs.internal.Counting.{number_in, sum_counted};

use std::alloc::{AllocError, Global};
use tally_returns::Counts;
use tally_setup::Constituency;

/// A number of a return: the votes for a list, by its number from 0, the blank votes or the spoiled
/// ones; or 1 for the return itself.
#[derive(Clone, Copy)]
pub(crate) enum Part {
    Votes(usize),
    Blank,
    Spoiled,
    Itself,
}

/// The votes for each list in the returns that are counted.
pub(crate) fn votes_counted(
    alloc: Global,
    con: &Constituency,
    returns: &[Option<Counts>],
) -> Result<Vec<u64>, AllocError>
    requires { AreReturnsOf con.now returns.now }
    ensures { IfOk result (λ votes. votes.items ≡ votes_counted con.now returns.now) }
{
    votes_of_lists(alloc, con.lists.len(), returns)
}

/// The votes for each of this many lists in the returns that are counted.
fn votes_of_lists(
    alloc: Global,
    lists: usize,
    returns: &[Option<Counts>],
) -> Result<Vec<u64>, AllocError>
    requires few { length returns.now ≤ most_stations }
    requires each { AreForLists lists returns.now }
    ensures { IfOk result (λ votes. votes.items ≡ votes_of_lists lists (counted returns.now)) }
{
    let mut votes = Vec::new(alloc);
    for list in 0..lists {
        votes.push(sum_counted(returns, lists, Part::Votes(list)))?;
    }
    Ok(votes)
}

/// The blank votes of the returns that are counted.
pub(crate) fn blank_counted(con: &Constituency, returns: &[Option<Counts>]) -> u64
    requires { AreReturnsOf con.now returns.now }
    ensures { result ≡ blank_of (counted returns.now) }
{
    sum_counted(returns, con.lists.len(), Part::Blank)
}

/// The spoiled votes of the returns that are counted.
pub(crate) fn spoiled_counted(con: &Constituency, returns: &[Option<Counts>]) -> u64
    requires { AreReturnsOf con.now returns.now }
    ensures { result ≡ spoiled_of (counted returns.now) }
{
    sum_counted(returns, con.lists.len(), Part::Spoiled)
}

/// How many returns are counted.
pub(crate) fn number_counted(con: &Constituency, returns: &[Option<Counts>]) -> u64
    requires { AreReturnsOf con.now returns.now }
    ensures { result ≡ length (counted returns.now) }
{
    sum_counted(returns, con.lists.len(), Part::Itself)
}

/// The sum of one number, such as the votes of a list, over the returns that are counted.
fn sum_counted(returns: &[Option<Counts>], lists: usize, part: Part) -> u64
    requires few { length returns.now ≤ most_stations }
    requires each { AreForLists lists returns.now }
    requires part { IsPartOf lists part }
    ensures { result ≡ sum_counted part returns.now }
{
    let mut sum = 0;
    for found in returns {
        sum += number_if_counted(found, lists, part);
    }
    sum
}

/// A number of a return, and 0 where it is not counted.
fn number_if_counted(found: &Option<Counts>, lists: usize, part: Part) -> u64
    requires counts { IfSome found.now (λ c. are_counts lists c ≡ true) }
    requires part { IsPartOf lists part }
    ensures number { result ≡ sum_counted part (found.now ∷ []) }
    ensures few { result ≤ most_of_one_number }
{
    match found {
        Some(counts) => u64::from(number_in(counts, lists, part)),
        None => 0,
    }
}

fn number_in(counts: &Counts, lists: usize, part: Part) -> u32
    requires counts { are_counts lists counts.now ≡ true }
    requires part { IsPartOf lists part }
    ensures number { result ≡ number_in part counts.now }
    ensures few { result ≤ most_of_one_number }
{
    match part {
        Part::Votes(list) => counts.votes[list],
        Part::Blank => counts.blank,
        Part::Spoiled => counts.spoiled,
        Part::Itself => 1,
    }
}
