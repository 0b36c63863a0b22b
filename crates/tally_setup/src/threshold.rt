//! The threshold.

ghost use Rattle.std.specs.Prelude.{◌≡◌, ◌≤◌, IfOk};
ghost use Rattle.tally_frac.specs.Limits.{most_votes, whole_base};
ghost use Rattle.tally_setup.specs.Threshold.{base_of, eligible_lists, is_eligible, IsWithinVotes};

use crate::profile::{Base, Profile};
use std::alloc::{AllocError, Global};
use tally_frac::is_at_least;

/// Which lists take part in the allotment, in their order: those with a vote whose votes reach
/// the profile's threshold (LOREG articles 163.1 a) and 96.5). `votes` has the votes of each list;
/// with the blank votes they are at most 5,000,000,000. The threshold is at most 10,000.
pub fn eligible(
    alloc: Global,
    profile: &Profile,
    votes: &[u64],
    blank: u64,
) -> Result<Vec<bool>, AllocError>
    requires votes { IsWithinVotes votes.now blank }
    requires threshold { profile.now.threshold ≤ whole_base }
    ensures { IfOk result (λ lists. lists.items ≡ eligible_lists profile.now votes.now blank) }
{
    let base = base_of(profile.base, votes, blank);
    let mut lists = Vec::with_capacity(alloc, votes.len())?;
    for list in votes {
        lists.push(is_eligible(profile.threshold, base, *list))?;
    }
    Ok(lists)
}

/// Whether a list of this many votes takes part: it has a vote, and its votes are at least
/// `threshold` ten-thousandths of the base. Votes and base are up to 5,000,000,000.
pub fn is_eligible(threshold: u32, base: u64, votes: u64) -> bool
    requires threshold { threshold ≤ whole_base }
    requires few_in_base { base ≤ most_votes }
    requires few_votes { votes ≤ most_votes }
    ensures { result ≡ is_eligible threshold base votes }
{
    votes > 0 && is_at_least(votes, threshold, base)
}

/// The votes that a threshold is a part of: those of the lists, and under `Valid` the blank ones.
pub fn base_of(base: Base, votes: &[u64], blank: u64) -> u64
    requires { IsWithinVotes votes.now blank }
    ensures value { result ≡ base_of base votes.now blank }
    ensures limit { result ≤ most_votes }
{
    let total = votes.iter().sum::<u64>();
    match base {
        Base::Valid => total + blank,
        Base::Lists => total,
    }
}
