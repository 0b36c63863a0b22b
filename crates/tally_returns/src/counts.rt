//! The numbers of a return.

ghost use Rattle.std.specs.Prelude.{◌≡◌, ◌^◌, ◌<◌, IfOk};
ghost use Rattle.std.specs.Cmp.Rules.{comparing};
ghost use Rattle.std.specs.List.{list_all};
ghost use Rattle.std.proofs.Common.{rules};
ghost use Rattle.tally_returns.specs.Counts.{are_counts, all_votes, is_number, same_counts};

use std::alloc::{AllocError, Global};
use std::marker::Model;

/// The greatest number that a return may hold.
const GREATEST: u32 = 1_000_000;

/// The votes for each list, in the setup's order of lists, the blank votes and the spoiled ones.
#[derive(Debug, Drop)]
pub struct Counts {
    pub votes: Vec<u32>,
    pub blank: u32,
    pub spoiled: u32,
}

impl Model for Counts {
    ghost use Rattle.tally_returns.specs.Counts.{VoteCounts};

    ghost Value = { VoteCounts };

    ghost view = { λ c. record { votes = c.votes.items; blank = c.blank; spoiled = c.spoiled } };
}

impl Counts {
    /// Whether there is one number for each of this many lists, and none is above 1,000,000.
    pub fn are_for(&self, lists: usize) -> bool
        ensures { result ≡ are_counts lists self.now }
    {
        self.votes.len() == lists
            && are_numbers(self.votes.as_slice())
            && is_number(self.blank)
            && is_number(self.spoiled)
    }

    /// Every vote that was cast: the blank and the spoiled ones count too.
    pub fn all_votes(&self) -> u64
        requires { all_votes self.now < 2 ^ 64 }
        ensures { result ≡ all_votes self.now }
    {
        let votes: u64 = self.votes.iter().map(|n| u64::from(*n)).sum();
        votes + u64::from(self.blank) + u64::from(self.spoiled)
    }

    /// A copy with the same numbers.
    pub fn try_copy(&self, alloc: Global) -> Result<Counts, AllocError>
        ensures { IfOk result (λ counts. counts ≡ self.now) }
    {
        Ok(Counts {
            votes: self.votes.as_slice().to_vec(alloc)?,
            blank: self.blank,
            spoiled: self.spoiled,
        })
    }
}

fn are_numbers(votes: &[u32]) -> bool
    ensures { result ≡ list_all is_number votes.now }
{
    votes.iter().all(|n| is_number(*n))
}

fn is_number(n: u32) -> bool
    ensures { result ≡ is_number n }
{
    n <= GREATEST
}

impl PartialEq for Counts {
    ghost eq = { same_counts };

    ghost laws = { Prim.search (comparing, rules) };

    fn eq(&self, other: &Counts) -> bool {
        self.votes == other.votes && self.blank == other.blank && self.spoiled == other.spoiled
    }
}

impl Eq for Counts {
    ghost laws = { Prim.search (comparing, rules) };
}
