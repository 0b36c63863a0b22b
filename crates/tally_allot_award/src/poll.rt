//! The votes of a poll, and which lists are eligible.

ghost use Rattle.std.specs.Prelude.{◌≡◌, ◌<◌, ◌≤◌, length, sum, slice_index, slice_index_or, false};
ghost use Rattle.tally_frac.specs.Limits.{most_lists, most_votes, whole_base};
ghost use Rattle.tally_setup.specs.Threshold.{IsWithinVotes};
ghost use Rattle.tally_law.specs.Poll.{eligible_votes};
ghost use Rattle.tally_law.specs.Rules.{poll_of};

use tally_setup::{Profile, base_of, is_eligible};

/// The votes of each list, and what a list needs to be eligible.
#[derive(Clone, Copy)]
pub struct Poll<'a> {
    /// The votes of each list, up to 60 lists and 5,000,000,000 votes together.
    pub votes: &'a [u64],
    /// The share that a list needs, in ten-thousandths of the base.
    pub threshold: u32,
    /// The votes that the threshold is taken of, up to 5,000,000,000.
    pub base: u64,
    ghost few_lists: { length votes.now ≤ most_lists },
    ghost few_votes: { sum votes.now ≤ most_votes },
    ghost whole_at_most: { threshold ≤ whole_base },
    ghost few_in_base: { base ≤ most_votes },
}

impl<'a> Poll<'a> {
    ghost use Rattle.tally_allot_award.specs.internal.KeptPoll.{kept_poll};

    /// The poll of these votes under a profile's threshold.
    pub fn new(profile: &Profile, votes: &'a [u64], blank: u64) -> Poll<'a>
        requires lists { length votes.now ≤ most_lists }
        requires votes { IsWithinVotes votes.now blank }
        requires threshold { profile.now.threshold ≤ whole_base }
        ensures votes { result.votes.now ≡ votes.now }
        ensures poll { kept_poll result ≡ poll_of profile.now votes.now blank }
    {
        Poll {
            votes,
            threshold: profile.threshold,
            base: base_of(profile.base, votes, blank),
        }
    }

    /// The votes of a list, by its number from 0.
    pub fn votes_of(&self, list: usize) -> u64
        requires { list < length self.now.votes.now }
        ensures votes { result ≡ slice_index self.now.votes.now list }
        ensures few { result ≤ most_votes }
    {
        self.votes[list]
    }

    /// Whether a list, by its number from 0, takes part in the allotment (LOREG article 163.1 a)).
    pub fn is_eligible(&self, list: usize) -> bool
        requires { list < length self.now.votes.now }
        ensures { result ≡ slice_index_or (kept_poll self.now).eligible list false }
    {
        is_eligible(self.threshold, self.base, self.votes[list])
    }

    /// The votes of the eligible lists together.
    pub fn eligible_votes(&self) -> u64
        ensures { result ≡ eligible_votes (kept_poll self.now) }
    {
        let mut total = 0;
        for list in 0..self.votes.len() {
            if self.is_eligible(list) {
                total += self.votes[list];
            }
        }
        total
    }
}
