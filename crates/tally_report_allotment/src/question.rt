//! A question: votes, and the rule by which they become seats.

ghost use Rattle.std.specs.Prelude.{◌≡◌, length};
ghost use Rattle.tally_law.specs.Conditions.{AreLimitsKept};

use tally_setup::{Code, Profile};

/// Votes, and the rule by which they become seats.
#[derive(Drop)]
pub struct Asked {
    /// The rule.
    pub profile: Profile,
    /// The seats, 1 to 500.
    pub seats: u32,
    /// The codes of the 1 to 60 lists.
    pub lists: Vec<Code>,
    /// The votes of each list. With the blank ones they are at most 5,000,000,000.
    pub votes: Vec<u64>,
    /// The blank votes.
    pub blank: u64,
    /// The places of the lists that a lot was drawn among, in its order, or none.
    pub lot: Vec<u32>,
    ghost limits: { AreLimitsKept profile seats votes.items blank },
    ghost one_each: { length lists.items ≡ length votes.items },
}
