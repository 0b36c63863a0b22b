//! The rank of a pair of a list and one of its seats.

ghost use Rattle.std.specs.Prelude.{◌≡◌, ◌≤◌, ◌↔◌, Some, IsSome, IfSome, IsTrue, refl};
ghost use Rattle.std.specs.Cmp.{partial_equiv_from_equiv, po};
ghost use Rattle.tally_frac.specs.Limits.{greatest_divisor, most_votes};
ghost use Rattle.tally_frac.specs.Rank.{IsWithinLimits, VotesRankAbove};
ghost use Rattle.tally_frac.specs.internal.RankOrder.{rank_cmp, same_pair, rank_cmp-total};
ghost use Rattle.tally_frac.specs.internal.RankOrder.{same_pair-equiv, same_pair-ties};

use crate::limits::{GREATEST_DIVISOR, MOST_LISTS, MOST_VOTES};
use std::cmp::Ordering;
use std::marker::Model;

/// The rank of a pair of a list and one of its seats: the greater of two keys is the pair that the
/// next seat goes to (LOREG article 163.1 c) and d)). Pairs rank by greater quotient of votes and
/// divisor, then by more votes, then by earlier place, and keys are equal where the pairs are.
#[derive(Clone, Copy, Debug)]
pub struct RankKey {
    votes: u64,
    divisor: u64,
    place: u32,
}

impl Model for RankKey {
    ghost use Rattle.tally_frac.specs.Rank.{Pair, IsWithinLimits};

    ghost Value = { Pair };

    ghost view = { λ key. record { votes = key.votes; divisor = key.divisor; place = key.place } };

    ghost invariant = { λ key.
        IsWithinLimits record { votes = key.votes; divisor = key.divisor; place = key.place } };

    ghost inverse = { λ pair.
        record { votes = pair.votes; divisor = pair.divisor; place = pair.place } };
}

impl RankKey {
    /// The key of a pair, or `None` outside votes 1 to 5,000,000,000, divisor 1 to 5,005 and place
    /// 1 to 60.
    pub fn new(votes: u64, divisor: u64, place: u32) -> Option<RankKey>
        ensures limits { IsSome result ↔
            IsWithinLimits record { votes = votes; divisor = divisor; place = place } }
        ensures value { IfSome result (λ key.
            key ≡ record { votes = votes; divisor = divisor; place = place }) }
    {
        let is_key = (1..=MOST_VOTES).contains(&votes)
            && (1..=GREATEST_DIVISOR).contains(&divisor)
            && (1..=MOST_LISTS).contains(&(place as usize));
        if !is_key {
            return None;
        }
        Some(RankKey {
            votes,
            divisor,
            place,
        })
    }
}

impl PartialEq for RankKey {
    ghost eq = { same_pair };

    ghost laws = { partial_equiv_from_equiv same_pair-equiv };

    fn eq(&self, other: &RankKey) -> bool {
        self.votes == other.votes && self.divisor == other.divisor && self.place == other.place
    }
}

impl Eq for RankKey {
    ghost laws = { same_pair-equiv };
}

impl PartialOrd for RankKey {
    ghost partial_cmp = { λ p q. Some (rank_cmp p q) };

    ghost laws = { po rank_cmp-total same_pair-ties };

    fn partial_cmp(&self, other: &RankKey) -> Option<Ordering> {
        Some(self.cmp(other))
    }
}

impl Ord for RankKey {
    ghost cmp = { rank_cmp };

    ghost total = { rank_cmp-total };

    ghost matches_partial_cmp = { λ p q. refl };

    ghost matches_eq = { same_pair-ties };

    // `votes_rank_above` answers no more than yes or no, and would be asked twice.
    fn cmp(&self, other: &RankKey) -> Ordering {
        // Both products are at most 5,000,000,000 * 5,005, which is below 2^64.
        let mine = self.votes * other.divisor;
        let theirs = other.votes * self.divisor;
        mine.cmp(&theirs)
            .then(self.votes.cmp(&other.votes))
            .then(other.place.cmp(&self.place))
    }
}

/// Whether votes by one divisor rank above other votes by another: by greater quotient of votes and
/// divisor, then by more votes (LOREG article 163.1 d), first half). Votes are up to 5,000,000,000
/// and divisors up to 5,005, so that no product reaches 2^64.
pub fn votes_rank_above(votes: u64, divisor: u64, other_votes: u64, other_divisor: u64) -> bool
    requires votes { votes ≤ most_votes }
    requires divisor { divisor ≤ greatest_divisor }
    requires other_votes { other_votes ≤ most_votes }
    requires other_divisor { other_divisor ≤ greatest_divisor }
    ensures { IsTrue result ↔ VotesRankAbove votes divisor other_votes other_divisor }
{
    let quotient = votes * other_divisor;
    let other_quotient = other_votes * divisor;
    if quotient != other_quotient {
        return quotient > other_quotient;
    }
    votes > other_votes
}
