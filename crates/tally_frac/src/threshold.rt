//! The threshold that a list has to reach.

ghost use Rattle.std.specs.Prelude.{◌*◌, ◌≤◌, ◌↔◌, IsTrue};
ghost use Rattle.tally_frac.specs.Limits.{most_votes, whole_base};

use crate::limits::WHOLE_BASE;

/// Whether `votes` are at least `threshold` ten-thousandths of `base`. LOREG article 163.1 a) sets
/// 3 per cent of the valid votes, a threshold of 300. Votes are up to 5,000,000,000 and the
/// threshold up to 10,000, so that no product reaches 2^64.
pub fn is_at_least(votes: u64, threshold: u32, base: u64) -> bool
    requires few_votes { votes ≤ most_votes }
    requires few_in_base { base ≤ most_votes }
    requires threshold { threshold ≤ whole_base }
    ensures { IsTrue result ↔ (threshold * base ≤ votes * whole_base) }
{
    votes * u64::from(WHOLE_BASE) >= u64::from(threshold) * base
}
