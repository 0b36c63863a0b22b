//! The list that is next.

ghost use Rattle.std.specs.Prelude.{◌≡◌, ◌≢◌, ℕ, ◌+◌, ◌≤◌, ◌<◌, ◌↔◌, IsTrue, Some, length};
ghost use Rattle.std.specs.Prelude.{slice_index};
ghost use Rattle.tally_frac.specs.Limits.{most_seats};
ghost use Rattle.tally_frac.specs.Rank.{VotesRankAbove};
ghost use Rattle.tally_setup.specs.declared.profile.Method.TheVariants.{Hare as by_hare};
ghost use Rattle.tally_allot_award.specs.internal.KeptPoll.{kept_poll};
ghost use Rattle.tally_law.specs.Conditions.{AreLimitsKept};
ghost use Rattle.tally_law.specs.Poll.{SharesOut, votes_of};
ghost use Rattle.tally_law.specs.Rules.{poll_of, rule_of};
ghost use Rattle.tally_allot.specs.Next.{HasNextSeat, IsNext, IsNextBy};

use tally_allot_award::Poll;
use tally_frac::{Divisors, votes_rank_above};
use tally_setup::Profile;

/// The list that would win one more seat under a divisor rule, by its number from 0: by the votes
/// alone its next seat ranks above that of each other eligible list. `held` has the seats that the
/// lists have. `None` where several lists share the highest rank, or no list is eligible.
pub fn next_list(
    profile: &Profile,
    seats: u32,
    votes: &[u64],
    blank: u64,
    held: &[u32],
) -> Option<usize>
    requires limits { AreLimitsKept profile.now seats votes.now blank }
    requires by_divisors { profile.now.method ≢ by_hare }
    requires held { SharesOut (poll_of profile.now votes.now blank) seats held.now }
    ensures next { IsNext (rule_of profile.now) (poll_of profile.now votes.now blank) held.now
        result }
    ensures listed { (m : ℕ) → result ≡ Some m → m < length votes.now }
{
    let poll = Poll::new(profile, votes, blank);
    let Some(divisors) = profile.method.divisor_rule() else {
        unreachable!()
    };
    next_by(&divisors, &poll, seats, held)
}

fn next_by<D: Divisors>(divisors: &D, poll: &Poll, seats: u32, held: &[u32]) -> Option<usize>
    requires few { seats ≤ most_seats }
    requires held { SharesOut (kept_poll poll.now) seats held.now }
    ensures next { IsNextBy (D.divisor divisors.now) (D.unit_of divisors.now) (kept_poll poll.now)
        held.now result }
    ensures listed { (m : ℕ) → result ≡ Some m → m < length poll.now.votes.now }
{
    for list in 0..held.len() {
        if is_next(divisors, poll, seats, held, list) {
            return Some(list);
        }
    }
    None
}

/// Whether the next seat of a list ranks above that of each other eligible list.
fn is_next<D: Divisors>(divisors: &D, poll: &Poll, seats: u32, held: &[u32], list: usize) -> bool
    requires few { seats ≤ most_seats }
    requires held { SharesOut (kept_poll poll.now) seats held.now }
    requires list { list < length held.now }
    ensures { IsTrue result ↔ HasNextSeat (D.divisor divisors.now) (D.unit_of divisors.now)
        (kept_poll poll.now) held.now list }
{
    if !poll.is_eligible(list) {
        return false;
    }
    for other in 0..held.len() {
        if other == list || !poll.is_eligible(other) {
            continue;
        }
        if !has_next_above(divisors, poll, seats, held, list, other) {
            return false;
        }
    }
    true
}

/// Whether the next seat of a list ranks above that of another one, by the votes alone.
fn has_next_above<D: Divisors>(
    divisors: &D,
    poll: &Poll,
    seats: u32,
    held: &[u32],
    list: usize,
    other: usize,
) -> bool
    requires few { seats ≤ most_seats }
    requires held { SharesOut (kept_poll poll.now) seats held.now }
    requires list { list < length held.now }
    requires other { other < length held.now }
    ensures { IsTrue result ↔ VotesRankAbove (votes_of (kept_poll poll.now) list)
        (D.divisor divisors.now (slice_index held.now list + 1))
        (votes_of (kept_poll poll.now) other)
        (D.divisor divisors.now (slice_index held.now other + 1)) }
{
    votes_rank_above(
        poll.votes_of(list),
        divisors.nth(held[list] + 1),
        poll.votes_of(other),
        divisors.nth(held[other] + 1),
    )
}
