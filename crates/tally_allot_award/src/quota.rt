//! What lists hold under Hare's rule by their quotas.

ghost use Rattle.std.specs.Prelude.{◌≡◌, ℕ, ◌<◌, ◌≤◌, length, slice_index_or};
ghost use Rattle.tally_frac.specs.Limits.{most_seats};
ghost use Rattle.tally_allot_award.specs.internal.KeptPoll.{kept_poll};
ghost use Rattle.tally_law.specs.Poll.{eligible_votes};
ghost use Rattle.tally_allot_award.specs.internal.Quotas.{quota_of};
ghost use Rattle.tally_allot_award.specs.declared.quota.Quota.{Quota as row_type};

use crate::poll::Poll;
use tally_frac::MOST_LISTS;

/// A list's part by its quotas. All are 0 for a list that is not eligible.
#[derive(Clone, Copy)]
pub(crate) struct Quota {
    /// The seats that it holds in any case: its whole quotas.
    pub(crate) floor: u32,
    /// The most seats that it may hold.
    pub(crate) cap: u32,
    /// The rest of its votes after the whole quotas, times the seats.
    pub(crate) remainder: u64,
}

/// The quotas of the lists of a poll, each worked out once.
pub(crate) fn quotas_of(poll: &Poll, seats: u32) -> [Quota; MOST_LISTS]
    requires { seats ≤ most_seats }
    ensures { (l : ℕ) (d : row_type) → l < length poll.now.votes.now →
        slice_index_or result l d ≡ quota_of (kept_poll poll.now) seats l }
{
    let total = poll.eligible_votes();
    let mut quotas = [Quota {
        floor: 0,
        cap: 0,
        remainder: 0,
    }; MOST_LISTS];
    for list in 0..poll.votes.len() {
        quotas[list] = quota_from_total(poll, seats, total, list);
    }
    quotas
}

/// The quota of a list, where the eligible lists have this many votes together: at most
/// 5,000,000,000 * 500 is divided.
fn quota_from_total(poll: &Poll, seats: u32, total: u64, list: usize) -> Quota
    requires seats { seats ≤ most_seats }
    requires total { total ≡ eligible_votes (kept_poll poll.now) }
    requires list { list < length poll.now.votes.now }
    ensures { result ≡ quota_of (kept_poll poll.now) seats list }
{
    if !poll.is_eligible(list) {
        return Quota {
            floor: 0,
            cap: 0,
            remainder: 0,
        };
    }
    let product = poll.votes_of(list) * u64::from(seats);
    let floor = (product / total) as u32;
    Quota {
        floor,
        cap: floor + 1,
        remainder: product % total,
    }
}
