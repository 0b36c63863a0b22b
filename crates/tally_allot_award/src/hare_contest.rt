//! Contests under Hare's rule.

ghost use Rattle.std.specs.Prelude.{◌≡◌, ℕ, ◌*◌, ◌<◌, ◌≤◌, length, slice_index, slice_index_or};
ghost use Rattle.tally_frac.specs.Limits.{most_lists, most_seats};
ghost use Rattle.tally_law.specs.Poll.{IsEligible};
ghost use Rattle.tally_law.specs.HareAllotment as spec;
ghost use Rattle.tally_law.specs.Allotment.{hare};
ghost use Rattle.tally_law.specs.Lot.{place_of};
ghost use Rattle.tally_allot_award.specs.internal.KeptPoll.{kept_poll};
ghost use Rattle.tally_allot_award.specs.internal.Quotas.{quota_of};
ghost use Rattle.tally_allot_award.specs.declared.quota.Quota.{Quota as row_type};

use crate::contest::Contest;
use crate::lot::places_under;
use crate::poll::Poll;
use crate::quota::{Quota, quotas_of};
use tally_frac::MOST_LISTS;

/// The lists of a poll that contest the seats that whole quotas leave over.
#[derive(Drop)]
pub struct HareContest<'a> {
    /// The votes.
    pub poll: Poll<'a>,
    /// The lot: places of lists, from 1, in its order, and empty where none is given.
    pub lot: &'a [u32],
    /// The seats to be allotted, up to 500.
    pub seats: u32,
    /// The quotas of the lists, by their numbers from 0.
    quotas: [Quota; MOST_LISTS],
    /// The places of the lists under the lot, by their numbers from 0.
    places: [usize; MOST_LISTS],
    ghost few_seats: { seats ≤ most_seats },
    ghost quotas_are: { (l : ℕ) (d : row_type) → l < length poll.votes.now →
        slice_index_or quotas l d ≡ quota_of (kept_poll poll) seats l },
    ghost places_are: { (l : ℕ) → l < most_lists → slice_index places l ≡ place_of lot.now l },
}

impl<'a> HareContest<'a> {
    ghost use Rattle.tally_allot_award.specs.internal.ContestTerms.{hare_terms, terms_under};
    ghost use Rattle.tally_allot_award.specs.internal.Terms.{AreSound};

    /// The contest of the lists of a poll for 1 to 500 seats, under a lot.
    pub fn new(poll: &Poll<'a>, lot: &'a [u32], seats: u32) -> HareContest<'a>
        requires some_seat { 1 ≤ seats }
        requires few_seats { seats ≤ most_seats }
        ensures terms { hare_terms result ≡ terms_under hare poll.now lot.now seats }
        ensures sound { AreSound (hare_terms result) }
    {
        HareContest {
            poll: *poll,
            lot,
            seats,
            quotas: quotas_of(poll, seats),
            places: places_under(lot),
        }
    }

    /// The place of a list under the lot.
    pub(crate) fn place_of(&self, list: usize) -> usize
        requires { list < most_lists }
        ensures { result ≡ place_of self.now.lot.now list }
    {
        self.places[list]
    }

    /// The whole quotas of an eligible list.
    pub fn whole_quotas(&self, list: usize) -> u32
        requires list { list < length self.now.poll.votes.now }
        requires eligible { IsEligible (kept_poll self.now.poll) list }
        ensures { result ≡ spec.whole_quotas (kept_poll self.now.poll) self.now.seats list }
    {
        self.quotas[list].floor
    }

    /// The rest of an eligible list's votes after the whole quotas, times the seats.
    pub fn remainder(&self, list: usize) -> u64
        requires list { list < length self.now.poll.votes.now }
        requires eligible { IsEligible (kept_poll self.now.poll) list }
        ensures { result ≡ spec.remainder (kept_poll self.now.poll) self.now.seats list }
    {
        self.quotas[list].remainder
    }
}

impl Contest for HareContest<'_> {
    ghost terms = { λ c. record {
      rule = hare;
      poll = kept_poll c.poll;
      lot = c.lot.now;
      seats = c.seats;
    } };

    fn count(&self) -> usize {
        self.poll.votes.len()
    }

    fn seats(&self) -> u32 {
        self.seats
    }

    fn lot(&self) -> &[u32] {
        self.lot
    }

    fn votes(&self, list: usize) -> u64 {
        self.poll.votes_of(list)
    }

    fn is_eligible(&self, list: usize) -> bool {
        self.poll.is_eligible(list)
    }

    fn floor(&self, list: usize) -> u32 {
        self.quotas[list].floor
    }

    fn cap(&self, list: usize) -> u32 {
        self.quotas[list].cap
    }

    fn is_above(&self, list: usize, _seat: u32, other: usize, _other_seat: u32) -> bool {
        let remainder = self.remainder(list);
        let other_remainder = self.remainder(other);
        if remainder != other_remainder {
            return remainder > other_remainder;
        }
        let votes = self.poll.votes_of(list);
        let other_votes = self.poll.votes_of(other);
        if votes != other_votes {
            return votes > other_votes;
        }
        self.place_of(list) < self.place_of(other)
    }

    fn is_above_by_votes(&self, list: usize, _seat: u32, other: usize, _other_seat: u32) -> bool {
        let remainder = self.remainder(list);
        let other_remainder = self.remainder(other);
        if remainder != other_remainder {
            return remainder > other_remainder;
        }
        self.poll.votes_of(list) > self.poll.votes_of(other)
    }
}
