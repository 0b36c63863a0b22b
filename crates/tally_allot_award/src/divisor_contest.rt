//! Contests under a divisor rule.

ghost use Rattle.std.specs.Prelude.{◌≡◌, ℕ, ◌<◌, ◌≤◌, false, slice_index, slice_index_or};
ghost use Rattle.tally_frac.specs.Limits.{most_lists, most_seats};
ghost use Rattle.tally_allot_award.specs.internal.KeptPoll.{kept_poll};
ghost use Rattle.tally_law.specs.Allotment.{divisors as by_divisors};
ghost use Rattle.tally_law.specs.Lot.{place_of};
ghost use Rattle.tally_allot_award.specs.internal.Pairs.{place_at, turns};

use crate::contest::Contest;
use crate::lot::{places_under, turning_under};
use crate::poll::Poll;
use tally_frac::{Divisors, ListSet, MOST_LISTS, votes_rank_above};
use tally_setup::LotRule;

/// The lists of a poll that contest its seats under a divisor rule (LOREG article 163.1 b) to d)).
#[derive(Drop)]
pub struct DivisorContest<'a, D> {
    /// The rule.
    pub divisors: D,
    /// How the lot decides.
    pub lot_rule: LotRule,
    /// The votes.
    pub poll: Poll<'a>,
    /// The lot: places of lists, from 1, in its order, and empty where none is given.
    pub lot: &'a [u32],
    /// The seats to be allotted, up to 500.
    pub seats: u32,
    /// The places of the lists under the lot, by their numbers from 0.
    places: [usize; MOST_LISTS],
    /// The lists whose places are counted from the last for even seats.
    turning: ListSet,
    ghost few_seats: { seats ≤ most_seats },
    ghost places_are: { (l : ℕ) → l < most_lists → slice_index places l ≡ place_of lot.now l },
    ghost turning_is: { (l : ℕ) → l < most_lists →
        slice_index_or turning l false ≡ turns lot_rule lot.now l },
}

impl<'a, D: Divisors> DivisorContest<'a, D> {
    ghost use Rattle.tally_allot_award.specs.internal.ContestTerms.{divisor_terms, terms_under};
    ghost use Rattle.tally_allot_award.specs.internal.Terms.{AreSound};

    /// The contest of the lists of a poll for 1 to 500 seats, under a rule and a lot.
    pub fn new(
        divisors: D,
        lot_rule: LotRule,
        poll: &Poll<'a>,
        lot: &'a [u32],
        seats: u32,
    ) -> DivisorContest<'a, D>
        requires some_seat { 1 ≤ seats }
        requires few_seats { seats ≤ most_seats }
        ensures terms { divisor_terms D.divisor D.unit_of result ≡ terms_under
            (by_divisors (D.divisor divisors) (D.unit_of divisors) lot_rule)
            poll.now lot.now seats }
        ensures sound { AreSound (divisor_terms D.divisor D.unit_of result) }
    {
        DivisorContest {
            divisors,
            lot_rule,
            poll: *poll,
            lot,
            seats,
            places: places_under(lot),
            turning: turning_under(lot_rule, lot),
        }
    }

    /// The place of a list for one of its seats: where its place turns and the seat is even, it is
    /// counted from the last.
    pub(crate) fn place_at(&self, list: usize, seat: u32) -> usize
        requires { list < most_lists }
        ensures { result ≡ place_at self.now.lot_rule self.now.lot.now list seat }
    {
        let place = self.places[list];
        if self.turning.has_list(list) && seat % 2 == 0 {
            (MOST_LISTS.max(self.lot.len()) + 1).saturating_sub(place)
        } else {
            place
        }
    }
}

impl<D: Divisors> Contest for DivisorContest<'_, D> {
    ghost terms = { λ c. record {
      rule = by_divisors (D.divisor c.divisors) (D.unit_of c.divisors) c.lot_rule;
      poll = kept_poll c.poll;
      lot = c.lot.now;
      seats = c.seats;
    } };

    fn count(&self) -> usize {
        self.poll.votes.len()
    }

    fn seats(&self) -> u32 {
        self.seats
    }

    fn lot(&self) -> &[u32] {
        self.lot
    }

    fn votes(&self, list: usize) -> u64 {
        self.poll.votes_of(list)
    }

    fn is_eligible(&self, list: usize) -> bool {
        self.poll.is_eligible(list)
    }

    fn floor(&self, _list: usize) -> u32 {
        0
    }

    fn cap(&self, list: usize) -> u32 {
        if self.poll.is_eligible(list) {
            self.seats
        } else {
            0
        }
    }

    fn is_above(&self, list: usize, seat: u32, other: usize, other_seat: u32) -> bool {
        let votes = self.poll.votes_of(list);
        let divisor = self.divisors.nth(seat);
        let other_votes = self.poll.votes_of(other);
        let other_divisor = self.divisors.nth(other_seat);
        if votes_rank_above(votes, divisor, other_votes, other_divisor) {
            return true;
        }
        if votes_rank_above(other_votes, other_divisor, votes, divisor) {
            return false;
        }
        self.place_at(list, seat) < self.place_at(other, other_seat)
    }

    fn is_above_by_votes(&self, list: usize, seat: u32, other: usize, other_seat: u32) -> bool {
        votes_rank_above(
            self.poll.votes_of(list),
            self.divisors.nth(seat),
            self.poll.votes_of(other),
            self.divisors.nth(other_seat),
        )
    }
}
