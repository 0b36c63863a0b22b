//! A contest of lists for the seats of a poll, whichever the rule.

ghost use Rattle.std.specs.Prelude.{◌≡◌, ℕ, ◌+◌, ◌<◌, ◌≤◌, ◌↔◌, IsTrue, MatchOption, length};
ghost use Rattle.std.specs.Prelude.{slice_index, slice_index_or, sum, false};
ghost use Rattle.tally_frac.specs.Limits.{most_lists};
ghost use Rattle.tally_law.specs.Poll.{HasEligible, votes_of};
ghost use Rattle.tally_allot_award.specs.internal.Race.{IsPair, IsWithin, IsFair, IsHighestNext};
ghost use Rattle.tally_allot_award.specs.internal.Race.{IsLowestLast, IsHighestBefore};
ghost use Rattle.tally_allot_award.specs.internal.Race.{IsLowestBefore};
ghost use Rattle.tally_allot_award.specs.internal.Race.{IsLastFair, CanHold, IsNextAbove};
ghost use Rattle.tally_allot_award.specs.internal.Terms.{AreFairSoFar, AreSound, Terms};
ghost use Rattle.tally_allot_award.specs.internal.Terms.{placed_race};
ghost use Rattle.tally_allot_award.specs.internal.Terms.{vote_race};

/// The lists that contest the seats of a poll, under a rule and a lot. Lists are numbered from 0.
/// The pair of a list and a number of a seat, from 1, is one of the contest where that list may
/// still hold this many seats and more than it holds in any case.
pub trait Contest {
    ghost terms: { Self → Terms };

    /// How many lists there are, up to 60.
    fn count(&self) -> usize
        ensures count { result ≡ length (terms self.now).poll.votes }
        ensures few { result ≤ most_lists };

    /// The seats to be allotted.
    fn seats(&self) -> u32
        ensures { result ≡ (terms self.now).seats };

    /// The lot that is given: places, in order.
    fn lot(&self) -> &[u32]
        ensures { result.now ≡ (terms self.now).lot };

    /// The votes of a list.
    fn votes(&self, list: usize) -> u64
        requires { list < length (terms self.now).poll.votes }
        ensures { result ≡ votes_of (terms self.now).poll list };

    /// Whether a list takes part.
    fn is_eligible(&self, list: usize) -> bool
        requires { list < length (terms self.now).poll.votes }
        ensures { result ≡ slice_index_or (terms self.now).poll.eligible list false };

    /// The seats that a list holds in any case.
    fn floor(&self, list: usize) -> u32
        requires { list < length (terms self.now).poll.votes }
        ensures { result ≡ (placed_race (terms self.now)).floor list };

    /// The most seats that a list may hold.
    fn cap(&self, list: usize) -> u32
        requires { list < length (terms self.now).poll.votes }
        ensures { result ≡ (placed_race (terms self.now)).cap list };

    /// Whether one pair ranks above another, with the places of the lot.
    fn is_above(&self, list: usize, seat: u32, other: usize, other_seat: u32) -> bool
        requires list { list < length (terms self.now).poll.votes }
        requires other { other < length (terms self.now).poll.votes }
        requires pair { IsPair (placed_race (terms self.now)) list seat }
        requires other_pair { IsPair (placed_race (terms self.now)) other other_seat }
        ensures { IsTrue result ↔
            (placed_race (terms self.now)).Above list seat other other_seat };

    /// Whether one pair ranks above another by the votes alone.
    fn is_above_by_votes(&self, list: usize, seat: u32, other: usize, other_seat: u32) -> bool
        requires list { list < length (terms self.now).poll.votes }
        requires other { other < length (terms self.now).poll.votes }
        requires pair { IsPair (vote_race (terms self.now)) list seat }
        requires other_pair { IsPair (vote_race (terms self.now)) other other_seat }
        ensures { IsTrue result ↔ (vote_race (terms self.now)).Above list seat other other_seat };
}

/// Whether some list is eligible.
pub fn has_eligible<C: Contest>(contest: &C) -> bool
    requires sound { AreSound (C.terms contest.now) }
    ensures { IsTrue result ↔ HasEligible (C.terms contest.now).poll }
{
    for list in 0..contest.count() {
        if contest.is_eligible(list) {
            return true;
        }
    }
    false
}

/// The list whose next pair ranks highest among those that may hold more, if any may.
pub(crate) fn highest_next<C: Contest>(contest: &C, seats: &[u32]) -> Option<usize>
    requires sound { AreSound (C.terms contest.now) }
    requires within { IsWithin (placed_race (C.terms contest.now)) seats.now }
    ensures { MatchOption result
        ((m : ℕ) → (placed_race (C.terms contest.now)).cap m ≤ slice_index seats.now m)
        (λ l. IsHighestNext (placed_race (C.terms contest.now)) seats.now l) }
{
    let mut highest = None;
    for list in 0..contest.count() {
        highest = higher_next(contest, seats, highest, list);
    }
    highest
}

/// The list with the higher next pair: the one found among the lists before, or this one.
#[tactic(auto, using(crate::proofs::Scan::higher_takes))]
fn higher_next<C: Contest>(
    contest: &C,
    seats: &[u32],
    before: Option<usize>,
    list: usize,
) -> Option<usize>
    requires sound { AreSound (C.terms contest.now) }
    requires within { IsWithin (placed_race (C.terms contest.now)) seats.now }
    requires list { list < length (C.terms contest.now).poll.votes }
    requires before { IsHighestBefore (placed_race (C.terms contest.now)) seats.now list before }
    ensures { IsHighestBefore (placed_race (C.terms contest.now)) seats.now (list + 1) result }
{
    let held = seats[list];
    if held >= contest.cap(list) {
        return before;
    }
    match before {
        None => Some(list),
        Some(other) => {
            let other_held = seats[other];
            if contest.is_above(list, held + 1, other, other_held + 1) {
                Some(list)
            } else {
                Some(other)
            }
        }
    }
}

/// The list whose last pair ranks lowest among those that have won a seat, if any has.
pub(crate) fn lowest_last<C: Contest>(contest: &C, seats: &[u32]) -> Option<usize>
    requires sound { AreSound (C.terms contest.now) }
    requires within { IsWithin (placed_race (C.terms contest.now)) seats.now }
    ensures { MatchOption result
        ((m : ℕ) → slice_index seats.now m ≤ (placed_race (C.terms contest.now)).floor m)
        (λ l. IsLowestLast (placed_race (C.terms contest.now)) seats.now l) }
{
    let mut lowest = None;
    for list in 0..contest.count() {
        lowest = lower_last(contest, seats, lowest, list);
    }
    lowest
}

/// The list with the lower last pair: the one found among the lists before, or this one.
fn lower_last<C: Contest>(
    contest: &C,
    seats: &[u32],
    before: Option<usize>,
    list: usize,
) -> Option<usize>
    requires sound { AreSound (C.terms contest.now) }
    requires within { IsWithin (placed_race (C.terms contest.now)) seats.now }
    requires list { list < length (C.terms contest.now).poll.votes }
    requires before { IsLowestBefore (placed_race (C.terms contest.now)) seats.now list before }
    ensures { IsLowestBefore (placed_race (C.terms contest.now)) seats.now (list + 1) result }
{
    let held = seats[list];
    if held <= contest.floor(list) {
        return before;
    }
    match before {
        None => Some(list),
        Some(other) => {
            if contest.is_above(other, seats[other], list, held) {
                Some(list)
            } else {
                Some(other)
            }
        }
    }
}

/// Gives this many seats more, each to the list whose next pair ranks highest.
pub(crate) fn award<C: Contest>(contest: &C, seats: &mut [u32], number: u32)
    requires sound { AreSound (C.terms contest.now) }
    requires fair { AreFairSoFar (C.terms contest.now) seats.old }
    requires room { CanHold (placed_race (C.terms contest.now)) (sum seats.old + number) }
    ensures { IsFair (placed_race (C.terms contest.now)) (sum seats.old + number) seats.new }
{
    for _seat in 0..number {
        match highest_next(contest, seats) {
            Some(list) => seats[list] += 1,
            None => unreachable!(),
        }
    }
}

/// Whether no list's last pair ranks below another list's next: the inequality itself, over all
/// pairs of lists.
pub fn is_fair<C: Contest>(contest: &C, seats: &[u32]) -> bool
    requires sound { AreSound (C.terms contest.now) }
    requires one_each { length seats.now ≡ length (C.terms contest.now).poll.votes }
    ensures { IsTrue result ↔ AreFairSoFar (C.terms contest.now) seats.now }
{
    if !is_within(contest, seats) {
        return false;
    }
    for list in 0..contest.count() {
        if seats[list] > contest.floor(list) && !is_last_fair(contest, seats, list) {
            return false;
        }
    }
    true
}

/// Whether each list holds what it holds in any case, and no more than it may.
fn is_within<C: Contest>(contest: &C, seats: &[u32]) -> bool
    requires sound { AreSound (C.terms contest.now) }
    requires one_each { length seats.now ≡ length (C.terms contest.now).poll.votes }
    ensures { IsTrue result ↔ IsWithin (placed_race (C.terms contest.now)) seats.now }
{
    for list in 0..contest.count() {
        let held = seats[list];
        if held < contest.floor(list) || held > contest.cap(list) {
            return false;
        }
    }
    true
}

/// Whether a list's last pair ranks below no other list's next.
fn is_last_fair<C: Contest>(contest: &C, seats: &[u32], list: usize) -> bool
    requires sound { AreSound (C.terms contest.now) }
    requires within { IsWithin (placed_race (C.terms contest.now)) seats.now }
    requires list { list < length (C.terms contest.now).poll.votes }
    requires wins { (placed_race (C.terms contest.now)).floor list < slice_index seats.now list }
    ensures { IsTrue result ↔ IsLastFair (placed_race (C.terms contest.now)) seats.now list }
{
    let held = seats[list];
    for other in 0..contest.count() {
        if other != list && is_next_above(contest, seats, other, list, held) {
            return false;
        }
    }
    true
}

/// Whether a list may hold more and its next pair ranks above the pair of another.
fn is_next_above<C: Contest>(
    contest: &C,
    seats: &[u32],
    list: usize,
    other: usize,
    other_seat: u32,
) -> bool
    requires sound { AreSound (C.terms contest.now) }
    requires within { IsWithin (placed_race (C.terms contest.now)) seats.now }
    requires list { list < length (C.terms contest.now).poll.votes }
    requires other { other < length (C.terms contest.now).poll.votes }
    requires pair { IsPair (placed_race (C.terms contest.now)) other other_seat }
    ensures { IsTrue result ↔
        IsNextAbove (placed_race (C.terms contest.now)) seats.now list other other_seat }
{
    let held = seats[list];
    held < contest.cap(list) && contest.is_above(list, held + 1, other, other_seat)
}
