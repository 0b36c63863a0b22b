//! What is found beside the seats of lists.

ghost use Rattle.std.specs.Prelude.{◌≡◌, ◌≢◌, ◌<◌, ℕ, Some, IfOk, IfErr, length};
ghost use Rattle.tally_allot.specs.AllotFault.{IsFaultOf};
ghost use Rattle.tally_setup.specs.declared.profile.Method.TheVariants.{Hare as by_hare};
ghost use Rattle.tally_report_lines.specs.internal.Awards.{AreAwardsAmong};
ghost use Rattle.tally_report_allotment.specs.AllotmentText.{AreDetails, AreDetailsBy};
ghost use Rattle.tally_report_allotment.specs.Question.{poll_asked, question, rule_asked};
ghost use Rattle.tally_report_allotment.specs.internal.Allotments.{AreSeatsOf, details_of};

use crate::question::Asked;
use std::alloc::Global;
use tally_allot::{AllotFault, Award, awards, next_list, votes_short};

/// Beside the seats of lists: the votes that each is short of one more, the list that is next, by
/// its number from 0, and the awards, if they are asked for. All are empty under Hare's rule.
#[derive(Drop)]
pub(crate) struct Found {
    pub(crate) short: Vec<Option<u64>>,
    pub(crate) next: Option<usize>,
    pub(crate) won: Vec<Award>,
}

/// The findings beside these seats.
pub(crate) fn found_beside(
    alloc: Global,
    asked: &Asked,
    seats: &[u32],
    with_awards: bool,
) -> Result<Found, AllotFault>
    requires { AreSeatsOf (question asked.now) seats.now }
    ensures details { IfOk result (λ found. AreDetailsBy (rule_asked (question asked.now))
        (poll_asked (question asked.now)) asked.now.lot.items asked.now.seats with_awards seats.now
        (details_of found)) }
    ensures next { IfOk result (λ found. (m : ℕ) → found.next ≡ Some m
        → m < length asked.now.lists.items) }
    ensures won { IfOk result (λ found.
        AreAwardsAmong (length asked.now.lists.items) found.won.items) }
    ensures fault { IfErr result (IsFaultOf (rule_asked (question asked.now))
        (poll_asked (question asked.now)) asked.now.seats asked.now.lot.items) }
{
    match asked.profile.method.divisor_rule() {
        Some(_rule) => found_by_divisors(alloc, asked, seats, with_awards),
        None => Ok(Found {
            short: Vec::new(alloc),
            next: None,
            won: Vec::new(alloc),
        }),
    }
}

fn found_by_divisors(
    alloc: Global,
    asked: &Asked,
    seats: &[u32],
    with_awards: bool,
) -> Result<Found, AllotFault>
    requires seats { AreSeatsOf (question asked.now) seats.now }
    requires by_divisors { asked.now.profile.method ≢ by_hare }
    ensures details { IfOk result (λ found. AreDetails (rule_asked (question asked.now))
        (poll_asked (question asked.now)) asked.now.lot.items asked.now.seats with_awards seats.now
        (details_of found)) }
    ensures next { IfOk result (λ found. (m : ℕ) → found.next ≡ Some m
        → m < length asked.now.lists.items) }
    ensures won { IfOk result (λ found.
        AreAwardsAmong (length asked.now.lists.items) found.won.items) }
    ensures fault { IfErr result (IsFaultOf (rule_asked (question asked.now))
        (poll_asked (question asked.now)) asked.now.seats asked.now.lot.items) }
{
    let profile = &asked.profile;
    let votes = asked.votes.as_slice();
    let short = votes_short(alloc, profile, asked.seats, votes, asked.blank, &asked.lot)?;
    let next = next_list(profile, asked.seats, votes, asked.blank, seats);
    if !with_awards {
        return Ok(Found {
            short,
            next,
            won: Vec::new(alloc),
        });
    }
    let won = awards(alloc, profile, asked.seats, votes, asked.blank, &asked.lot)?;
    Ok(Found { short, next, won })
}
