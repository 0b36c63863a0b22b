//! Quotas and remainders.

ghost use Rattle.std.specs.Prelude.{◌≡◌, ◌<◌, IfOk, IfErr, OnOk, length};
ghost use Rattle.tally_setup.specs.declared.profile.Method.TheVariants.{Hare as by_hare};
ghost use Rattle.tally_allot_award.specs.internal.KeptPoll.{kept_poll};
ghost use Rattle.tally_allot_award.specs.internal.ContestTerms.{hare_terms};
ghost use Rattle.tally_allot_award.specs.internal.Terms.{AreSound};
ghost use Rattle.tally_law.specs.Allotment.{hare};
ghost use Rattle.tally_allot.specs.AllotFault.{IsFaultOf};
ghost use Rattle.tally_allot.specs.internal.OnTerms.{IsFaultOn, IsLotTakenOn};
ghost use Rattle.tally_law.specs.Conditions.{AreLimitsKept};
ghost use Rattle.tally_allot.specs.QuotaRows.{quota_rows, AreQuotaRows};
ghost use Rattle.tally_law.specs.Rules.{poll_of};
ghost use Rattle.tally_law.specs.LotNeed.{IsLotTaken};
ghost use Rattle.tally_law.specs.Poll.{HasEligible};

use crate::fault::AllotFault;
use crate::quota_row::QuotaRow;
use crate::under_lot::seats_by_remainders;
use std::alloc::{AllocError, Global};
use tally_allot_award::{Contest, HareContest, Poll};
use tally_setup::Profile;

/// The whole quotas and remainders of the eligible lists, in order of place, for a profile by
/// Hare's rule. It refuses as `allot` does.
pub fn quotas(
    alloc: Global,
    profile: &Profile,
    seats: u32,
    votes: &[u64],
    blank: u64,
    lot: &[u32],
) -> Result<Vec<QuotaRow>, AllotFault>
    requires limits { AreLimitsKept profile.now seats votes.now blank }
    requires by_quotas { profile.now.method ≡ by_hare }
    ensures rows { IfOk result (λ rows.
        AreQuotaRows (poll_of profile.now votes.now blank) lot.now seats rows.items) }
    ensures lot_taken { OnOk result
        (IsLotTaken hare (poll_of profile.now votes.now blank) seats lot.now) }
    ensures eligible { OnOk result (HasEligible (poll_of profile.now votes.now blank)) }
    ensures fault { IfErr result
        (IsFaultOf hare (poll_of profile.now votes.now blank) seats lot.now) }
{
    let poll = Poll::new(profile, votes, blank);
    let contest = HareContest::new(&poll, lot, seats);
    quotas_in(alloc, &contest)
}

fn quotas_in(alloc: Global, contest: &HareContest) -> Result<Vec<QuotaRow>, AllotFault>
    requires sound { AreSound (hare_terms contest.now) }
    ensures rows { IfOk result (λ rows.
        AreQuotaRows (kept_poll contest.now.poll) contest.now.lot.now contest.now.seats
        rows.items) }
    ensures lot_taken { OnOk result (IsLotTakenOn (hare_terms contest.now)) }
    ensures eligible { OnOk result (HasEligible (kept_poll contest.now.poll)) }
    ensures fault { IfErr result (IsFaultOn (hare_terms contest.now)) }
{
    let given = seats_by_remainders(alloc, contest)?;
    let rows = rows_of(alloc, contest, &given)?;
    Ok(rows)
}

fn rows_of(alloc: Global, contest: &HareContest, given: &[u32]) -> Result<Vec<QuotaRow>, AllocError>
    requires { length given.now ≡ length contest.now.poll.votes.now }
    ensures { IfOk result (λ rows.
        rows.items ≡
        quota_rows (kept_poll contest.now.poll) contest.now.seats given.now (length given.now)) }
{
    let mut rows = Vec::new(alloc);
    for list in 0..given.len() {
        if contest.is_eligible(list) {
            let whole = contest.whole_quotas(list);
            rows.push(QuotaRow {
                list: list as u32 + 1,
                whole,
                rem: contest.remainder(list),
                extra: given[list] > whole,
            })?;
        }
    }
    Ok(rows)
}
