//! What is decided of a Lodge.

ghost use Rattle.std.specs.Prelude.{◌≡◌, ◌≤◌, IfErr, OnOk, None, Some};
ghost use Rattle.std.specs.Option.{option_copied};
ghost use Rattle.tally_frac.specs.Limits.{most_lists};
ghost use Rattle.tally_setup.specs.declared.constituency.Entry.TheVariants.{Single};
ghost use Rattle.tally_returns.specs.Checks.{first_refusal};
ghost use Rattle.tally_returns.specs.Lodge.{reply_where_recorded, counts_checks, reply_at_station};
ghost use Rattle.tally_returns.specs.Lodge.{limits_for};

use crate::counts::Counts;
use crate::refusal::Refusal;
use crate::reply::LodgeReply;
use crate::returns::Return;
use tally_setup::Code;

/// The answer to a Lodge at a station with this many lists (at most 60) and this many who may
/// vote there, where this return or none is recorded. Where the reply is `Lodged`, `Return::lodged`
/// is the return that is then to be recorded. A Lodge does not depend on how many entries a return
/// needs.
pub fn decide_lodge(
    lists: usize,
    entitled: u64,
    found: Option<&Return>,
    slip: Code,
    counts: &Counts,
) -> Result<LodgeReply, Refusal>
    requires { lists ≤ most_lists }
    ensures { result
        ≡ reply_at_station (limits_for lists entitled Single) (option_copied found.entry) slip
        counts.now }
{
    check_counts(lists, entitled, counts)?;
    match found {
        Some(standing) => decide_again(standing, slip, counts),
        None => Ok(LodgeReply::Lodged { rev: 1 }),
    }
}

/// The checks on the counts that come to a station with this many lists (at most 60) and this many
/// who may vote there.
pub(crate) fn check_counts(lists: usize, entitled: u64, counts: &Counts) -> Result<(), Refusal>
    requires { lists ≤ most_lists }
    ensures passed { OnOk result
        (first_refusal (counts_checks (limits_for lists entitled Single) counts.now) ≡ None) }
    ensures refused { IfErr result (λ refusal.
        first_refusal (counts_checks (limits_for lists entitled Single) counts.now)
        ≡ Some refusal) }
{
    if !counts.are_for(lists) {
        return Err(Refusal::BadCounts);
    }
    if counts.all_votes() > entitled {
        return Err(Refusal::TooManyVotes);
    }
    Ok(())
}

fn decide_again(standing: &Return, slip: Code, counts: &Counts) -> Result<LodgeReply, Refusal>
    ensures { result ≡ reply_where_recorded standing.now slip counts.now }
{
    let rev = standing.rev;
    if standing.is_of(slip, counts) {
        Ok(LodgeReply::Same { rev })
    } else {
        Err(Refusal::Differs { rev })
    }
}
