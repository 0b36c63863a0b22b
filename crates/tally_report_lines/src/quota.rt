//! The lines of quotas and remainders.

ghost use Rattle.std.specs.Prelude.{◌≡◌, ◌<◌, ◌++◌, OnOk, length, string_bytes};
ghost use Rattle.tally_allot_award.specs.internal.KeptPoll.{kept_poll};
ghost use Rattle.tally_law.specs.Poll.{IsEligible};
ghost use Rattle.tally_report_lines.specs.Quota.{quota_columns, quota_front};

use crate::column::{CODE_WIDTH, push_left, push_number};
use std::alloc::AllocError;
use tally_allot_award::{HareContest, Poll};

/// The votes of the eligible lists together, and the seats.
pub fn push_quota_front(text: &mut String, poll: &Poll, seats: u32) -> Result<(), AllocError>
    ensures { OnOk result (string_bytes text.new
        ≡ string_bytes text.old ++ quota_front (kept_poll poll.now) seats) }
{
    writeln!(text, "votes {} seats {seats}", poll.eligible_votes())
}

/// The line of an eligible list, which has this code and holds this many seats.
pub fn push_quota_columns(
    text: &mut String,
    contest: &HareContest,
    place: usize,
    code: &str,
    seats: u32,
) -> Result<(), AllocError>
    requires list { place < length contest.now.poll.votes.now }
    requires eligible { IsEligible (kept_poll contest.now.poll) place }
    ensures { OnOk result (string_bytes text.new
        ≡ string_bytes text.old
        ++ quota_columns (kept_poll contest.now.poll) contest.now.seats place code.now seats) }
{
    push_left(text, code, CODE_WIDTH)?;
    push_number(text, contest.poll.votes_of(place), 12)?;
    push_number(text, u64::from(contest.whole_quotas(place)), 5)?;
    push_number(text, contest.remainder(place), 16)?;
    push_number(text, u64::from(seats), 5)?;
    text.push_str("\n")
}
