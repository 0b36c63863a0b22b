//! The line of the valid votes, and the columns of a list's votes.

ghost use Rattle.std.specs.Prelude.{◌≡◌, ◌≤◌, ◌*◌, ◌++◌, OnOk, string_bytes};
ghost use Rattle.tally_frac.specs.Limits.{most_votes};
ghost use Rattle.tally_setup.specs.Threshold.{IsWithinVotes};
ghost use Rattle.tally_report_lines.specs.Columns.{right_cell};
ghost use Rattle.tally_report_lines.specs.Votes.{hundredths, share, valid_line, vote_columns};

use crate::column::{CODE_WIDTH, push_left, push_number};
use std::alloc::AllocError;
use tally_frac::WHOLE_BASE;
use tally_setup::{Base, base_of};

/// The line of the valid votes, which are those of the lists and the blank ones.
pub fn push_valid(
    text: &mut String,
    votes: &[u64],
    blank: u64,
    spoiled: u64,
) -> Result<(), AllocError>
    requires { IsWithinVotes votes.now blank }
    ensures { OnOk result (string_bytes text.new
        ≡ string_bytes text.old ++ valid_line votes.now blank spoiled) }
{
    let valid = base_of(Base::Valid, votes, blank);
    writeln!(text, "valid {valid} blank {blank} spoiled {spoiled}")
}

/// The columns of a list: its code, its votes, their share in the base, and whether it is eligible.
pub fn push_votes_of(
    text: &mut String,
    code: &str,
    votes: u64,
    base: u64,
    eligible: bool,
) -> Result<(), AllocError>
    requires { votes ≤ most_votes }
    ensures { OnOk result (string_bytes text.new
        ≡ string_bytes text.old ++ vote_columns code.now votes base eligible) }
{
    push_left(text, code, CODE_WIDTH)?;
    push_number(text, votes, 12)?;
    push_hundredths(text, share(base, votes))?;
    text.push_str(" ")?;
    push_left(text, if eligible { "in" } else { "out" }, 4)
}

/// The share of votes in a base, in hundredths of a per cent, rounded down.
fn share(base: u64, votes: u64) -> u64
    requires { votes ≤ most_votes }
    ensures { result ≡ share base votes }
{
    if base == 0 {
        0
    } else {
        votes * u64::from(WHOLE_BASE) / base
    }
}

/// A number of hundredths, at the right of a column of eight places.
fn push_hundredths(text: &mut String, n: u64) -> Result<(), AllocError>
    ensures { OnOk result (string_bytes text.new
        ≡ string_bytes text.old ++ right_cell 8 (hundredths n)) }
{
    let (tenths, rest) = (n / 10 % 10, n % 10);
    push_number(text, n / 100, 5)?;
    write!(text, ".{tenths}{rest}")
}
