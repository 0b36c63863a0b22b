//! The line of an award.

ghost use Rattle.std.specs.Prelude.{◌≡◌, ◌≤◌, ◌++◌, OnOk, string_bytes};
ghost use Rattle.tally_report_lines.specs.Award.{award_columns};

use crate::column::{CODE_WIDTH, push_left, push_number};
use std::alloc::AllocError;
use tally_allot::Award;

/// The line of the `n`th award, to the list of this code.
pub fn push_award_of(text: &mut String, code: &str, n: u64, award: &Award) -> Result<(), AllocError>
    requires { 1 ≤ award.now.den }
    ensures { OnOk result (string_bytes text.new
        ≡ string_bytes text.old ++ award_columns code.now n award.now) }
{
    push_number(text, n, 4)?;
    text.push_str(" ")?;
    push_left(text, code, CODE_WIDTH)?;
    push_number(text, u64::from(award.k), 4)?;
    push_number(text, award.num, 14)?;
    push_number(text, award.den, 6)?;
    push_number(text, award.num / award.den, 12)?;
    text.push_str("\n")
}
