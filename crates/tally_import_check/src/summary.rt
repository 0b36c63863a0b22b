//! The text of a check.

ghost use Rattle.std.specs.Prelude.{◌≡◌, ◌++◌, List, length, string_bytes, IfOk, IfErr, OnOk};
ghost use Rattle.tally_returns.specs.Counts.{VoteCounts};
ghost use Rattle.tally_import.specs.CountLines.{named_number};
ghost use Rattle.tally_import_check.specs.Check.{text_of, totals_text};
ghost use Rattle.tally_import_check.specs.internal.Progress.{HasTaken, Taken};
ghost use Rattle.tally_import_check.specs.internal.Totals.{AreTotals};

use crate::import::Import;
use crate::totals::Totals;
use std::alloc::{AllocError, Global};
use tally_import::room::{COUNT_ROOM, push_count};
use tally_import::{CheckFault, push_lines};
use tally_setup::Code;

/// The text to write for an import under a header of these lists, with lines of its rows or
/// without, or the fault Memory.
pub(crate) fn import_text(
    alloc: Global,
    lists: &[Code],
    import: &Import,
    lines: bool,
) -> Result<String, CheckFault>
    requires lists { import.now.lists ≡ length lists.now }
    requires totals { length import.now.totals.votes.items ≡ length lists.now }
    ensures text { IfOk result (λ text. (taken : Taken) → HasTaken taken import.now
        → string_bytes text
        ≡ text_of lines (record { lists = lists.now; rows = taken.rows })) }
    ensures fault { IfErr result (λ fault. fault ≡ CheckFault.Memory) }
{
    let mut text = String::with_capacity(alloc, COUNT_ROOM)?;
    push_count(&mut text, &import.count);
    push_totals(&mut text, lists, &import.totals)?;
    if lines {
        push_lines(&mut text, lists, &import.named)?;
    }
    Ok(text)
}

fn push_totals(text: &mut String, lists: &[Code], totals: &Totals) -> Result<(), AllocError>
    requires { length totals.now.votes.items ≡ length lists.now }
    ensures { OnOk result ((returns : List VoteCounts)
        → AreTotals (length lists.now) returns totals.now
        → string_bytes text.new ≡ string_bytes text.old ++ totals_text lists.now returns) }
{
    push_total(text, "blank", totals.blank)?;
    push_total(text, "spoiled", totals.spoiled)?;
    for place in 0..lists.len() {
        push_total(text, lists[place].as_str(), totals.votes[place])?;
    }
    Ok(())
}

/// A line of a name and a total.
fn push_total(text: &mut String, name: &str, n: u64) -> Result<(), AllocError>
    ensures { OnOk result
        (string_bytes text.new ≡ string_bytes text.old ++ named_number name.now n) }
{
    writeln!(text, "{name} {n}")
}
