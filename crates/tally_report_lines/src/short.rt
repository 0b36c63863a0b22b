//! Numbers of votes that lists are short of one more seat.

ghost use Rattle.std.specs.Prelude.{◌≡◌, ◌++◌, OnOk, None, slice_index_or, string_bytes};
ghost use Rattle.tally_report_lines.specs.Short.{votes_column};

use crate::column::push_number;
use std::alloc::AllocError;

/// The number of the list at a place, if there is one.
pub fn votes_short_at(numbers: &[Option<u64>], place: usize) -> Option<u64>
    ensures { result ≡ slice_index_or numbers.now place None }
{
    match numbers.get(place) {
        Some(number) => *number,
        None => None,
    }
}

/// A number of votes, or a dash where there is none, at the right of a column of twelve places.
pub fn push_votes(text: &mut String, number: Option<u64>) -> Result<(), AllocError>
    ensures { OnOk result (string_bytes text.new ≡ string_bytes text.old ++ votes_column number) }
{
    match number {
        Some(votes) => push_number(text, votes, 12),
        None => text.push_str("           -"),
    }
}
