//! Columns, and the first line of a report.

ghost use Rattle.std.specs.Prelude.{◌≡◌, ◌++◌, OnOk, string_bytes};
ghost use Rattle.tally_report_lines.specs.Columns.{heading, left_cell, number, spaces};

use std::alloc::AllocError;
use tally_setup::Constituency;

/// The places of a column of codes: as many as the longest code has bytes.
pub const CODE_WIDTH: usize = 16;

/// The first line of a report of a constituency.
pub fn push_heading(text: &mut String, report: &str, con: &Constituency) -> Result<(), AllocError>
    ensures { OnOk result (string_bytes text.new
        ≡ string_bytes text.old ++ heading report.now con.now) }
{
    let name = con.name.as_str();
    writeln!(text, "{report} {} {name}", con.code)
}

/// A value at the left of a column of this many places.
pub fn push_left(text: &mut String, value: &str, width: usize) -> Result<(), AllocError>
    ensures { OnOk result (string_bytes text.new ≡
        string_bytes text.old ++ left_cell width value.now) }
{
    text.push_str(value)?;
    push_spaces(text, width.saturating_sub(value.len()))
}

fn push_spaces(text: &mut String, count: usize) -> Result<(), AllocError>
    ensures { OnOk result (string_bytes text.new ≡ string_bytes text.old ++ spaces count) }
{
    for _ in 0..count {
        text.push_str(" ")?;
    }
    Ok(())
}

/// A number at the right of a column of this many places.
pub fn push_number(text: &mut String, n: u64, width: usize) -> Result<(), AllocError>
    ensures { OnOk result (string_bytes text.new ≡ string_bytes text.old ++ number width n) }
{
    write!(text, "{n:>width$}")
}
