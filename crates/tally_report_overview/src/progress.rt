//! How far the constituencies have come.

ghost use Rattle.std.specs.Prelude.{◌≡◌, ◌+◌, ◌-◌, ◌++◌, [], ◌∷◌, IfOk, IfErr, OnOk};
ghost use Rattle.std.specs.Prelude.{codes, if◌then◌else◌, string_bytes};
ghost use Rattle.std.specs.List.{flat_map};
ghost use Rattle.tally_report_lines.specs.Columns.{line_end, number};
ghost use Rattle.tally_report_overview.specs.ProgressText.{progress_line, progress_text};
ghost use Rattle.tally_report.specs.declared.fault.ReportFault.TheVariants.{Memory};

use std::alloc::{AllocError, Global};
use tally_report::ReportFault;
use tally_report_lines::{CODE_WIDTH, push_left, push_number};
use tally_returns::ProgressRow;

/// A line for each constituency: its stations, how many of them have no return, how many returns
/// are received, queried, corrected and closed, its edition, and whether it is certified.
pub fn progress_text(alloc: Global, rows: &[ProgressRow]) -> Result<String, ReportFault>
    ensures text { IfOk result (λ text. string_bytes text ≡ progress_text rows.now) }
    ensures fault { IfErr result (λ fault. fault ≡ Memory) }
{
    let mut text = String::new(alloc);
    for row in rows {
        push_row(&mut text, row)?;
    }
    Ok(text)
}

fn push_row(text: &mut String, row: &ProgressRow) -> Result<(), AllocError>
    ensures { OnOk result (string_bytes text.new
        ≡ string_bytes text.old ++ progress_line row.now) }
{
    push_left(text, row.con.as_str(), CODE_WIDTH)?;
    push_numbers(text, &numbers_of(row), 7)?;
    push_state(text, row.certified)
}

/// Numbers, each at the right of a column of this many places.
fn push_numbers(text: &mut String, numbers: &[u64], width: usize) -> Result<(), AllocError>
    ensures { OnOk result (string_bytes text.new
        ≡ string_bytes text.old ++ flat_map (number width) numbers.now) }
{
    for n in numbers {
        push_number(text, *n, width)?;
    }
    Ok(())
}

/// The numbers of a row, in the order of their columns.
fn numbers_of(row: &ProgressRow) -> [u64; 7]
    ensures { let r = row.now in result ≡ r.stations
        ∷ (r.stations - (r.received + r.queried + r.corrected + r.closed))
        ∷ r.received ∷ r.queried ∷ r.corrected ∷ r.closed ∷ r.edition ∷ [] }
{
    let stations = u64::from(row.stations);
    let received = u64::from(row.received);
    let queried = u64::from(row.queried);
    let corrected = u64::from(row.corrected);
    let closed = u64::from(row.closed);
    let returns = received + queried + corrected + closed;
    let missing = stations.saturating_sub(returns);
    let edition = u64::from(row.edition);
    [
        stations, missing, received, queried, corrected, closed, edition,
    ]
}

fn push_state(text: &mut String, certified: bool) -> Result<(), AllocError>
    ensures { OnOk result (string_bytes text.new
        ≡ string_bytes text.old ++ codes " "
        ++ (if certified then codes "certified" else codes "open") ++ line_end) }
{
    let state = if certified { "certified" } else { "open" };
    writeln!(text, " {state}")
}
