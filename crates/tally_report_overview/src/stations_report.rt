//! The reports of a constituency that are made of its stations.

ghost use Rattle.std.specs.Prelude.{◌≡◌, IfErr, IfOk, string_bytes};
ghost use Rattle.tally_report_overview.specs.StationsReport.{stations_report};
ghost use Rattle.tally_report.specs.declared.fault.ReportFault.TheVariants.{Memory};

use crate::returns::returns_text;
use crate::stations::stations_text;
use std::alloc::Global;
use tally_report::ReportFault;
use tally_report_names::StationsReport;
use tally_returns::StationRow;
use tally_setup::Constituency;

/// The text of a report of a constituency that is made of its stations.
pub fn stations_report_text(
    alloc: Global,
    con: &Constituency,
    rows: &[StationRow],
    which: StationsReport,
) -> Result<String, ReportFault>
    ensures text { IfOk result (λ text.
        string_bytes text ≡ stations_report which con.now rows.now) }
    ensures fault { IfErr result (λ fault. fault ≡ Memory) }
{
    match which {
        StationsReport::Returns => {
            // It is ASCII, so no error comes of this; only tests show it.
            let text = returns_text(alloc, con, rows)?;
            String::from_utf8(text).map_err(|_| ReportFault::Memory)
        }
        StationsReport::Stations => stations_text(alloc, con, rows),
    }
}
