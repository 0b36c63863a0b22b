//! What the office shows, as text.

ghost use Rattle.std.specs.List.{AllZip};
ghost use Rattle.std.specs.Prelude.{◌≡◌, Err, IfErr, IfOk, None, Some, is_some};
ghost use Rattle.std.specs.Prelude.{option_map, string_bytes, true};
ghost use Rattle.tally_keeper.specs.StaysKeeper.{StaysKeeper};
ghost use Rattle.tally_report_overview.specs.CountryText.{country_text};
ghost use Rattle.tally_report_overview.specs.ProgressText.{progress_text};
ghost use Rattle.tally_report_names.specs.Names.{needs_con};
ghost use Rattle.tally_report_overview.specs.StationsReport.{stations_report};
ghost use Rattle.tally_returns.specs.View.{FitsView};
ghost use Rattle.tally_setup.specs.Setup.{constituency_with};
ghost use Rattle.tally_report.specs.Reports.{IsEnoughFor, report_fault};
ghost use Rattle.tally_office_trouble.specs.Trouble.{IsTroubleOfDatabase, IsTroubleOfProgress};
ghost use Rattle.tally_office_trouble.specs.Trouble.{IsTroubleOfReport};
ghost use Rattle.tally_office_commands.specs.Done.{IsShownAt, IsTextShown};
ghost use Rattle.tally_office_commands.specs.Failed.{IsShowFailure, IsShowTrouble};
ghost use Rattle.tally_office_commands.specs.Offices.{known};
ghost use Rattle.tally_office_commands.specs.Show.{AreStationsShown, IsCountryShown};
ghost use Rattle.tally_office_commands.specs.Show.{IsCountryTrouble};
ghost use Rattle.tally_office_commands.specs.Show.{IsGiven, IsProgressShown, IsProgressTrouble};
ghost use Rattle.tally_office_commands.specs.Show.{IsReportShown, IsReportTrouble};
ghost use Rattle.tally_office_commands.specs.Show.{IsStationsTrouble, report_trouble};
ghost use Rattle.tally_office_trouble.specs.Troubles.{IsTroubleOfShow};
ghost use Rattle.tally_office_trouble.specs.Written.{IsWritten};
ghost use Rattle.tally_office_commands.specs.internal.Withheld.{IsWithheld, OfCon, refusal_trouble};

use crate::ending::close_and_print;
use crate::offices::Offices;
use crate::results::{show_result, show_results};
use std::alloc::Global;
use std::io::Write;
use tally_keeper::Keeper;
use tally_office_trouble::{Trouble, code_named};
use tally_report::{ReportFault, report_text};
use tally_report_names::{Report, Shown, StationsReport};
use tally_report_overview::{
    all_views, country_report, progress_of, progress_text, stations_report_text, view_for,
};
use tally_returns::{ConView, ProgressRow, Refusal, StationRow};
use tally_setup::{Code, Setup};

/// Prints a report. If it is of one constituency, `con` is the code of that.
#[inline(never)]
pub fn show_at<O: Offices, W: Write>(
    rt: &HostRuntime,
    offices: &O,
    db: &str,
    report: Shown,
    con: Option<&str>,
    output: &mut W,
) -> Result<(), Trouble>
    requires { needs_con report ≡ true → is_some con ≡ true }
    ensures written { IsWritten W.contents (IsShownAt (known O.Office.Keeper
        (O.Opens offices.now) (O.Finds offices.now) (O.Makes offices.now) (O.Closes offices.now)
        (O.Gives offices.now))
        db.now report (option_map (λ c. c.now) con.entry)) output.old output.new result }
    ensures named { IfErr result IsTroubleOfShow }
    ensures trouble { IfErr result (IsShowFailure (known O.Office.Keeper
        (O.Opens offices.now) (O.Finds offices.now) (O.Makes offices.now) (O.Closes offices.now)
        (O.Gives offices.now))
        db.now report (option_map (λ c. c.now) con.entry)) }
{
    let mut office = match offices.open_office(rt, db) {
        Ok(office) => office,
        Err(trouble) => return Err(trouble),
    };
    let outcome = show_in(rt, &mut office, report, con);
    close_and_print(rt, offices, db, office, outcome, output)
}

/// The text of a report.
fn show_in<K: Keeper>(
    rt: &HostRuntime,
    keeper: &mut K,
    report: Shown,
    con: Option<&str>,
) -> Result<String, Trouble>
    requires { needs_con report ≡ true → is_some con ≡ true }
    ensures stays { StaysKeeper K.Keeper keeper.old keeper.new }
    ensures named { IfErr result IsTroubleOfReport }
    ensures shown { K.IsTrusted keeper.new → IfOk result (λ text.
        IsTextShown (K.constituencies keeper.old) (K.content keeper.old) report
        (option_map (λ c. c.now) con.entry) (string_bytes text) (K.content keeper.new)) }
    ensures trouble { K.IsTrusted keeper.new → IfErr result (λ trouble.
        IsShowTrouble (K.constituencies keeper.old) (K.content keeper.old) report
        (option_map (λ c. c.now) con.entry) trouble (K.content keeper.new)) }
    ensures store { K.IsTrusted keeper.new → IfErr result (λ trouble.
        trouble ≡ Trouble.Store → K.HasDatabase keeper.old) }
{
    match report {
        Shown::Progress => show_progress(rt.alloc(), keeper),
        Shown::Country => show_country(rt.alloc(), keeper),
        Shown::Results => show_results(rt.alloc(), keeper),
        Shown::Result => match con {
            Some(con) => show_result(rt.alloc(), keeper, con),
            None => unreachable!(),
        },
        Shown::Stations(which) => match con {
            Some(con) => show_stations(rt.alloc(), keeper, con, which),
            None => unreachable!(),
        },
        Shown::Report(which) => match con {
            Some(con) => show_report(rt.alloc(), keeper, con, which),
            None => unreachable!(),
        },
    }
}

/// A report of the constituency of a code. It is shown, and nothing changes.
pub fn show_report<K: Keeper>(
    alloc: Global,
    keeper: &mut K,
    con: &str,
    which: Report,
) -> Result<String, Trouble>
    ensures stays { StaysKeeper K.Keeper keeper.old keeper.new }
    ensures unknown { constituency_with con.now (K.constituencies keeper.old) ≡ None
        → (result ≡ Err Trouble.NoConstituency) × (keeper.new ≡ keeper.old) }
    ensures named { IfErr result IsTroubleOfReport }
    ensures shown { K.IsTrusted keeper.new → IfOk result (λ text.
        IsReportShown (K.constituencies keeper.old) (K.content keeper.old) con.now which
        (string_bytes text) (K.content keeper.new)) }
    ensures trouble { K.IsTrusted keeper.new → IfErr result (λ trouble.
        IsReportTrouble (K.constituencies keeper.old) (K.content keeper.old) con.now which
        trouble (K.content keeper.new)) }
    ensures store { K.IsTrusted keeper.new → IfErr result (λ trouble.
        trouble ≡ Trouble.Store → K.HasDatabase keeper.old) }
{
    let Some(code) = code_named(keeper.setup(), con) else {
        return Err(Trouble::NoConstituency);
    };
    match view_for(keeper, code, which) {
        Ok(view) => text_of(alloc, keeper.setup(), code, &view, which),
        Err(refusal) => Err(trouble_of(refusal)),
    }
}

/// How far each constituency has come. It is shown, and nothing changes.
pub fn show_progress<K: Keeper>(alloc: Global, keeper: &mut K) -> Result<String, Trouble>
    ensures stays { StaysKeeper K.Keeper keeper.old keeper.new }
    ensures named { IfErr result IsTroubleOfProgress }
    ensures shown { K.IsTrusted keeper.new → IfOk result (λ text.
        IsProgressShown (K.constituencies keeper.old) (K.content keeper.old)
        (string_bytes text) (K.content keeper.new)) }
    ensures trouble { K.IsTrusted keeper.new → IfErr result (λ trouble.
        IsProgressTrouble (K.constituencies keeper.old) (K.content keeper.old)
        trouble (K.content keeper.new)) }
    ensures store { K.IsTrusted keeper.new → IfErr result (λ trouble.
        trouble ≡ Trouble.Store → K.HasDatabase keeper.old) }
{
    match progress_of(keeper) {
        Ok(rows) => text_of_rows(alloc, &rows),
        Err(refusal) => Err(trouble_of(refusal)),
    }
}

/// A report of the constituency of a code that is made of its stations. It is shown, and nothing
/// changes.
pub fn show_stations<K: Keeper>(
    alloc: Global,
    keeper: &mut K,
    con: &str,
    which: StationsReport,
) -> Result<String, Trouble>
    ensures stays { StaysKeeper K.Keeper keeper.old keeper.new }
    ensures unknown { constituency_with con.now (K.constituencies keeper.old) ≡ None
        → (result ≡ Err Trouble.NoConstituency) × (keeper.new ≡ keeper.old) }
    ensures named { IfErr result IsTroubleOfReport }
    ensures shown { K.IsTrusted keeper.new → IfOk result (λ text.
        AreStationsShown (K.constituencies keeper.old) (K.content keeper.old) con.now which
        (string_bytes text) (K.content keeper.new)) }
    ensures trouble { K.IsTrusted keeper.new → IfErr result (λ trouble.
        IsStationsTrouble (K.constituencies keeper.old) (K.content keeper.old) con.now
        trouble (K.content keeper.new)) }
    ensures store { K.IsTrusted keeper.new → IfErr result (λ trouble.
        trouble ≡ Trouble.Store → K.HasDatabase keeper.old) }
{
    let Some(code) = code_named(keeper.setup(), con) else {
        return Err(Trouble::NoConstituency);
    };
    match keeper.show_returns(code) {
        Ok(rows) => text_of_stations(alloc, keeper.setup(), code, &rows, which),
        Err(refusal) => Err(trouble_of(refusal)),
    }
}

/// The seats and the votes of each list over all constituencies. They are shown, and nothing
/// changes.
pub fn show_country<K: Keeper>(alloc: Global, keeper: &mut K) -> Result<String, Trouble>
    ensures stays { StaysKeeper K.Keeper keeper.old keeper.new }
    ensures named { IfErr result IsTroubleOfProgress }
    ensures shown { K.IsTrusted keeper.new → IfOk result (λ text.
        IsCountryShown (K.constituencies keeper.old) (K.content keeper.old)
        (string_bytes text) (K.content keeper.new)) }
    ensures trouble { K.IsTrusted keeper.new → IfErr result (λ trouble.
        IsCountryTrouble (K.constituencies keeper.old) (K.content keeper.old)
        trouble (K.content keeper.new)) }
    ensures store { K.IsTrusted keeper.new → IfErr result (λ trouble.
        trouble ≡ Trouble.Store → K.HasDatabase keeper.old) }
{
    match all_views(alloc, keeper) {
        Ok(views) => text_of_country(alloc, keeper.setup(), &views),
        Err(refusal) => Err(trouble_of(refusal)),
    }
}

/// The text of a report of the constituency of a code.
fn text_of(
    alloc: Global,
    setup: &Setup,
    code: Code,
    view: &ConView,
    which: Report,
) -> Result<String, Trouble>
    requires { OfCon setup.now code (λ con. FitsView con view.now) }
    ensures named { IfErr result IsTroubleOfReport }
    ensures text { IfOk result (λ text. OfCon setup.now code (λ con.
        IsEnoughFor which con view.now → IsGiven con view.now which (string_bytes text))) }
    ensures trouble { IfErr result (λ trouble. OfCon setup.now code (λ con.
        IsWithheld (report_fault con view.now which) trouble)) }
    ensures other { IfErr result (λ trouble. trouble ≡ Trouble.Store → ⊥) }
{
    let Some(con) = setup.con(code) else {
        return Err(Trouble::NoConstituency);
    };
    match report_text(alloc, con, view, which) {
        Ok(text) => Ok(text),
        Err(fault) => Err(trouble_of_report(fault)),
    }
}

fn text_of_rows(alloc: Global, rows: &[ProgressRow]) -> Result<String, Trouble>
    ensures text { IfOk result (λ text. string_bytes text ≡ progress_text rows.now) }
    ensures trouble { IfErr result (λ trouble. trouble ≡ Trouble.Memory) }
{
    match progress_text(alloc, rows) {
        Ok(text) => Ok(text),
        Err(_) => Err(Trouble::Memory),
    }
}

/// The text of a report of the constituency of a code that is made of its stations.
fn text_of_stations(
    alloc: Global,
    setup: &Setup,
    code: Code,
    rows: &[StationRow],
    which: StationsReport,
) -> Result<String, Trouble>
    ensures named { IfErr result IsTroubleOfReport }
    ensures text { IfOk result (λ text. OfCon setup.now code (λ con.
        string_bytes text ≡ stations_report which con rows.now)) }
    ensures trouble { IfErr result (λ trouble. OfCon setup.now code (λ _.
        trouble ≡ Trouble.Memory)) }
{
    let Some(con) = setup.con(code) else {
        return Err(Trouble::NoConstituency);
    };
    match stations_report_text(alloc, con, rows, which) {
        Ok(text) => Ok(text),
        Err(_) => Err(Trouble::Memory),
    }
}

fn text_of_country(alloc: Global, setup: &Setup, views: &[ConView]) -> Result<String, Trouble>
    requires { AllZip FitsView setup.now views.now }
    ensures text { IfOk result (λ text. string_bytes text ≡ country_text setup.now views.now) }
    ensures trouble { IfErr result (λ trouble. trouble ≡ Trouble.Memory) }
{
    match country_report(alloc, setup, views) {
        Ok(text) => Ok(text),
        Err(_) => Err(Trouble::Memory),
    }
}

/// Why a report is not given.
pub fn trouble_of_report(fault: ReportFault) -> Trouble
    ensures trouble { result ≡ report_trouble fault }
    ensures named { IsTroubleOfReport result }
{
    match fault {
        ReportFault::NotCertified => Trouble::NotCertified,
        ReportFault::OtherMethod => Trouble::OtherMethod,
        ReportFault::Memory => Trouble::Memory,
    }
}

/// The trouble of a refusal to show something.
pub(crate) fn trouble_of(refusal: Refusal) -> Trouble
    ensures trouble { result ≡ refusal_trouble refusal }
    ensures named { IsTroubleOfDatabase result }
{
    match refusal {
        Refusal::Memory => Trouble::Memory,
        _ => Trouble::Store,
    }
}
