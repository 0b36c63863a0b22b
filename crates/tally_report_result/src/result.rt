//! The result of a constituency, and of all constituencies, as JSON.

ghost use Rattle.std.specs.Prelude.{◌≡◌, IfErr, IfOk, string_bytes};
ghost use Rattle.std.specs.List.{AllZip};
ghost use Rattle.serde_json.specs.View.{view as data_value};
ghost use Rattle.tally_machine_law.specs.Outcome.{IsLawfulView};
ghost use Rattle.tally_returns.specs.View.{FitsView};
ghost use Rattle.tally_report.specs.declared.fault.ReportFault.TheVariants.{Memory};
ghost use Rattle.tally_report_result.specs.Result.{AreResults, AreResultsText, IsResult};
ghost use Rattle.tally_report_result.specs.Result.{IsResultText};
ghost use Rattle.tally_report_result.specs.internal.Found.{data_of};

use crate::members::put_result;
use crate::parts::parts_in;
use serde_json::{Map, Value};
use std::alloc::Global;
use tally_report::ReportFault;
use tally_returns::ConView;
use tally_setup::{Constituency, Setup};

/// The result of a constituency, whose view fits it, at any time: its votes, its seats with their
/// status, and what they rest on.
pub fn result_text(alloc: Global, con: &Constituency, view: &ConView) -> Result<String, ReportFault>
    requires { FitsView con.now view.now }
    ensures text { IfOk result (λ text. IsLawfulView con.now view.now
        → IsResultText con.now view.now (string_bytes text)) }
    ensures fault { IfErr result (λ fault. fault ≡ Memory) }
{
    let value = result_value(alloc, con, view)?;
    Ok(value.to_string(alloc)?)
}

fn result_value(alloc: Global, con: &Constituency, view: &ConView) -> Result<Value, ReportFault>
    requires { FitsView con.now view.now }
    ensures value { IfOk result (λ value. IsLawfulView con.now view.now
        → IsResult con.now view.now (data_value value)) }
    ensures fault { IfErr result (λ fault. fault ≡ Memory) }
{
    let parts = parts_in(alloc, con, view)?;
    let mut map = Map::new(alloc);
    put_result(&mut map, alloc, con, view, &parts)?;
    Ok(Value::Object(map))
}

/// The results of these constituencies, as one array. The views are those of the constituencies, in
/// order.
pub fn results_text(
    alloc: Global,
    cons: &[Constituency],
    views: &[ConView],
) -> Result<String, ReportFault>
    requires { AllZip FitsView cons.now views.now }
    ensures text { IfOk result (λ text. AllZip IsLawfulView cons.now views.now
        → AreResultsText cons.now views.now (string_bytes text)) }
    ensures fault { IfErr result (λ fault. fault ≡ Memory) }
{
    let values = result_values(alloc, cons, views)?;
    let all = Value::from(values);
    Ok(all.to_string(alloc)?)
}

/// The results of the constituencies of a setup, which have these views.
pub fn results_report(
    alloc: Global,
    setup: &Setup,
    views: &[ConView],
) -> Result<String, ReportFault>
    requires { AllZip FitsView setup.now views.now }
    ensures text { IfOk result (λ text. AllZip IsLawfulView setup.now views.now
        → AreResultsText setup.now views.now (string_bytes text)) }
    ensures fault { IfErr result (λ fault. fault ≡ Memory) }
{
    results_text(alloc, setup.cons(), views)
}

fn result_values(
    alloc: Global,
    cons: &[Constituency],
    views: &[ConView],
) -> Result<Vec<Value>, ReportFault>
    requires { AllZip FitsView cons.now views.now }
    ensures values { IfOk result (λ values. AllZip IsLawfulView cons.now views.now
        → AreResults cons.now views.now (data_of values.items)) }
    ensures fault { IfErr result (λ fault. fault ≡ Memory) }
{
    let mut values = Vec::with_capacity(alloc, cons.len())?;
    for (place, con) in cons.iter().enumerate() {
        serde_json::push(&mut values, result_value(alloc, con, &views[place])?)?;
    }
    Ok(values)
}
