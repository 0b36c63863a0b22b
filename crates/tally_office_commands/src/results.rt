//! Results as lines of JSON.

ghost use Rattle.std.specs.List.{AllZip};
ghost use Rattle.std.specs.Prelude.{◌≡◌, ◌++◌, Err, IfErr, IfOk, None, codes, string_bytes};
ghost use Rattle.tally_keeper.specs.StaysKeeper.{StaysKeeper};
ghost use Rattle.tally_machine_law.specs.Outcome.{IsLawfulView};
ghost use Rattle.tally_report_result.specs.Result.{AreResultsText, IsResultText};
ghost use Rattle.tally_returns.specs.View.{FitsView};
ghost use Rattle.tally_setup.specs.Setup.{constituency_with};
ghost use Rattle.tally_office_trouble.specs.Trouble.{IsTroubleOfProgress, IsTroubleOfReport};
ghost use Rattle.tally_office_commands.specs.Results.{AreResultsShown, IsLineOf, IsResultShown};
ghost use Rattle.tally_office_commands.specs.Results.{IsResultTrouble, IsResultsTrouble};
ghost use Rattle.tally_office_commands.specs.internal.Withheld.{OfCon};

use crate::show::trouble_of;
use std::alloc::Global;
use tally_keeper::Keeper;
use tally_office_trouble::{Trouble, code_named};
use tally_report_overview::{whole_view, whole_views};
use tally_report_result::{result_text, results_report};
use tally_returns::ConView;
use tally_setup::{Code, Setup};

/// The result of the constituency of a code. It is shown, and nothing changes.
pub fn show_result<K: Keeper>(alloc: Global, keeper: &mut K, con: &str) -> Result<String, Trouble>
    ensures stays { StaysKeeper K.Keeper keeper.old keeper.new }
    ensures unknown { constituency_with con.now (K.constituencies keeper.old) ≡ None
        → (result ≡ Err Trouble.NoConstituency) × (keeper.new ≡ keeper.old) }
    ensures named { IfErr result IsTroubleOfReport }
    ensures shown { K.IsTrusted keeper.new → IfOk result (λ line.
        IsResultShown (K.constituencies keeper.old) (K.content keeper.old) con.now
        (string_bytes line) (K.content keeper.new)) }
    ensures trouble { K.IsTrusted keeper.new → IfErr result (λ trouble.
        IsResultTrouble (K.constituencies keeper.old) (K.content keeper.old) con.now
        trouble (K.content keeper.new)) }
    ensures store { K.IsTrusted keeper.new → IfErr result (λ trouble.
        trouble ≡ Trouble.Store → K.HasDatabase keeper.old) }
{
    let Some(code) = code_named(keeper.setup(), con) else {
        return Err(Trouble::NoConstituency);
    };
    match whole_view(keeper, code) {
        Ok(view) => line_of_result(alloc, keeper.setup(), code, &view),
        Err(refusal) => Err(trouble_of(refusal)),
    }
}

/// The results of all constituencies. They are shown, and nothing changes.
pub fn show_results<K: Keeper>(alloc: Global, keeper: &mut K) -> Result<String, Trouble>
    ensures stays { StaysKeeper K.Keeper keeper.old keeper.new }
    ensures named { IfErr result IsTroubleOfProgress }
    ensures shown { K.IsTrusted keeper.new → IfOk result (λ line.
        AreResultsShown (K.constituencies keeper.old) (K.content keeper.old)
        (string_bytes line) (K.content keeper.new)) }
    ensures trouble { K.IsTrusted keeper.new → IfErr result (λ trouble.
        IsResultsTrouble (K.constituencies keeper.old) (K.content keeper.old)
        trouble (K.content keeper.new)) }
    ensures store { K.IsTrusted keeper.new → IfErr result (λ trouble.
        trouble ≡ Trouble.Store → K.HasDatabase keeper.old) }
{
    match whole_views(alloc, keeper) {
        Ok(views) => line_of_results(alloc, keeper.setup(), &views),
        Err(refusal) => Err(trouble_of(refusal)),
    }
}

/// The result of the constituency of a code, and a line end.
fn line_of_result(
    alloc: Global,
    setup: &Setup,
    code: Code,
    view: &ConView,
) -> Result<String, Trouble>
    requires { OfCon setup.now code (λ con. FitsView con view.now) }
    ensures named { IfErr result IsTroubleOfReport }
    ensures text { IfOk result (λ line. OfCon setup.now code (λ con.
        IsLawfulView con view.now → IsLineOf (IsResultText con view.now) (string_bytes line))) }
    ensures trouble { IfErr result (λ trouble. OfCon setup.now code (λ _.
        trouble ≡ Trouble.Memory)) }
{
    let Some(con) = setup.con(code) else {
        return Err(Trouble::NoConstituency);
    };
    match result_text(alloc, con, view) {
        Ok(text) => ended(text),
        Err(_) => Err(Trouble::Memory),
    }
}

/// The results of all constituencies, and a line end.
fn line_of_results(alloc: Global, setup: &Setup, views: &[ConView]) -> Result<String, Trouble>
    requires { AllZip FitsView setup.now views.now }
    ensures text { IfOk result (λ line. AllZip IsLawfulView setup.now views.now
        → IsLineOf (AreResultsText setup.now views.now) (string_bytes line)) }
    ensures trouble { IfErr result (λ trouble. trouble ≡ Trouble.Memory) }
{
    match results_report(alloc, setup, views) {
        Ok(text) => ended(text),
        Err(_) => Err(Trouble::Memory),
    }
}

/// A text with a line end.
fn ended(text: String) -> Result<String, Trouble>
    ensures text { IfOk result (λ line. string_bytes line ≡ string_bytes text ++ codes "\n") }
    ensures trouble { IfErr result (λ trouble. trouble ≡ Trouble.Memory) }
{
    let mut line = text;
    match line.push_str("\n") {
        Ok(()) => Ok(line),
        Err(_) => Err(Trouble::Memory),
    }
}
