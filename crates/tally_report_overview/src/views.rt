//! What reports are made of: constituencies and the progress, as a keeper shows them.

ghost use Rattle.std.specs.Prelude.{◌≡◌, IfErr, IfOk, Some};
ghost use Rattle.std.specs.List.{AllZip};
ghost use Rattle.tally_keeper.specs.Keeper.{Happens, request};
ghost use Rattle.tally_keeper.specs.StaysKeeper.{StaysKeeper};
ghost use Rattle.tally_machine_law.specs.Outcome.{IsLawfulView};
ghost use Rattle.tally_returns.specs.View.{FitsView};
ghost use Rattle.tally_returns.specs.declared.refusal.Refusal.TheVariants as refusal;
ghost use Rattle.tally_returns.specs.declared.ask.Ask.TheVariants.{ShowProgress};
ghost use Rattle.tally_setup.specs.Constituency as value;
ghost use Rattle.tally_setup.specs.Limits.{IsSetup};
ghost use Rattle.tally_setup.specs.Setup.{constituency_codes, constituency_with};
ghost use Rattle.tally_report.specs.Reports.{IsEnoughFor};
ghost use Rattle.tally_report_overview.specs.Views.{ShowsAll, ShowsAllWhole, ShowsFor, ShowsWhole};
ghost use Rattle.tally_report_overview.specs.Views.{as_progress, is_past};

use std::alloc::{AllocError, Global};
use tally_keeper::Keeper;
use tally_machine::laws::a_constituency_has_a_view;
use tally_report_names::Report;
use tally_returns::{Ask, ConView, ProgressRow, Refusal, Reply};
use tally_setup::{Code, Setup};

/// Whether a report shows certificates on record.
fn shows_past(which: Report) -> bool
    ensures { result ≡ is_past which }
{
    match which {
        Report::Past => true,
        _ => false,
    }
}

/// The view of a constituency for a report: with its certificates on record only where the
/// report shows them. Nothing changes.
pub fn view_for<K: Keeper>(keeper: &mut K, con: Code, which: Report) -> Result<ConView, Refusal>
    ensures stays { StaysKeeper K.Keeper keeper.old keeper.new }
    ensures fits { IfOk result (λ view. (found : value.Constituency)
        → constituency_with con (K.constituencies keeper.old) ≡ Some found
        → FitsView found view) }
    ensures shows { K.IsTrusted keeper.new → ShowsFor which
        (K.constituencies keeper.old) (K.content keeper.old) con result (K.content keeper.new) }
    ensures enough { K.IsTrusted keeper.new → IfOk result (λ view. (found : value.Constituency)
        → constituency_with con (K.constituencies keeper.old) ≡ Some found
        → IsEnoughFor which found view) }
    ensures kept { K.IsTrusted keeper.new
        → IfOk result (λ _. K.content keeper.new ≡ K.content keeper.old) }
    ensures store { IfErr result (λ e. e ≡ refusal.Store → K.HasDatabase keeper.old) }
{
    // Called for what its contract says: each view of a lawful state is lawful.
    a_constituency_has_a_view();
    // Called for what its contract says: a setup is within its limits.
    let _cons = keeper.setup().cons();
    if !shows_past(which) {
        return keeper.show_con(con);
    }
    match keeper.answer(&Ask::ShowCon { con }) {
        Ok(Reply::Con(view)) => Ok(view),
        Ok(_) => unreachable!(),
        Err(refusal) => Err(refusal),
    }
}

/// The view of a constituency with its certificates on record. Nothing changes.
pub fn whole_view<K: Keeper>(keeper: &mut K, con: Code) -> Result<ConView, Refusal>
    ensures stays { StaysKeeper K.Keeper keeper.old keeper.new }
    ensures fits { IfOk result (λ view. (found : value.Constituency)
        → constituency_with con (K.constituencies keeper.old) ≡ Some found
        → FitsView found view) }
    ensures shows { K.IsTrusted keeper.new → ShowsWhole
        (K.constituencies keeper.old) (K.content keeper.old) con result (K.content keeper.new) }
    ensures lawful { K.IsTrusted keeper.new → IfOk result (λ view. (found : value.Constituency)
        → constituency_with con (K.constituencies keeper.old) ≡ Some found
        → IsLawfulView found view) }
    ensures kept { K.IsTrusted keeper.new
        → IfOk result (λ _. K.content keeper.new ≡ K.content keeper.old) }
    ensures store { IfErr result (λ e. e ≡ refusal.Store → K.HasDatabase keeper.old) }
{
    // Called for what its contract says: each view of a lawful state is lawful.
    a_constituency_has_a_view();
    // Called for what its contract says: a setup is within its limits.
    let _cons = keeper.setup().cons();
    match keeper.answer(&Ask::ShowCon { con }) {
        Ok(Reply::Con(view)) => Ok(view),
        Ok(_) => unreachable!(),
        Err(refusal) => Err(refusal),
    }
}

/// How far each constituency has come. It is shown, and nothing changes.
pub fn progress_of<K: Keeper>(keeper: &mut K) -> Result<Vec<ProgressRow>, Refusal>
    ensures stays { StaysKeeper K.Keeper keeper.old keeper.new }
    ensures shows { K.IsTrusted keeper.new
        → Happens (K.constituencies keeper.old) (K.content keeper.old)
        (request ShowProgress (as_progress result)) (K.content keeper.new) }
    ensures kept { K.IsTrusted keeper.new
        → IfOk result (λ _. K.content keeper.new ≡ K.content keeper.old) }
    ensures store { IfErr result (λ e. e ≡ refusal.Store → K.HasDatabase keeper.old) }
{
    match keeper.answer(&Ask::ShowProgress) {
        Ok(Reply::Progress(rows)) => Ok(rows),
        Ok(_) => unreachable!(),
        Err(refusal) => Err(refusal),
    }
}

/// The codes of the constituencies, in order.
fn codes_of(alloc: Global, setup: &Setup) -> Result<Vec<Code>, AllocError>
    ensures codes { IfOk result (λ codes. codes.items ≡ constituency_codes setup.now) }
    ensures limits { IsSetup setup.now }
{
    let mut codes = Vec::new(alloc);
    for con in setup.cons() {
        codes.push(con.code)?;
    }
    Ok(codes)
}

/// The views of the constituencies of these codes, which are those of the setup in its order.
fn views_of<K: Keeper>(
    alloc: Global,
    keeper: &mut K,
    codes: &[Code],
) -> Result<Vec<ConView>, Refusal>
    requires limits { IsSetup (K.constituencies keeper.old) }
    requires codes { codes.now ≡ constituency_codes (K.constituencies keeper.old) }
    ensures stays { StaysKeeper K.Keeper keeper.old keeper.new }
    ensures fits { IfOk result (λ views.
        AllZip FitsView (K.constituencies keeper.old) views.items) }
    ensures shows { K.IsTrusted keeper.new → ShowsAll
        (K.constituencies keeper.old) (K.content keeper.old) result (K.content keeper.new) }
    ensures store { IfErr result (λ e. e ≡ refusal.Store → K.HasDatabase keeper.old) }
{
    let mut views = Vec::new(alloc);
    for code in codes {
        match keeper.show_con(*code) {
            Ok(view) => match views.push(view) {
                Ok(()) => {}
                Err(_) => return Err(Refusal::Memory),
            },
            Err(refusal) => return Err(refusal),
        }
    }
    Ok(views)
}

/// The view of each constituency, in the setup's order and in one state, without certificates
/// on record. It is shown, and nothing changes, unless a failed disk shuts the keeper at it.
pub fn all_views<K: Keeper>(alloc: Global, keeper: &mut K) -> Result<Vec<ConView>, Refusal>
    ensures stays { StaysKeeper K.Keeper keeper.old keeper.new }
    ensures fits { IfOk result (λ views.
        AllZip FitsView (K.constituencies keeper.old) views.items) }
    ensures shows { K.IsTrusted keeper.new → ShowsAll
        (K.constituencies keeper.old) (K.content keeper.old) result (K.content keeper.new) }
    ensures store { IfErr result (λ e. e ≡ refusal.Store → K.HasDatabase keeper.old) }
{
    match codes_of(alloc, keeper.setup()) {
        Ok(codes) => views_of(alloc, keeper, &codes),
        Err(_) => Err(Refusal::Memory),
    }
}

/// The whole views of the constituencies of these codes, which are those of the setup in its order.
fn whole_views_of<K: Keeper>(
    alloc: Global,
    keeper: &mut K,
    codes: &[Code],
) -> Result<Vec<ConView>, Refusal>
    requires limits { IsSetup (K.constituencies keeper.old) }
    requires codes { codes.now ≡ constituency_codes (K.constituencies keeper.old) }
    ensures stays { StaysKeeper K.Keeper keeper.old keeper.new }
    ensures fits { IfOk result (λ views.
        AllZip FitsView (K.constituencies keeper.old) views.items) }
    ensures shows { K.IsTrusted keeper.new → ShowsAllWhole
        (K.constituencies keeper.old) (K.content keeper.old) result (K.content keeper.new) }
    ensures lawful { K.IsTrusted keeper.new → IfOk result (λ views.
        AllZip IsLawfulView (K.constituencies keeper.old) views.items) }
    ensures store { IfErr result (λ e. e ≡ refusal.Store → K.HasDatabase keeper.old) }
{
    let mut views = Vec::new(alloc);
    for code in codes {
        match whole_view(keeper, *code) {
            Ok(view) => match views.push(view) {
                Ok(()) => {}
                Err(_) => return Err(Refusal::Memory),
            },
            Err(refusal) => return Err(refusal),
        }
    }
    Ok(views)
}

/// The view of each constituency with its certificates on record, in the setup's order and in one
/// state. It is shown, and nothing changes, unless a failed disk shuts the keeper at it.
pub fn whole_views<K: Keeper>(alloc: Global, keeper: &mut K) -> Result<Vec<ConView>, Refusal>
    ensures stays { StaysKeeper K.Keeper keeper.old keeper.new }
    ensures fits { IfOk result (λ views.
        AllZip FitsView (K.constituencies keeper.old) views.items) }
    ensures shows { K.IsTrusted keeper.new → ShowsAllWhole
        (K.constituencies keeper.old) (K.content keeper.old) result (K.content keeper.new) }
    ensures lawful { K.IsTrusted keeper.new → IfOk result (λ views.
        AllZip IsLawfulView (K.constituencies keeper.old) views.items) }
    ensures store { IfErr result (λ e. e ≡ refusal.Store → K.HasDatabase keeper.old) }
{
    match codes_of(alloc, keeper.setup()) {
        Ok(codes) => whole_views_of(alloc, keeper, &codes),
        Err(_) => Err(Refusal::Memory),
    }
}
