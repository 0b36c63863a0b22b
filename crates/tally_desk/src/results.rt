//! The results of constituencies, as JSON.

ghost use Rattle.std.specs.Prelude.{◌≡◌, IfSome, Some};
ghost use Rattle.std.specs.List.{AllZip};
ghost use Rattle.tally_machine_law.specs.Outcome.{IsLawfulView};
ghost use Rattle.tally_returns.specs.View.{FitsView};
ghost use Rattle.tally_setup.specs.Constituency as value;
ghost use Rattle.tally_setup.specs.Setup.{constituency_with};
ghost use Rattle.tally_keeper.specs.StaysKeeper.{StaysKeeper};
ghost use Rattle.tally_desk_routes.specs.declared.routes.Route.TheVariants as route;
ghost use Rattle.tally_desk.specs.internal.Gives.{GivesBy, GivesOn};
ghost use Rattle.tally_desk.specs.Requests.{AreResultsAnswer, IsResultAnswer, ShowsResults};

use crate::named::con_in_target;
use crate::room::{Room, done_answer};
use std::alloc::Global;
use tally_desk_answer::BodyType;
use tally_desk_message::Message;
use tally_keeper::Keeper;
use tally_report_overview::{whole_view, whole_views};
use tally_report_result::{result_text, results_report};
use tally_returns::{ConView, Refusal};
use tally_setup::{Code, Setup};

/// The answer that shows the result of the constituency of a code.
fn result_shown(alloc: Global, setup: &Setup, code: Code, view: &ConView) -> Option<Vec<u8>>
    requires { (con : value.Constituency)
        → constituency_with code setup.now ≡ Some con → FitsView con view.now }
    ensures { IfSome result (λ text. (con : value.Constituency)
        → constituency_with code setup.now ≡ Some con
        → IsLawfulView con view.now → IsResultAnswer con view.now text.items) }
{
    let con = setup.con(code)?;
    match result_text(alloc, con, view) {
        Ok(text) => done_answer(alloc, BodyType::Json, text.as_bytes()),
        Err(_) => None,
    }
}

fn results_answer(alloc: Global, setup: &Setup, views: &[ConView]) -> Option<Vec<u8>>
    requires { AllZip FitsView setup.now views.now }
    ensures { IfSome result (λ text. AllZip IsLawfulView setup.now views.now
        → AreResultsAnswer setup.now views.now text.items) }
{
    match results_report(alloc, setup, views) {
        Ok(text) => done_answer(alloc, BodyType::Json, text.as_bytes()),
        Err(_) => None,
    }
}

/// Shows the result of the constituency that a target names.
pub(crate) fn show_result<K: Keeper>(
    alloc: Global,
    keeper: &mut K,
    message: &Message,
) -> Option<Vec<u8>>
    ensures stays { StaysKeeper K.Keeper keeper.old keeper.new }
    ensures gives { GivesOn K.Keeper route.Result message.now keeper.old result keeper.new }
{
    let room = Room::reserve(alloc)?;
    let Some(code) = con_in_target(keeper.setup(), &message.target) else {
        return Some(room.refusal(Refusal::NoConstituency));
    };
    match whole_view(keeper, code) {
        Ok(view) => result_shown(alloc, keeper.setup(), code, &view),
        Err(refusal) => Some(room.refusal(refusal)),
    }
}

/// Shows the results of all constituencies.
pub(crate) fn show_results<K: Keeper>(alloc: Global, keeper: &mut K) -> Option<Vec<u8>>
    ensures stays { StaysKeeper K.Keeper keeper.old keeper.new }
    ensures gives { GivesBy K.Keeper ShowsResults keeper.old result keeper.new }
{
    let room = Room::reserve(alloc)?;
    match whole_views(alloc, keeper) {
        Ok(views) => results_answer(alloc, keeper.setup(), &views),
        Err(refusal) => Some(room.refusal(refusal)),
    }
}
