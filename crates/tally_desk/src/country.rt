//! All constituencies together.

ghost use Rattle.std.specs.Prelude.{◌≡◌, IfSome};
ghost use Rattle.std.specs.List.{AllZip};
ghost use Rattle.tally_returns.specs.View.{FitsView};
ghost use Rattle.tally_keeper.specs.StaysKeeper.{StaysKeeper};
ghost use Rattle.tally_report_overview.specs.CountryText.{country_text};
ghost use Rattle.tally_desk_answer.specs.Answer.{answer_text};
ghost use Rattle.tally_desk_answer.specs.declared.status.AnswerStatus.TheVariants as status;
ghost use Rattle.tally_desk_answer.specs.declared.status.BodyType.TheVariants as body;
ghost use Rattle.tally_desk.specs.internal.Gives.{GivesBy};
ghost use Rattle.tally_desk.specs.Requests.{ShowsCountry};

use crate::room::{Room, done_answer};
use std::alloc::Global;
use tally_desk_answer::BodyType;
use tally_keeper::Keeper;
use tally_report_overview::{all_views, country_report};
use tally_returns::ConView;
use tally_setup::Setup;

fn country_answer(alloc: Global, setup: &Setup, views: &[ConView]) -> Option<Vec<u8>>
    requires { AllZip FitsView setup.now views.now }
    ensures { IfSome result (λ text. text.items
        ≡ answer_text status.Done body.Text (country_text setup.now views.now)) }
{
    match country_report(alloc, setup, views) {
        Ok(text) => done_answer(alloc, BodyType::Text, text.as_bytes()),
        Err(_) => None,
    }
}

/// Shows all constituencies together.
pub(crate) fn show_country<K: Keeper>(alloc: Global, keeper: &mut K) -> Option<Vec<u8>>
    ensures stays { StaysKeeper K.Keeper keeper.old keeper.new }
    ensures gives { GivesBy K.Keeper ShowsCountry keeper.old result keeper.new }
{
    let room = Room::reserve(alloc)?;
    match all_views(alloc, keeper) {
        Ok(views) => country_answer(alloc, keeper.setup(), &views),
        Err(refusal) => Some(room.refusal(refusal)),
    }
}
