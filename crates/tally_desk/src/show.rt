//! Answers to GET.

ghost use Rattle.std.specs.Prelude.{◌≡◌, IfOk, IfSome, Some};
ghost use Rattle.tally_returns.specs.View.{FitsView};
ghost use Rattle.tally_returns.specs.declared.ask.Ask.TheVariants.{ShowReturn};
ghost use Rattle.tally_setup.specs.Constituency as value;
ghost use Rattle.tally_setup.specs.Setup.{constituency_with};
ghost use Rattle.tally_desk.specs.Reports.{IsReportText};
ghost use Rattle.serde_json.specs.Written.{compact_text};
ghost use Rattle.tally_desk_answer.specs.Answer.{answer_text};
ghost use Rattle.tally_desk_answer.specs.Shown.{shown_con, shown_return};
ghost use Rattle.tally_desk_answer.specs.declared.status.AnswerStatus.TheVariants as status;
ghost use Rattle.tally_desk_answer.specs.declared.status.BodyType.TheVariants as body;
ghost use Rattle.tally_report_overview.specs.ProgressText.{progress_text};
ghost use Rattle.tally_report.specs.Reports.{IsEnoughFor};
ghost use Rattle.tally_desk_routes.specs.declared.routes.Route.TheVariants as route;
ghost use Rattle.tally_keeper.specs.Keeper.{Happens, request};
ghost use Rattle.tally_keeper.specs.StaysKeeper.{StaysKeeper};
ghost use Rattle.tally_desk.specs.internal.Gives.{GivesBy, GivesOn, as_return};
ghost use Rattle.tally_desk.specs.Requests.{ShowsProgress};

use crate::named::{con_in_target, station_in_target};
use crate::room::{Room, done_answer};
use std::alloc::Global;
use tally_desk_answer::{BodyType, Word, con_text, return_text};
use tally_desk_message::Message;
use tally_keeper::Keeper;
use tally_report::{ReportFault, report_text};
use tally_report_names::Report;
use tally_report_overview::{progress_of, progress_text, view_for};
use tally_returns::{Ask, ConView, ProgressRow, Refusal, Reply, Return};
use tally_setup::{Code, Setup};

fn return_answer(alloc: Global, station: Code, kept: &Return) -> Option<Vec<u8>>
    ensures { IfSome result (λ text. text.items
        ≡ answer_text status.Done body.Json (compact_text (shown_return station kept.now))) }
{
    match return_text(alloc, station.as_str(), kept) {
        Ok(text) => done_answer(alloc, BodyType::Json, text.as_bytes()),
        Err(_) => None,
    }
}

fn progress_answer(alloc: Global, rows: &[ProgressRow]) -> Option<Vec<u8>>
    ensures { IfSome result (λ text. text.items
        ≡ answer_text status.Done body.Text (progress_text rows.now)) }
{
    match progress_text(alloc, rows) {
        Ok(text) => done_answer(alloc, BodyType::Text, text.as_bytes()),
        Err(_) => None,
    }
}

/// The answer that shows the constituency of a code.
fn con_shown(alloc: Global, setup: &Setup, code: Code, view: &ConView) -> Option<Vec<u8>>
    ensures { IfSome result (λ text. (con : value.Constituency)
        → constituency_with code setup.now ≡ Some con
        → text.items ≡ answer_text status.Done body.Json (compact_text (shown_con con view.now))) }
{
    let con = setup.con(code)?;
    match con_text(alloc, con, view) {
        Ok(text) => done_answer(alloc, BodyType::Json, text.as_bytes()),
        Err(_) => None,
    }
}

/// The answer that a report of the constituency of a code has, written into the room where it is a
/// word.
fn report_shown(
    alloc: Global,
    room: Room,
    setup: &Setup,
    code: Code,
    view: &ConView,
    which: Report,
) -> Option<Vec<u8>>
    requires { (con : value.Constituency)
        → constituency_with code setup.now ≡ Some con → FitsView con view.now }
    ensures { IfSome result (λ text. (con : value.Constituency)
        → constituency_with code setup.now ≡ Some con
        → IsEnoughFor which con view.now → IsReportText con view.now which text.items) }
{
    let con = setup.con(code)?;
    match report_text(alloc, con, view, which) {
        Ok(text) => done_answer(alloc, BodyType::Text, text.as_bytes()),
        Err(ReportFault::NotCertified) => Some(room.word(Word::NotCertified)),
        Err(ReportFault::OtherMethod) => Some(room.word(Word::OtherMethod)),
        Err(ReportFault::Memory) => None,
    }
}

/// Shows how far each constituency has come.
pub(crate) fn show_progress<K: Keeper>(alloc: Global, keeper: &mut K) -> Option<Vec<u8>>
    ensures stays { StaysKeeper K.Keeper keeper.old keeper.new }
    ensures gives { GivesBy K.Keeper ShowsProgress keeper.old result keeper.new }
{
    let room = Room::reserve(alloc)?;
    match progress_of(keeper) {
        Ok(rows) => progress_answer(alloc, &rows),
        Err(refusal) => Some(room.refusal(refusal)),
    }
}

/// The return of a station. It is shown, and nothing changes.
fn return_of<K: Keeper>(keeper: &mut K, station: Code) -> Result<Return, Refusal>
    ensures stays { StaysKeeper K.Keeper keeper.old keeper.new }
    ensures shows { K.IsTrusted keeper.new
        → Happens (K.constituencies keeper.old) (K.content keeper.old)
        (request (ShowReturn station) (as_return result)) (K.content keeper.new) }
    ensures kept { K.IsTrusted keeper.new
        → IfOk result (λ _. K.content keeper.new ≡ K.content keeper.old) }
{
    match keeper.answer(&Ask::ShowReturn { station }) {
        Ok(Reply::Return(kept)) => Ok(kept),
        Ok(_) => unreachable!(),
        Err(refusal) => Err(refusal),
    }
}

/// Shows the return of the station that a target names.
pub(crate) fn show_return<K: Keeper>(
    alloc: Global,
    keeper: &mut K,
    message: &Message,
) -> Option<Vec<u8>>
    ensures stays { StaysKeeper K.Keeper keeper.old keeper.new }
    ensures gives { GivesOn K.Keeper route.Return message.now keeper.old result keeper.new }
{
    let room = Room::reserve(alloc)?;
    let Some(station) = station_in_target(keeper.setup(), &message.target) else {
        return Some(room.refusal(Refusal::NoStation));
    };
    match return_of(keeper, station) {
        Ok(kept) => return_answer(alloc, station, &kept),
        Err(refusal) => Some(room.refusal(refusal)),
    }
}

/// Shows the constituency that a target names.
pub(crate) fn show_con<K: Keeper>(
    alloc: Global,
    keeper: &mut K,
    message: &Message,
) -> Option<Vec<u8>>
    ensures stays { StaysKeeper K.Keeper keeper.old keeper.new }
    ensures gives { GivesOn K.Keeper route.Con message.now keeper.old result keeper.new }
{
    let room = Room::reserve(alloc)?;
    let Some(code) = con_in_target(keeper.setup(), &message.target) else {
        return Some(room.refusal(Refusal::NoConstituency));
    };
    match keeper.show_con(code) {
        Ok(view) => con_shown(alloc, keeper.setup(), code, &view),
        Err(refusal) => Some(room.refusal(refusal)),
    }
}

/// Shows a report of the constituency that a target names.
pub(crate) fn show_report<K: Keeper>(
    alloc: Global,
    keeper: &mut K,
    message: &Message,
    which: Report,
) -> Option<Vec<u8>>
    ensures stays { StaysKeeper K.Keeper keeper.old keeper.new }
    ensures gives { GivesOn K.Keeper (route.Report which) message.now keeper.old result keeper.new }
{
    let room = Room::reserve(alloc)?;
    let Some(code) = con_in_target(keeper.setup(), &message.target) else {
        return Some(room.refusal(Refusal::NoConstituency));
    };
    match view_for(keeper, code, which) {
        Ok(view) => report_shown(alloc, room, keeper.setup(), code, &view, which),
        Err(refusal) => Some(room.refusal(refusal)),
    }
}
