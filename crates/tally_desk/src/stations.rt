//! Answers on the stations of a constituency and their returns.

ghost use Rattle.std.specs.Prelude.{◌≡◌, IfSome, Some};
ghost use Rattle.tally_setup.specs.Constituency as value;
ghost use Rattle.tally_setup.specs.Setup.{constituency_with};
ghost use Rattle.tally_keeper.specs.StaysKeeper.{StaysKeeper};
ghost use Rattle.tally_desk.specs.internal.RowsAnswer.{rows_answer};
ghost use Rattle.tally_desk.specs.internal.Gives.{GivesBy};
ghost use Rattle.tally_desk.specs.Requests.{AtCon, ShowsRows};

use crate::named::con_in_target;
use crate::room::{Room, done_answer};
use std::alloc::Global;
use tally_desk_answer::BodyType;
use tally_desk_message::Message;
use tally_keeper::Keeper;
use tally_report_names::StationsReport;
use tally_report_overview::{returns_text, stations_text};
use tally_returns::{Refusal, StationRow};
use tally_setup::{Code, Setup};

/// The answer that shows a report of the stations of the constituency of a code.
fn rows_shown(
    alloc: Global,
    setup: &Setup,
    code: Code,
    rows: &[StationRow],
    report: StationsReport,
) -> Option<Vec<u8>>
    ensures { IfSome result (λ text. (con : value.Constituency)
        → constituency_with code setup.now ≡ Some con
        → text.items ≡ rows_answer report con rows.now) }
{
    let con = setup.con(code)?;
    match report {
        StationsReport::Returns => match returns_text(alloc, con, rows) {
            Ok(text) => done_answer(alloc, BodyType::Csv, &text),
            Err(_) => None,
        },
        StationsReport::Stations => match stations_text(alloc, con, rows) {
            Ok(text) => done_answer(alloc, BodyType::Text, text.as_bytes()),
            Err(_) => None,
        },
    }
}

/// Shows a report of the stations of the constituency that a target names.
pub(crate) fn show_rows<K: Keeper>(
    alloc: Global,
    keeper: &mut K,
    message: &Message,
    report: StationsReport,
) -> Option<Vec<u8>>
    ensures stays { StaysKeeper K.Keeper keeper.old keeper.new }
    ensures gives { GivesBy K.Keeper (λ setup state. AtCon setup state message.now
        (λ code con. ShowsRows setup state code (rows_answer report con)))
        keeper.old result keeper.new }
{
    let room = Room::reserve(alloc)?;
    let Some(code) = con_in_target(keeper.setup(), &message.target) else {
        return Some(room.refusal(Refusal::NoConstituency));
    };
    match keeper.show_returns(code) {
        Ok(rows) => rows_shown(alloc, keeper.setup(), code, &rows, report),
        Err(refusal) => Some(room.refusal(refusal)),
    }
}
