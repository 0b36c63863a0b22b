//! Requests on the return of a station.

ghost use Rattle.std.specs.Prelude.{◌≡◌, ◌≤◌, length, Some, IfOk, OnOk, true};
ghost use Rattle.tally_frac.specs.Limits.{most_lists};
ghost use Rattle.tally_keeper.specs.internal.Held.{moves_return};
ghost use Rattle.tally_returns.specs.Named.{station_named};
ghost use Rattle.tally_returns.specs.Return.{first_return};
ghost use Rattle.tally_returns.specs.declared.ask.Ask.TheVariants.{ShowReturn};
ghost use Rattle.tally_setup.specs.Limits.{IsSetup};
ghost use Rattle.tally_setup.specs.Setup.{station_with};
ghost use Rattle.tally_store_entries.specs.internal.Entries.{AddsReturn, Finds, FindsReturn};
ghost use Rattle.tally_store_commands.specs.internal.Found.{CarriesOutFound, IsLawfulIfFound};
ghost use Rattle.tally_store_commands.specs.internal.Found.{MovesTo};
ghost use Rattle.tally_store_commands.specs.internal.Found.{after_move};
ghost use Rattle.tally_store_schema.specs.internal.Inside.{InDatabase, OnlyReads, Stays};
ghost use Rattle.tally_store_schema.specs.internal.Inside.{StaysInside};
ghost use Rattle.tally_store_commands.specs.internal.Lodging.{DecidesLodge, IsFewIfLodged};
ghost use Rattle.tally_store_commands.specs.internal.Lodging.{WritesOnlyLodged};
ghost use Rattle.tally_store_commands.specs.internal.Moves.{PutsMoved};
ghost use Rattle.tally_store_commands.specs.internal.Counting.{CountsLodge};
ghost use Rattle.tally_store_commands.specs.internal.Requests.{AnswersIn, WasOpen};
ghost use Rattle.tally_store_commands.specs.internal.Answering.{AnswersSo};
ghost use Rattle.tally_store_commands.specs.internal.Found.{CarriesOut};
ghost use Rattle.tally_store_commands.specs.internal.Lodging.{Lodges};

use crate::known::{count_command, count_move, status_found};
use crate::moves::{put_closed, put_queried};
use crate::shown::see_open;
use sqlite::{Alter, Error, ErrorCode, Transaction};
use std::alloc::Global;
use std::collections::BTreeMap;
use tally_returns::{
    Ask, Change, Counts, LodgeReply, Refusal, Reply, Return, Status, decide_at, decide_lodge,
};
use tally_setup::{Code, Constituency, Setup, Station};
use tally_store_entries::{add_return, correct_return, find_certified, find_return};
use tally_store_rows::Statuses;

/// Lodges the return of a station.
pub(crate) fn lodge<S: Alter>(
    alloc: Global,
    tx: &mut Transaction<'_, S>,
    setup: &Setup,
    known: &mut BTreeMap<Code, Statuses>,
    station: Code,
    slip: Code,
    counts: &Counts,
) -> Result<Result<LodgeReply, Refusal>, Error>
    ensures stays { StaysInside S.Store tx.old tx.new }
    ensures lodged { InDatabase S.Store
        (Lodges setup.now station slip counts.now) tx.old tx.new result }
    ensures limits { OnOk result (IsSetup setup.now) }
    ensures known { CountsLodge setup.now station known.old known.new result }
    ensures unwritten { InDatabase S.Store WritesOnlyLodged tx.old tx.new result }
    ensures answered_open { InDatabase S.Store WasOpen tx.old tx.new result }
{
    let Some((con, place)) = setup.station(station) else {
        see_open(tx)?;
        return Ok(Err(Refusal::NoStation));
    };
    let answer = decide_first(alloc, tx, setup, con, place, station, slip, counts)?;
    let Ok(reply) = answer else {
        return Ok(answer);
    };
    let LodgeReply::Lodged { .. } = reply else {
        return Ok(Ok(reply));
    };
    put_first(alloc, tx, con, station, slip, counts)?;
    count_move(known, con.code, None, Status::Received);
    Ok(Ok(reply))
}

/// The answer to a Lodge at this station of this constituency.
fn decide_first<S: Alter>(
    alloc: Global,
    tx: &mut Transaction<'_, S>,
    setup: &Setup,
    con: &Constituency,
    place: &Station,
    station: Code,
    slip: Code,
    counts: &Counts,
) -> Result<Result<LodgeReply, Refusal>, Error>
    requires known { station_with station setup.now ≡ Some (con.now, place.now) }
    requires limits { IsSetup setup.now }
    ensures reads { OnlyReads S.Store tx.old tx.new result }
    ensures decided { InDatabase S.Store (DecidesLodge setup.now station slip counts.now)
        tx.old tx.new result }
    ensures few { IfOk result (IsFewIfLodged counts.now) }
{
    let found = find_return(alloc, tx, setup, station)?;
    let lists = con.lists.len();
    Ok(decide_lodge(lists, place.entitled(), found.as_ref(), slip, counts))
}

/// Writes the first return of a station of this constituency.
fn put_first<S: Alter>(
    alloc: Global,
    tx: &mut Transaction<'_, S>,
    con: &Constituency,
    station: Code,
    slip: Code,
    counts: &Counts,
) -> Result<(), Error>
    requires few { length counts.now.votes ≤ most_lists }
    ensures stays { Stays S.Store tx.old tx.new }
    ensures added { InDatabase S.Store
        (AddsReturn con.now.code station (first_return slip counts.now))
        tx.old tx.new result }
{
    let first = Return::lodged(alloc, slip, counts.try_copy(alloc)?);
    add_return(tx, con.code.as_str(), station.as_str(), &first)
}

/// Answers Query, Correct, Close and Confirm, and carries them out.
pub(crate) fn move_on<S: Alter>(
    alloc: Global,
    tx: &mut Transaction<'_, S>,
    setup: &Setup,
    known: &mut BTreeMap<Code, Statuses>,
    station: Code,
    ask: &Ask,
) -> Result<Result<Reply, Refusal>, Error>
    requires named { station_named ask.now ≡ Some station }
    requires moves { moves_return ask.now ≡ true }
    ensures stays { StaysInside S.Store tx.old tx.new }
    ensures answers { AnswersIn S.Store setup.now ask.now known.old known.new tx.old tx.new result }
{
    let Some((con, place)) = setup.station(station) else {
        see_open(tx)?;
        return Ok(Err(Refusal::NoStation));
    };
    let certified = find_certified(tx, con.code.as_str())?;
    let found = find_lawful(alloc, tx, setup, con, place, station)?;
    let before = status_found(&found);
    let answer = move_found(alloc, tx, setup, con, place, station, ask, certified, found)?;
    count_command(known, con.code, ask, before, answer.is_ok());
    Ok(answer)
}

/// The return of a station of this constituency, if it has one. One that is not lawful there is an
/// error.
fn find_lawful<S: Alter>(
    alloc: Global,
    tx: &mut Transaction<'_, S>,
    setup: &Setup,
    con: &Constituency,
    place: &Station,
    station: Code,
) -> Result<Option<Return>, Error>
    requires few { length con.now.lists ≤ most_lists }
    ensures reads { OnlyReads S.Store tx.old tx.new result }
    ensures found { Finds S.Store (FindsReturn setup.now station) tx.old tx.new result }
    ensures lawful { IfOk result (IsLawfulIfFound con.now place.now) }
{
    let Some(standing) = find_return(alloc, tx, setup, station)? else {
        return Ok(None);
    };
    if !standing.is_lawful(con, place) {
        return Err(Error::SqliteFailure(ErrorCode::DatabaseCorrupt));
    }
    Ok(Some(standing))
}

/// Answers a command that moves a return, by what was found of its station, and writes the return
/// that was decided on in place of that one.
fn move_found<S: Alter>(
    alloc: Global,
    tx: &mut Transaction<'_, S>,
    setup: &Setup,
    con: &Constituency,
    place: &Station,
    station: Code,
    ask: &Ask,
    certified: bool,
    found: Option<Return>,
) -> Result<Result<Reply, Refusal>, Error>
    requires limits { IsSetup setup.now }
    requires known { station_with station setup.now ≡ Some (con.now, place.now) }
    requires named { station_named ask.now ≡ Some station }
    requires moves { moves_return ask.now ≡ true }
    requires lawful { IsLawfulIfFound con.now place.now found }
    ensures stays { StaysInside S.Store tx.old tx.new }
    ensures answers { AnswersSo S.Store setup.now ask.now
        (CarriesOutFound setup.now con.now station certified found ask.now) tx.old tx.new result }
{
    let change = match decide_at(alloc, con, place, certified, found.as_ref(), ask) {
        Ok(change) => change,
        Err(refusal) => return Ok(Err(refusal)),
    };
    let Change::PutReturn(standing) = change else {
        unreachable!()
    };
    let Some(before) = found else { unreachable!() };
    put_moved(alloc, tx, con, station, ask, &before, &standing)?;
    Ok(Ok(Reply::Moved { rev: standing.rev }))
}

/// Writes the return that a command leaves, in place of the one that was recorded.
fn put_moved<S: Alter>(
    alloc: Global,
    tx: &mut Transaction<'_, S>,
    con: &Constituency,
    station: Code,
    ask: &Ask,
    before: &Return,
    standing: &Return,
) -> Result<(), Error>
    requires few { length con.now.lists ≤ most_lists }
    requires moves { MovesTo con.now ask.now before.now standing.now }
    ensures stays { StaysInside S.Store tx.old tx.new }
    ensures put { InDatabase S.Store (PutsMoved (after_move con.now station ask.now standing.now)
        con.now station before.now) tx.old tx.new result }
{
    match ask {
        Ask::Query { .. } => put_queried(alloc, tx, con, station, before, standing),
        Ask::Correct { .. } => correct_return(tx, station.as_str(), standing),
        Ask::Close { .. } => put_closed(alloc, tx, con, station, before, standing),
        Ask::Confirm { .. } => put_closed(alloc, tx, con, station, before, standing),
        _ => unreachable!(),
    }
}

/// The return of a station, shown.
pub(crate) fn show_return<S: Alter>(
    alloc: Global,
    tx: &mut Transaction<'_, S>,
    setup: &Setup,
    station: Code,
) -> Result<Result<Reply, Refusal>, Error>
    ensures stays { StaysInside S.Store tx.old tx.new }
    ensures answers { AnswersSo S.Store setup.now (ShowReturn station)
        (CarriesOut setup.now (ShowReturn station)) tx.old tx.new result }
    ensures answered_open { InDatabase S.Store WasOpen tx.old tx.new result }
{
    if setup.station(station).is_none() {
        see_open(tx)?;
        return Ok(Err(Refusal::NoStation));
    }
    let Some(standing) = find_return(alloc, tx, setup, station)? else {
        return Ok(Err(Refusal::NoReturn));
    };
    Ok(Ok(Reply::Return(standing)))
}
