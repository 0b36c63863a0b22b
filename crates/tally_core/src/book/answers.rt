//! What a keeper in memory answers.

ghost use Rattle.std.specs.Prelude.{◌≡◌, ◌⊎◌, true, false, Some, Err, IsSome};
ghost use Rattle.tally_keeper.specs.internal.Held.{IsAnsweredInMemory, IsHeld, CarriesOutLodge};
ghost use Rattle.tally_keeper.specs.internal.Held.{IsMoved, is_query, lodge_answer_in};
ghost use Rattle.tally_keeper.specs.internal.Held.{moves_return};
ghost use Rattle.tally_keeper.specs.Kept.{state_in, with_no_lot};
ghost use Rattle.tally_returns.specs.Named.{station_named};
ghost use Rattle.tally_machine_law.specs.Step.{answer, reply_seen};
ghost use Rattle.tally_setup.specs.Setup.{constituency_with};
ghost use Rattle.tally_returns.specs.declared.ask.Ask.TheVariants.{ShowReturn};
ghost use Rattle.tally_returns.specs.declared.refusal.Refusal.TheVariants.{Memory};

use super::constituencies::answer_on_con;
use std::alloc::Global;
use tally_keeper::Ledger;
use tally_returns::{
    Ask, Change, Counts, LodgeReply, Refusal, Reply, Return, decide_at, decide_lodge,
};
use tally_setup::Code;

/// Answers a request and carries it out. What can fail is done before anything is changed.
pub(super) fn answer_in(alloc: Global, ledger: &mut Ledger, ask: &Ask) -> Result<Reply, Refusal>
    requires held { IsHeld ledger.old }
    ensures step { IsAnsweredInMemory ledger.old.setup (state_in ledger.old) ask.now result
        (state_in ledger.new) }
    ensures setup { ledger.new.setup ≡ ledger.old.setup }
    ensures held { IsHeld ledger.new }
{
    // Called for what its contract says: a slip is a code.
    let _slip = ask.slip();
    if let Some(con) = ask.con() {
        return answer_on_con(alloc, ledger, con, ask);
    }
    match ask {
        Ask::Lodge {
            station,
            slip,
            counts,
        } => lodge(alloc, ledger, *station, *slip, counts),
        Ask::Query { station, .. } => move_on(alloc, ledger, *station, ask),
        Ask::Correct { station, .. } => move_on(alloc, ledger, *station, ask),
        Ask::Close { station, .. } => move_on(alloc, ledger, *station, ask),
        Ask::Confirm { station, .. } => move_on(alloc, ledger, *station, ask),
        Ask::ShowReturn { station } => show_return(alloc, ledger, *station),
        Ask::ShowProgress => Ok(Reply::Progress(ledger.progress(alloc)?)),
        _ => unreachable!(),
    }
}

fn lodge(
    alloc: Global,
    ledger: &mut Ledger,
    station: Code,
    slip: Code,
    counts: &Counts,
) -> Result<Reply, Refusal>
    ensures { CarriesOutLodge ledger.old station slip counts.now result ledger.new }
{
    let reply = decide_first(ledger, station, slip, counts)?;
    let LodgeReply::Lodged { .. } = reply else {
        return Ok(Reply::from(reply));
    };
    // Called for what its contract says: a slip is a code.
    let _slip = slip.as_bytes();
    let first = Return::lodged(alloc, slip, counts.try_copy(alloc)?);
    ledger.put(station, first)?;
    Ok(Reply::from(reply))
}

/// The answer to a Lodge.
pub(super) fn decide_first(
    ledger: &Ledger,
    station: Code,
    slip: Code,
    counts: &Counts,
) -> Result<LodgeReply, Refusal>
    ensures { result ≡ lodge_answer_in ledger.now station slip counts.now }
{
    let Some((con, place)) = ledger.setup().station(station) else {
        return Err(Refusal::NoStation);
    };
    let found = ledger.return_at(station);
    decide_lodge(con.lists.len(), place.entitled(), found, slip, counts)
}

/// Query, Correct, Close and Confirm.
fn move_on(alloc: Global, ledger: &mut Ledger, station: Code, ask: &Ask) -> Result<Reply, Refusal>
    requires named { station_named ask.now ≡ Some station }
    requires moves { moves_return ask.now ≡ true }
    requires held { IsHeld ledger.old }
    ensures { IsMoved ledger.old ask.now result ledger.new }
{
    let Some((con, place)) = ledger.setup().station(station) else {
        return Err(Refusal::NoStation);
    };
    let code = con.code;
    let Some(view) = ledger.view(code) else {
        unreachable!()
    };
    let found = ledger.return_at(station);
    let next = match decide_at(alloc, con, place, view.certified, found, ask)? {
        Change::PutReturn(next) => next,
        _ => unreachable!(),
    };
    let rev = next.rev;
    ledger.put(station, next)?;
    take_lot(ledger, code, ask);
    Ok(Reply::Moved { rev })
}

/// A query takes the lot of its constituency with it.
fn take_lot(ledger: &mut Ledger, con: Code, ask: &Ask)
    requires known { IsSome (constituency_with con ledger.old.setup) }
    ensures query { is_query ask.now ≡ true → ledger.new ≡ with_no_lot ledger.old con }
    ensures other { is_query ask.now ≡ false → ledger.new ≡ ledger.old }
{
    if let Ask::Query { .. } = ask {
        ledger.drop_lot(con);
    }
}

fn show_return(alloc: Global, ledger: &Ledger, station: Code) -> Result<Reply, Refusal>
    ensures { (reply_seen result ≡
        answer ledger.now.setup (state_in ledger.now) (ShowReturn station))
        ⊎ (result ≡ Err Memory) }
{
    if ledger.setup().station(station).is_none() {
        return Err(Refusal::NoStation);
    }
    let Some(standing) = ledger.return_at(station) else {
        return Err(Refusal::NoReturn);
    };
    Ok(Reply::Return(standing.try_copy(alloc)?))
}
