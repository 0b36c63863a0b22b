//! What a keeper in memory answers to a command on a constituency.

ghost use Rattle.std.specs.Prelude.{◌≡◌, ◌+◌, ◌<◌, Some, IfErr, IfOk, OnErr, OnOk};
ghost use Rattle.tally_keeper.specs.internal.Held.{CanCarryOut, IsAfterChange, IsAnsweredOn};
ghost use Rattle.tally_keeper.specs.internal.Held.{IsHeld, TellsChange};
ghost use Rattle.tally_returns.specs.Named.{con_named};
ghost use Rattle.tally_returns.specs.declared.refusal.Refusal.TheVariants.{Memory};

use std::alloc::Global;
use tally_keeper::Ledger;
use tally_machine::decide_con;
use tally_returns::{Ask, Change, Refusal, Reply};
use tally_setup::Code;

/// Answers a command on the constituency of a code, and carries it out.
pub(super) fn answer_on_con(
    alloc: Global,
    ledger: &mut Ledger,
    code: Code,
    ask: &Ask,
) -> Result<Reply, Refusal>
    requires named { con_named ask.now ≡ Some code }
    requires held { IsHeld ledger.old }
    ensures step { IsAnsweredOn code ledger.old ask.now result ledger.new }
    ensures setup { ledger.new.setup ≡ ledger.old.setup }
    ensures held { IsHeld ledger.new }
{
    let Some(con) = ledger.setup().con(code) else {
        return Err(Refusal::NoConstituency);
    };
    let Some(view) = ledger.view(code) else {
        unreachable!()
    };
    let edition = view.edition;
    match decide_con(alloc, con, view, ask)? {
        Change::Same => Ok(Reply::Con(view.try_copy(alloc)?)),
        change => carry_out(ledger, code, edition, change),
    }
}

/// Carries out a change of the constituency of a code, which is at this edition.
fn carry_out(
    ledger: &mut Ledger,
    code: Code,
    edition: u32,
    change: Change,
) -> Result<Reply, Refusal>
    requires { CanCarryOut ledger.old code edition change }
    ensures reply { IfOk result (TellsChange edition change) }
    ensures carried_out { OnOk result (IsAfterChange ledger.old code change ledger.new) }
    ensures refused { IfErr result (λ refusal. refusal ≡ Memory) }
    ensures stays { OnErr result (ledger.new ≡ ledger.old) }
{
    match change {
        Change::SetLot(lot) => ledger.set_lot(code, lot),
        Change::SetCertified(seats) => ledger.set_certified(code, seats),
        Change::SetReopened(note, past) => ledger.set_reopened(code, note, past)?,
        Change::SetGone(gone, next) => {
            ledger.set_gone(code, gone)?;
            return Ok(Reply::Vacated { next });
        }
        _ => unreachable!(),
    }
    Ok(Reply::Edition {
        edition: edition + 1,
    })
}
