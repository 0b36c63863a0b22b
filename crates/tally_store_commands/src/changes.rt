//! Changes of a constituency, carried out on its tables.

ghost use Rattle.std.specs.Prelude.{◌≡◌, ◌≢◌, Ok, Some, IfOk, true};
ghost use Rattle.tally_machine_law.specs.Kinds.{IsReplyTo};
ghost use Rattle.tally_machine_law.specs.Runs.{is_act};
ghost use Rattle.tally_machine_law.specs.Step.{Decides, IsConDecision, certified_with};
ghost use Rattle.tally_machine_law.specs.Step.{gone_for_good};
ghost use Rattle.tally_machine_law.specs.Step.{lot_set, open_again};
ghost use Rattle.tally_returns.specs.Named.{con_named};
ghost use Rattle.tally_returns.specs.View.{FitsView};
ghost use Rattle.tally_returns.specs.declared.change.Change.TheVariants.{Same};
ghost use Rattle.tally_setup.specs.Setup.{constituency_with};
ghost use Rattle.tally_store_commands.specs.internal.Changes.{CarriesChange, CarriesDecided};
ghost use Rattle.tally_store_schema.specs.internal.Inside.{InDatabase, Stays, StaysInside};

use sqlite::{Alter, Error, Transaction};
use tally_returns::{Ask, Change, ConView, Gone, Past, Reply};
use tally_setup::{Constituency, Setup};
use tally_store_entries::{put_con, put_gone, put_lot, put_record, put_seats};

/// Carries out what was decided of a request on a constituency, of which this was seen.
pub(crate) fn carry_out<S: Alter>(
    tx: &mut Transaction<'_, S>,
    setup: &Setup,
    con: &Constituency,
    view: &ConView,
    ask: &Ask,
    change: Change,
) -> Result<Reply, Error>
    requires found { constituency_with con.now.code setup.now ≡ Some con.now }
    requires named { con_named ask.now ≡ Some con.now.code }
    requires fits { FitsView con.now view.now }
    requires decided { IsConDecision con.now view.now ask.now change }
    requires changes { change ≢ Same }
    ensures stays { StaysInside S.Store tx.old tx.new }
    ensures kind { IfOk result (IsReplyTo setup.now ask.now) }
    ensures carried_out { InDatabase S.Store (CarriesChange setup.now con.now view.now change)
        tx.old tx.new result }
    ensures acts { IfOk result (λ reply. is_act (Ok reply) ≡ true) }
{
    match change {
        Change::SetLot(lot) => set_lot(tx, setup, con, view, ask, &lot),
        Change::SetCertified(seats) => set_certified(tx, setup, con, view, ask, &seats),
        Change::SetReopened(note, past) => {
            set_reopened(tx, setup, con, view, ask, note.as_str(), &past)
        }
        Change::SetGone(gone, next) => set_gone(tx, setup, con, view, ask, &gone, next),
        _ => unreachable!(),
    }
}

/// Records a lot: the places of the lists, in its order.
fn set_lot<S: Alter>(
    tx: &mut Transaction<'_, S>,
    setup: &Setup,
    con: &Constituency,
    view: &ConView,
    ask: &Ask,
    lot: &[u32],
) -> Result<Reply, Error>
    requires found { constituency_with con.now.code setup.now ≡ Some con.now }
    requires fits { FitsView con.now view.now }
    requires decided { Decides con.now view.now ask.now (Ok (lot_set lot.now)) }
    ensures stays { Stays S.Store tx.old tx.new }
    ensures kind { IfOk result (IsReplyTo setup.now ask.now) }
    ensures carried_out { InDatabase S.Store
        (CarriesDecided setup.now con.now view.now (lot_set lot.now))
        tx.old tx.new result }
    ensures acts { IfOk result (λ reply. is_act (Ok reply) ≡ true) }
{
    let code = con.code.as_str();
    let edition = view.edition + 1;
    put_con(tx, code, edition, view.certified, view.note.as_str())?;
    put_lot(tx, code, lot)?;
    Ok(Reply::Edition { edition })
}

/// Certifies a constituency, with these seats of its lists.
fn set_certified<S: Alter>(
    tx: &mut Transaction<'_, S>,
    setup: &Setup,
    con: &Constituency,
    view: &ConView,
    ask: &Ask,
    seats: &[u32],
) -> Result<Reply, Error>
    requires found { constituency_with con.now.code setup.now ≡ Some con.now }
    requires fits { FitsView con.now view.now }
    requires decided { Decides con.now view.now ask.now (Ok (certified_with seats.now)) }
    ensures stays { Stays S.Store tx.old tx.new }
    ensures kind { IfOk result (IsReplyTo setup.now ask.now) }
    ensures carried_out { InDatabase S.Store (CarriesDecided setup.now con.now view.now
        (certified_with seats.now)) tx.old tx.new result }
    ensures acts { IfOk result (λ reply. is_act (Ok reply) ≡ true) }
{
    let code = con.code.as_str();
    let edition = view.edition + 1;
    put_con(tx, code, edition, true, view.note.as_str())?;
    put_seats(tx, code, seats)?;
    Ok(Reply::Edition { edition })
}

/// Opens a constituency again with this note, and puts its certificate on record.
fn set_reopened<S: Alter>(
    tx: &mut Transaction<'_, S>,
    setup: &Setup,
    con: &Constituency,
    view: &ConView,
    ask: &Ask,
    note: &str,
    past: &Past,
) -> Result<Reply, Error>
    requires found { constituency_with con.now.code setup.now ≡ Some con.now }
    requires fits { FitsView con.now view.now }
    requires decided { Decides con.now view.now ask.now (Ok (open_again note.now past.now)) }
    ensures stays { Stays S.Store tx.old tx.new }
    ensures kind { IfOk result (IsReplyTo setup.now ask.now) }
    ensures carried_out { InDatabase S.Store (CarriesDecided setup.now con.now view.now
        (open_again note.now past.now)) tx.old tx.new result }
    ensures acts { IfOk result (λ reply. is_act (Ok reply) ≡ true) }
{
    let code = con.code.as_str();
    let edition = view.edition + 1;
    put_con(tx, code, edition, false, note)?;
    put_seats(tx, code, &[])?;
    put_record(tx, code, past)?;
    Ok(Reply::Edition { edition })
}

/// Writes that a candidate is gone, and answers who moves in.
fn set_gone<S: Alter>(
    tx: &mut Transaction<'_, S>,
    setup: &Setup,
    con: &Constituency,
    view: &ConView,
    ask: &Ask,
    gone: &Gone,
    next: Option<u32>,
) -> Result<Reply, Error>
    requires found { constituency_with con.now.code setup.now ≡ Some con.now }
    requires named { con_named ask.now ≡ Some con.now.code }
    requires decided { Decides con.now view.now ask.now (Ok (gone_for_good gone.now next)) }
    ensures stays { Stays S.Store tx.old tx.new }
    ensures kind { IfOk result (IsReplyTo setup.now ask.now) }
    ensures carried_out { InDatabase S.Store (CarriesDecided setup.now con.now view.now
        (gone_for_good gone.now next)) tx.old tx.new result }
    ensures acts { IfOk result (λ reply. is_act (Ok reply) ≡ true) }
{
    put_gone(tx, con.code.as_str(), gone)?;
    Ok(Reply::Vacated { next })
}
