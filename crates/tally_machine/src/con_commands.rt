//! What is decided of a command on a constituency.

ghost use Rattle.std.specs.Prelude.{◌≡◌, Some, IfOk, IfErr};
ghost use Rattle.tally_machine_law.specs.Step.{IsConDecision, IsConRefusal};
ghost use Rattle.tally_returns.specs.Named.{con_named};
ghost use Rattle.tally_returns.specs.View.{FitsView};

use crate::certification::{certify, draw, reopen};
use crate::vacancy::vacate;
use std::alloc::Global;
use tally_returns::{Ask, Change, ConView, Refusal};
use tally_setup::Constituency;

/// The change that a command on a constituency makes, or its refusal: on this constituency, of
/// which this is seen.
pub fn decide_con(
    alloc: Global,
    con: &Constituency,
    view: &ConView,
    ask: &Ask,
) -> Result<Change, Refusal>
    requires named { con_named ask.now ≡ Some con.now.code }
    requires fits { FitsView con.now view.now }
    ensures decided { IfOk result (IsConDecision con.now view.now ask.now) }
    ensures refused { IfErr result (IsConRefusal con.now view.now ask.now) }
{
    match ask {
        Ask::Draw { edition, order, .. } => {
            Ok(Change::SetLot(draw(alloc, con, view, *edition, order)?))
        }
        Ask::Certify { edition, .. } => {
            Ok(Change::SetCertified(certify(alloc, con, view, *edition)?))
        }
        Ask::Reopen { edition, note, .. } => {
            let reopening = reopen(alloc, view, *edition, note)?;
            Ok(Change::SetReopened(reopening.note, reopening.past))
        }
        Ask::Vacate {
            list,
            place,
            note,
            ..
        } => {
            let vacancy = vacate(alloc, con, view, *list, *place, note)?;
            Ok(Change::SetGone(vacancy.gone, vacancy.next))
        }
        Ask::ShowCon { .. } => Ok(Change::Same),
        _ => unreachable!(),
    }
}
