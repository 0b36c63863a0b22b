//! Whether a lot is the one to be taken.

ghost use Rattle.std.specs.Prelude.{◌≢◌, IfErr, OnOk};
ghost use Rattle.tally_law.specs.Poll.{HasEligible};
ghost use Rattle.tally_allot.specs.declared.fault.AllotFault.TheVariants.{Memory};
ghost use Rattle.tally_allot.specs.internal.OnTerms.{IsFaultOn, IsLotTakenOn};
ghost use Rattle.tally_allot_award.specs.internal.Terms.{AreFairSeats, AreSound};

use crate::fault::AllotFault;
use tally_allot_award::{Contest, is_order_of, need_of};

/// Checks the contest's lot by seats that the votes allow. Where they leave a group of lists alike,
/// it has to be an order of that group; elsewhere it has to be empty.
pub(crate) fn check_lot<C: Contest>(contest: &C, seats: &[u32]) -> Result<(), AllotFault>
    requires sound { AreSound (C.terms contest.now) }
    requires eligible { HasEligible (C.terms contest.now).poll }
    requires fair { AreFairSeats (C.terms contest.now) seats.now }
    ensures taken { OnOk result (IsLotTakenOn (C.terms contest.now)) }
    ensures fault { IfErr result (IsFaultOn (C.terms contest.now)) }
    ensures never_memory { IfErr result (λ fault. fault ≢ Memory) }
{
    let lot = contest.lot();
    match need_of(contest, seats) {
        None => {
            if lot.is_empty() {
                Ok(())
            } else {
                Err(AllotFault::WrongLot)
            }
        }
        Some(need) => {
            if lot.is_empty() {
                Err(AllotFault::LotMissing {
                    group: need.group,
                    seats: need.seats,
                })
            } else if is_order_of(&need.group, lot) {
                Ok(())
            } else {
                Err(AllotFault::WrongLot)
            }
        }
    }
}
