//! Why seats are not allotted.

ghost use Rattle.std.specs.Prelude.{◌≡◌};
ghost use Rattle.tally_allot.specs.AllotFault.{allot_fault_number};
ghost use Rattle.tally_allot.specs.declared.fault.AllotFault.TheVariants.{Memory};

use std::alloc::{AllocError, AllocFailed};
use tally_frac::ListSet;
use thiserror::Error;

/// Why the seats of a poll are not allotted, in the order in which this is checked. Memory may come
/// at any time.
#[derive(Clone, Copy, Debug, PartialEq, Eq, Error)]
pub enum AllotFault {
    /// 1: no list is eligible.
    #[error("no list is eligible")]
    NoEligible,
    /// 2: a lot is needed and none is given.
    #[error("a lot is needed and none is given")]
    LotMissing {
        /// The lists among which the lot decides.
        group: ListSet,
        /// The seats that it decides.
        seats: u32,
    },
    /// 3: a lot is given where the votes decide, or one that does not name each list of the group
    /// once and no other.
    #[error("the lot is not the one to be taken")]
    WrongLot,
    /// 4: an allocation was refused.
    #[error("out of memory")]
    Memory,
}

impl AllotFault {
    /// The fault's number.
    pub fn number(&self) -> u32
        ensures { result ≡ allot_fault_number self.now }
    {
        match self {
            AllotFault::NoEligible => 1,
            AllotFault::LotMissing { .. } => 2,
            AllotFault::WrongLot => 3,
            AllotFault::Memory => 4,
        }
    }
}

impl From<AllocError> for AllotFault {
    ghost from_gives = { λ _ fault. fault ≡ Memory };

    fn from(_refused: AllocError) -> AllotFault {
        AllotFault::Memory
    }
}

impl<T: Drop> From<AllocFailed<T>> for AllotFault {
    ghost from_gives = { λ _ fault. fault ≡ Memory };

    fn from(_refused: AllocFailed<T>) -> AllotFault {
        AllotFault::Memory
    }
}
