//! Why a report is not given.

ghost use Rattle.std.specs.Prelude.{◌≡◌};
ghost use Rattle.tally_report.specs.Fault.{report_fault_number};
ghost use Rattle.tally_report.specs.declared.fault.ReportFault.TheVariants.{Memory};

use std::alloc::AllocError;

/// Why a report is not given, in the order in which this is checked. Memory may come at any time.
#[derive(Clone, Copy, Debug, PartialEq, Eq)]
pub enum ReportFault {
    /// The constituency is not certified, and the report is of seats.
    NotCertified,
    /// The report is on divisors and the seats are allotted by quotas, or the other way round.
    OtherMethod,
    /// An allocation was refused.
    Memory,
}

impl From<AllocError> for ReportFault {
    ghost from_gives = { λ _ fault. fault ≡ Memory };

    fn from(_refused: AllocError) -> ReportFault {
        ReportFault::Memory
    }
}

impl ReportFault {
    /// The fault's number.
    pub fn number(&self) -> u32
        ensures { result ≡ report_fault_number self.now }
    {
        match self {
            ReportFault::NotCertified => 1,
            ReportFault::OtherMethod => 2,
            ReportFault::Memory => 3,
        }
    }
}
