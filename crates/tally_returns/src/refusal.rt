//! Refusals. A command that the machine refuses changes nothing.

ghost use Rattle.std.specs.Prelude.{◌≡◌, ◌≤◌, length};

use crate::returns::Status;
use std::alloc::AllocError;
use tally_frac::ListSet;

/// Why a command was refused: the first of its checks that failed. `Memory` and `Store` are
/// outside that order.
#[derive(Clone, Copy, Debug, PartialEq, Eq)]
pub enum Refusal {
    /// No station has the code.
    NoStation,
    /// No constituency has the code.
    NoConstituency,
    /// The constituency has no such list, or the list no candidate at that place (from 1).
    NoCandidate,
    /// There is not one number for each list, or a number is above 1,000,000.
    BadCounts,
    /// The note is not of 1 to 200 bytes, or has a control byte.
    BadNote,
    /// The votes, blank and spoiled ones with them, are more than the station's electors and
    /// agents.
    TooManyVotes,
    /// The recorded return of the station, at this revision, has another slip or other counts.
    Differs { rev: u32 },
    /// The station has no return.
    NoReturn,
    /// The constituency is certified.
    Certified,
    /// The constituency is not certified.
    NotCertified,
    /// The revision or edition named is not the present one, which is `now`.
    Stale { now: u32 },
    /// The return is at the last revision, or the constituency at the last edition: 9,999.
    Exhausted,
    /// The command does not start from this status.
    WrongStatus { status: Status },
    /// This many stations, 1 or more, have no closed return.
    NotAllClosed { left: u32 },
    /// No list is eligible (LOREG article 163.1 a)).
    NoEligible,
    /// A lot is recorded already.
    LotStands,
    /// The votes decide, so that no lot is needed.
    LotNotNeeded,
    /// The order does not name each list of this group once and no other.
    LotWrongGroup { group: ListSet },
    /// A lot among these lists is needed, for this many seats, and none is recorded (LOREG article
    /// 163.1 d)).
    LotMissing { group: ListSet, seats: u32 },
    /// The candidate is gone already.
    AlreadyGone,
    /// The candidate holds no seat now.
    NotHolder,
    /// The return needs a second entry, which alone closes it.
    NotConfirmed,
    /// An allocation of this request was refused.
    Memory,
    /// A database call of this request was refused for a cause other than memory, or the rows of
    /// the database are not those of an office.
    Store,
}

impl Refusal {
    ghost use Rattle.tally_returns.specs.Refusals.{refusal_number, refusal_word};

    /// The refusal's number, by which the office's answers and texts name it.
    pub fn number(&self) -> u32
        ensures { result ≡ refusal_number self.now }
    {
        match self {
            Refusal::NoStation => 1,
            Refusal::NoConstituency => 2,
            Refusal::NoCandidate => 3,
            Refusal::BadCounts => 4,
            Refusal::BadNote => 5,
            Refusal::TooManyVotes => 6,
            Refusal::Differs { .. } => 7,
            Refusal::NoReturn => 8,
            Refusal::Certified => 9,
            Refusal::NotCertified => 10,
            Refusal::Stale { .. } => 11,
            Refusal::Exhausted => 12,
            Refusal::WrongStatus { .. } => 13,
            Refusal::NotAllClosed { .. } => 14,
            Refusal::NoEligible => 15,
            Refusal::LotStands => 16,
            Refusal::LotNotNeeded => 17,
            Refusal::LotWrongGroup { .. } => 18,
            Refusal::LotMissing { .. } => 19,
            Refusal::AlreadyGone => 20,
            Refusal::NotHolder => 21,
            Refusal::Memory => 22,
            Refusal::Store => 23,
            Refusal::NotConfirmed => 24,
        }
    }

    /// The refusal's word, as answers and texts show it.
    pub fn word(&self) -> &'static str
        ensures word { result.now ≡ refusal_word self.now }
        ensures short { length result.now ≤ 16 }
    {
        match self {
            Refusal::NoStation => "no_station",
            Refusal::NoConstituency => "no_constituency",
            Refusal::NoCandidate => "no_candidate",
            Refusal::BadCounts => "bad_counts",
            Refusal::BadNote => "bad_note",
            Refusal::TooManyVotes => "too_many_votes",
            Refusal::Differs { .. } => "differs",
            Refusal::NoReturn => "no_return",
            Refusal::Certified => "certified",
            Refusal::NotCertified => "not_certified",
            Refusal::Stale { .. } => "stale",
            Refusal::Exhausted => "exhausted",
            Refusal::WrongStatus { .. } => "wrong_status",
            Refusal::NotAllClosed { .. } => "not_all_closed",
            Refusal::NoEligible => "no_eligible",
            Refusal::LotStands => "lot_stands",
            Refusal::LotNotNeeded => "lot_not_needed",
            Refusal::LotWrongGroup { .. } => "lot_wrong_group",
            Refusal::LotMissing { .. } => "lot_missing",
            Refusal::AlreadyGone => "already_gone",
            Refusal::NotHolder => "not_holder",
            Refusal::NotConfirmed => "not_confirmed",
            Refusal::Memory | Refusal::Store => "unavailable",
        }
    }
}

impl From<AllocError> for Refusal {
    ghost use Rattle.tally_returns.specs.declared.refusal.Refusal.TheVariants.{Memory};

    ghost from_gives = { λ _ refusal. refusal ≡ Memory };

    fn from(_refused: AllocError) -> Refusal {
        Refusal::Memory
    }
}
