//! Why votes come to no seats.

ghost use Rattle.std.specs.Prelude.{◌≡◌, ◌++◌, IfOk, OnOk, string_bytes};
ghost use Rattle.tally_import_votes.specs.Troubles.{allot_line, allot_status, bad_row_text};
ghost use Rattle.tally_import_votes.specs.Troubles.{bad_votes_text, codes_text, missing_text};
ghost use Rattle.tally_import_votes.specs.Troubles.{trouble_text, votes_fault_status};
ghost use Rattle.tally_import_votes.specs.Troubles.{votes_fault_text};
ghost use Rattle.tally_import_votes.specs.declared.fault.VotesFault.TheVariants.{Memory};

use std::alloc::{AllocError, AllocFailed, Global};
use tally_setup::Code;

/// Why a row of votes is bad.
#[derive(Clone, Copy, Debug, PartialEq, Eq)]
pub enum BadVotes {
    /// It has this many fields, and not two.
    Fields(usize),
    /// Its first field is not a code.
    BadList,
    /// A row before it has this code.
    Duplicate(Code),
    /// Its second field is not 1 to 10 digits, or more than 5,000,000,000.
    BadNumber,
}

/// Why a text is not votes, in the order of its bytes. Memory may come at any time.
#[derive(Clone, Copy, Debug, PartialEq, Eq)]
pub enum VotesFault {
    /// There is no header, or it is not `list,votes`.
    BadHeader,
    /// A row, by its number from 1, is bad.
    BadRow(u32, BadVotes),
    /// There are more than 60 rows.
    TooManyLists,
    /// There are more than 1,048,576 bytes.
    TooLong,
    /// A read failed.
    Read,
    /// There is no row.
    NoList,
    /// There are more than 5,000,000,000 votes, the blank ones among them.
    TooManyVotes,
    /// Out of memory.
    Memory,
}

impl From<AllocError> for VotesFault {
    ghost from_gives = { λ _ fault. fault ≡ Memory };

    fn from(_error: AllocError) -> VotesFault {
        VotesFault::Memory
    }
}

impl<T: Drop> From<AllocFailed<T>> for VotesFault {
    ghost from_gives = { λ _ fault. fault ≡ Memory };

    fn from(_error: AllocFailed<T>) -> VotesFault {
        VotesFault::Memory
    }
}

/// Why the seats of a text of votes were not written.
#[derive(Drop)]
pub enum AllotTrouble {
    /// The text is not votes.
    Votes(VotesFault),
    /// No list is eligible.
    NoEligible,
    /// A lot is needed for this many seats among lists of these codes, and none is given.
    LotMissing(u32, Vec<Code>),
    /// The lot is not the one to be taken.
    WrongLot,
    /// Out of memory.
    Memory,
    /// A write failed or took nothing.
    Write,
}

impl AllotTrouble {
    /// The exit status: 1 where what was asked is refused, 3 where something failed.
    pub fn status(&self) -> u8
        ensures { result ≡ allot_status self.now }
    {
        match self {
            AllotTrouble::Votes(fault) => status_of(fault),
            AllotTrouble::NoEligible | AllotTrouble::LotMissing(_, _) | AllotTrouble::WrongLot => 1,
            AllotTrouble::Memory | AllotTrouble::Write => 3,
        }
    }

    /// Its line on standard error.
    pub fn line(&self, alloc: Global) -> Result<String, AllocError>
        ensures { IfOk result (λ line. string_bytes line ≡ allot_line self.now) }
    {
        let mut line = String::new(alloc);
        push_trouble(&mut line, self)?;
        line.push_str("\n")?;
        Ok(line)
    }
}

fn status_of(fault: &VotesFault) -> u8
    ensures { result ≡ votes_fault_status fault.now }
{
    match fault {
        VotesFault::Read | VotesFault::Memory => 3,
        _ => 1,
    }
}

fn push_trouble(text: &mut String, trouble: &AllotTrouble) -> Result<(), AllocError>
    ensures { OnOk result (string_bytes text.new
        ≡ string_bytes text.old ++ trouble_text trouble.now) }
{
    match trouble {
        AllotTrouble::Votes(fault) => push_fault(text, fault),
        AllotTrouble::NoEligible => text.push_str("refused: no_eligible"),
        AllotTrouble::LotMissing(seats, codes) => push_missing(text, *seats, codes),
        AllotTrouble::WrongLot => text.push_str("refused: wrong_lot"),
        AllotTrouble::Memory => text.push_str("failed: memory"),
        AllotTrouble::Write => text.push_str("failed: write"),
    }
}

fn push_fault(text: &mut String, fault: &VotesFault) -> Result<(), AllocError>
    ensures { OnOk result (string_bytes text.new
        ≡ string_bytes text.old ++ votes_fault_text fault.now) }
{
    match fault {
        VotesFault::BadHeader => text.push_str("refused: bad_header"),
        VotesFault::BadRow(number, cause) => push_bad(text, *number, cause),
        VotesFault::TooManyLists => text.push_str("refused: too_many_lists"),
        VotesFault::TooLong => text.push_str("refused: too_long"),
        VotesFault::Read => text.push_str("failed: read"),
        VotesFault::NoList => text.push_str("refused: no_list"),
        VotesFault::TooManyVotes => text.push_str("refused: too_many_votes"),
        VotesFault::Memory => text.push_str("failed: memory"),
    }
}

fn push_bad(text: &mut String, number: u32, cause: &BadVotes) -> Result<(), AllocError>
    ensures { OnOk result (string_bytes text.new
        ≡ string_bytes text.old ++ bad_row_text number cause.now) }
{
    write!(text, "refused: bad_row {number} ")?;
    push_cause(text, cause)
}

fn push_cause(text: &mut String, cause: &BadVotes) -> Result<(), AllocError>
    ensures { OnOk result (string_bytes text.new
        ≡ string_bytes text.old ++ bad_votes_text cause.now) }
{
    match cause {
        BadVotes::Fields(count) => write!(text, "fields {count}"),
        BadVotes::BadList => text.push_str("bad_list"),
        BadVotes::Duplicate(code) => write!(text, "duplicate {code}"),
        BadVotes::BadNumber => text.push_str("bad_number"),
    }
}

fn push_missing(text: &mut String, seats: u32, codes: &[Code]) -> Result<(), AllocError>
    ensures { OnOk result (string_bytes text.new
        ≡ string_bytes text.old ++ missing_text seats codes.now) }
{
    write!(text, "refused: lot_missing {seats}")?;
    push_codes(text, codes)
}

/// Codes, each after a space.
fn push_codes(text: &mut String, codes: &[Code]) -> Result<(), AllocError>
    ensures { OnOk result (string_bytes text.new
        ≡ string_bytes text.old ++ codes_text codes.now) }
{
    for code in codes {
        write!(text, " {code}")?;
    }
    Ok(())
}
