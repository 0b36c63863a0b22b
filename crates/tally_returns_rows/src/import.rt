//! Rows of an import, and how many of them were lodged, refused or bad.

ghost use Rattle.std.specs.Prelude.{◌≡◌, ◌+◌, ◌<◌, ◌^◌, ◌++◌, ℕ, List, [], ◌∷◌, length, Some};
ghost use Rattle.std.specs.Prelude.{IfOk, None, OnOk};
ghost use Rattle.tally_returns.specs.Counts.{VoteCounts};
ghost use Rattle.tally_returns_rows.specs.NamedRows.{named_row};

use std::alloc::AllocError;
use tally_returns::{Ask, LodgeReply, Refusal};
use tally_setup::Code;

/// A row of an import: a Lodge, or a row that cannot be read as one.
#[derive(Debug, Drop)]
pub enum Row {
    Lodge(Ask),
    Bad(BadRow),
}

/// Why a row cannot be read: the first of these causes, in this order.
#[derive(Clone, Copy, Debug, PartialEq, Eq)]
pub enum BadRow {
    /// It has this many fields, and its header another number of them.
    Fields(usize),
    /// Its station is not a code.
    BadStation,
    /// Its station is not one of the constituency.
    NoStation,
    /// Its slip is not a code.
    BadSlip,
    /// The number in this column cannot be read, and those in the columns before it can.
    BadNumber(Column),
}

/// A column of numbers.
#[derive(Clone, Copy, Debug, PartialEq, Eq)]
pub enum Column {
    Blank,
    Spoiled,
    /// The votes of the list at this place of the header (from 0).
    List(usize),
}

/// A row that was neither lodged nor there already, and why.
#[derive(Clone, Copy, Debug)]
pub struct NamedRow {
    /// Its number, from 1.
    pub row: u32,
    pub cause: RowCause,
}

/// Why a row was neither lodged nor there already.
#[derive(Clone, Copy, Debug, PartialEq, Eq)]
pub enum RowCause {
    /// It cannot be read.
    Bad(BadRow),
    /// The return of this station was refused.
    Refused(Code, Refusal),
}

impl RowCause {
    ghost use Rattle.tally_returns_rows.specs.NamedRows.{cause_number};

    /// Its number: that of the refusal, or 0 of a bad row.
    pub fn number(&self) -> u32
        ensures { result ≡ cause_number self.now }
    {
        match self {
            RowCause::Bad(_) => 0,
            RowCause::Refused(_, refusal) => refusal.number(),
        }
    }
}

/// Adds a row that cannot be read to the named ones. Such a row has no answer.
pub fn name_bad(
    named: &mut Vec<NamedRow>,
    row: u32,
    why: BadRow,
) -> Result<Option<Result<LodgeReply, Refusal>>, AllocError>
    ensures answer { IfOk result (λ answer. answer ≡ None) }
    ensures named { OnOk result
        (named.new.items ≡ named.old.items ++ named_row row (Row.Bad why) None) }
{
    let cause = RowCause::Bad(why);
    named.push(NamedRow { row, cause })?;
    Ok(None)
}

/// Names a row whose return, of this station, was refused, and no other.
pub fn name_refused(
    named: &mut Vec<NamedRow>,
    row: u32,
    station: Code,
    answer: &Result<LodgeReply, Refusal>,
) -> Result<(), AllocError>
    ensures { OnOk result ((slip : List ℕ) (counts : VoteCounts)
        → named.new.items ≡ named.old.items
        ++ named_row row (Row.Lodge (Ask.Lodge station slip counts)) (Some answer.now)) }
{
    if let Err(refusal) = answer {
        let cause = RowCause::Refused(station, *refusal);
        named.push(NamedRow { row, cause })?;
    }
    Ok(())
}

/// The first row that was neither lodged nor there already.
#[derive(Clone, Copy, Debug, PartialEq, Eq)]
pub struct FirstRow {
    /// Its number, from 1.
    pub row: u32,
    /// The number of its refusal, or 0 for a bad row.
    pub number: u32,
}

/// How many rows of an import were lodged, were there already, were refused, and could not be read.
#[derive(Clone, Copy, Debug, PartialEq, Eq)]
pub struct ImportCount {
    /// Rows that were lodged.
    pub lodged: u32,
    /// Rows whose return was recorded already.
    pub same: u32,
    /// Rows of a station where another return is recorded (refusal 7).
    pub differs: u32,
    /// Rows that were refused for another reason.
    pub refused: u32,
    /// Rows that cannot be read.
    pub bad: u32,
    pub first: Option<FirstRow>,
}

impl ImportCount {
    ghost use Rattle.tally_returns_rows.specs.Import.{RowAnswer, IsBelow, count_of, count_with_row};
    ghost use Rattle.tally_returns_rows.specs.Import.{note_at, or_else, with_refusal};

    /// The count of no row.
    pub fn new() -> ImportCount
        ensures { result ≡ count_of [] }
    {
        ImportCount {
            lodged: 0,
            same: 0,
            differs: 0,
            refused: 0,
            bad: 0,
            first: None,
        }
    }

    /// Counts one more row, by its number and what it was answered; a bad row was answered nothing.
    pub fn add(&mut self, row: u32, answer: Option<Result<LodgeReply, Refusal>>)
        ghost answered: { List RowAnswer }
        requires count { self.old ≡ count_of answered }
        requires row { row ≡ length answered + 1 }
        ensures { self.new ≡ count_of (answered ++ answer ∷ []) }
    {
        self.add_row(row, answer);
    }

    /// As `add`, for a caller who does not know the answers so far.
    pub fn add_row(&mut self, row: u32, answer: Option<Result<LodgeReply, Refusal>>)
        requires below { IsBelow self.old row }
        ensures { self.new ≡ count_with_row self.old row answer }
    {
        match answer {
            Some(Ok(LodgeReply::Lodged { .. })) => self.lodged += 1,
            Some(Ok(LodgeReply::Same { .. })) => self.same += 1,
            Some(Err(refusal)) => self.add_refused(row, refusal),
            None => {
                self.bad += 1;
                self.note(row, 0);
            }
        }
    }

    // Counts one more row that was refused.
    fn add_refused(&mut self, row: u32, refusal: Refusal)
        requires differs { self.old.differs + 1 < 2 ^ 32 }
        requires refused { self.old.refused + 1 < 2 ^ 32 }
        ensures { self.new ≡ with_refusal self.old row refusal }
    {
        match refusal {
            Refusal::Differs { .. } => self.differs += 1,
            _ => self.refused += 1,
        }
        self.note(row, refusal.number());
    }

    // Notes a row that was neither lodged nor there already, if it is the first.
    fn note(&mut self, row: u32, number: u32)
        ensures { self.new ≡
            record self.old { first = or_else self.old.first (note_at row (Some number)) } }
    {
        if self.first.is_none() {
            self.first = Some(FirstRow { row, number });
        }
    }
}
