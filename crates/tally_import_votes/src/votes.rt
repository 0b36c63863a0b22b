//! The votes of lists, read from a text.

ghost use Rattle.std.specs.Prelude.{◌≡◌, ◌⊎◌, ◌≤◌, ◌<◌, Ok, Err, IfErr, OnOk, length};
ghost use Rattle.csv.specs.Records.{fields_of};
ghost use Rattle.tally_frac.specs.Limits.{most_lists};
ghost use Rattle.tally_import_records.specs.Input.{complete_records};
ghost use Rattle.tally_import_records.specs.internal.TextRecords.{IsReadingText, text_records_left};
ghost use Rattle.tally_import_votes.specs.Votes.{is_header, list_row, no_header, no_rows};
ghost use Rattle.tally_import_votes.specs.Votes.{read_rows, row_of, rows_ended, votes_number};
ghost use Rattle.tally_import_votes.specs.Votes.{votes_read, with_row};
ghost use Rattle.tally_import_votes.specs.declared.fault.VotesFault.TheVariants.{Memory};
ghost use Rattle.tally_import_votes.specs.internal.Reading.{GivesOrMemory, votes_in};

use crate::fault::{BadVotes, VotesFault};
use csv::ByteRecord;
use std::alloc::{AllocError, Global};
use tally_frac::{MOST_LISTS, MOST_VOTES};
use tally_import_records::{Sep, Stop, TextRecords, WholeText, field};
use tally_setup::Code;

/// The most digits of a number of votes.
const DIGITS: usize = 10;

/// The lists of a text and their votes, in the order of its rows.
#[derive(Drop)]
pub(crate) struct Votes {
    pub(crate) lists: Vec<Code>,
    pub(crate) votes: Vec<u64>,
}

/// The votes of a text, or the fault that comes first in its bytes.
pub(crate) fn read_votes(alloc: Global, whole: WholeText, sep: Sep) -> Result<Votes, VotesFault>
    ensures { GivesOrMemory result
        (votes_read (complete_records sep whole.bytes.items whole.stop) whole.stop) }
{
    let stop = whole.stop;
    let mut records = TextRecords::new(alloc, whole, sep)?;
    let mut fields = ByteRecord::new(alloc);
    if !records.next(&mut fields)? {
        return Err(no_header(stop));
    }
    if !is_header(&fields) {
        return Err(VotesFault::BadHeader);
    }
    rows_of(alloc, &mut records, &mut fields, stop)
}

/// The votes of the rows after the header.
fn rows_of(
    alloc: Global,
    records: &mut TextRecords,
    fields: &mut ByteRecord,
    stop: Option<Stop>,
) -> Result<Votes, VotesFault>
    requires { IsReadingText records.old }
    ensures { GivesOrMemory result
        (read_rows no_rows (text_records_left records.old) stop) }
{
    let mut votes = Votes {
        lists: Vec::new(alloc),
        votes: Vec::new(alloc),
    };
    loop {
        if !records.next(fields)? {
            return ended(votes, stop);
        }
        if votes.lists.len() == MOST_LISTS {
            return Err(VotesFault::TooManyLists);
        }
        take_row(&mut votes, fields)?;
    }
}

/// Whether a record is the header.
fn is_header(fields: &ByteRecord) -> bool
    ensures { result ≡ is_header (fields_of fields.now) }
{
    fields.len() == 2
        && field(fields, 0) == b"list".as_slice()
        && field(fields, 1) == b"votes".as_slice()
}

/// The fault of a text that ended before its header did.
fn no_header(stop: Option<Stop>) -> VotesFault
    ensures { result ≡ no_header stop }
{
    match stop {
        None => VotesFault::BadHeader,
        Some(Stop::TooLong) => VotesFault::TooLong,
        Some(Stop::Read) => VotesFault::Read,
    }
}

/// The outcome of rows after which the text ended or was stopped.
fn ended(votes: Votes, stop: Option<Stop>) -> Result<Votes, VotesFault>
    ensures { GivesOrMemory result (rows_ended (votes_in votes) stop) }
{
    match stop {
        Some(Stop::TooLong) => Err(VotesFault::TooLong),
        Some(Stop::Read) => Err(VotesFault::Read),
        None => {
            if votes.lists.is_empty() {
                return Err(VotesFault::NoList);
            }
            Ok(votes)
        }
    }
}

/// Takes the next row.
fn take_row(votes: &mut Votes, fields: &ByteRecord) -> Result<(), VotesFault>
    requires { length votes.old.lists.items < most_lists }
    ensures taken { OnOk result (with_row (votes_in votes.old) (fields_of fields.now)
        ≡ Ok (votes_in votes.new)) }
    ensures few { OnOk result (length votes.new.lists.items ≤ most_lists) }
    ensures fault { IfErr result (λ fault. (fault ≡ Memory)
        ⊎ (with_row (votes_in votes.old) (fields_of fields.now) ≡ Err fault)) }
{
    match row_of(&votes.lists, fields) {
        Ok((code, count)) => {
            votes.lists.push(code)?;
            votes.votes.push(count)?;
            Ok(())
        }
        Err(cause) => Err(VotesFault::BadRow(votes.lists.len() as u32 + 1, cause)),
    }
}

/// The code and the votes that a record is, after lists of these codes.
fn row_of(lists: &[Code], fields: &ByteRecord) -> Result<(Code, u64), BadVotes>
    ensures { result ≡ row_of lists.now (fields_of fields.now) }
{
    if fields.len() != 2 {
        return Err(BadVotes::Fields(fields.len()));
    }
    list_row(lists, field(fields, 0), field(fields, 1))
}

/// The code and the votes that two fields are, after lists of these codes.
fn list_row(lists: &[Code], list: &[u8], votes: &[u8]) -> Result<(Code, u64), BadVotes>
    ensures { result ≡ list_row lists.now list.now votes.now }
{
    let Some(code) = Code::new(list) else {
        return Err(BadVotes::BadList);
    };
    if lists.contains(&code) {
        return Err(BadVotes::Duplicate(code));
    }
    let Some(count) = votes_number(votes) else {
        return Err(BadVotes::BadNumber);
    };
    Ok((code, count))
}

/// The number of votes that a text of 1 to 10 digits writes, if it is not too great.
fn votes_number(text: &[u8]) -> Option<u64>
    ensures { result ≡ votes_number text.now }
{
    if text.is_empty() || text.len() > DIGITS {
        return None;
    }
    let mut n: u64 = 0;
    for digit in text {
        if !digit.is_ascii_digit() {
            return None;
        }
        n = 10 * n + u64::from(digit - b'0');
    }
    if n > MOST_VOTES {
        return None;
    }
    Some(n)
}
