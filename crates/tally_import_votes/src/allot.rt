//! The seats that a text of votes comes to.

ghost use Rattle.std.specs.Prelude.{◌≡◌, ◌≤◌, ◌+◌, Err, IfOk, IfErr, IfSome, OnOk, Bool, length};
ghost use Rattle.std.specs.Prelude.{nat_le, sum, true};
ghost use Rattle.tally_allot.specs.AllotFault.{IsFaultOf};
ghost use Rattle.tally_frac.specs.Limits.{most_lists, most_votes};
ghost use Rattle.tally_import_records.specs.Watch.{NotesStop, has_failed};
ghost use Rattle.tally_import_votes.specs.Allots.{Allots, IsSilent, question_result};
ghost use Rattle.tally_import_votes.specs.Troubles.{IsTroubleOf, codes_marked};
ghost use Rattle.tally_import_options.specs.Wanted.{wanted};
ghost use Rattle.tally_import_votes.specs.declared.fault.AllotTrouble.TheVariants as trouble;
ghost use Rattle.tally_import_votes.specs.declared.fault.VotesFault.TheVariants as fault_of_votes;
ghost use Rattle.tally_import_votes.specs.internal.Reading.{FindsText, GivesQuestion, IsOfReading};
ghost use Rattle.tally_import_votes.specs.internal.Reading.{FindsTextOf};
ghost use Rattle.tally_report_allotment.specs.Question.{Question, poll_asked, rule_asked};

use crate::fault::{AllotTrouble, VotesFault};
use crate::lot::lot_places;
use crate::votes::{Votes, read_votes};
use std::alloc::{AllocError, Global};
use std::io::{Read, Write};
use tally_allot::AllotFault;
use tally_frac::{ListSet, MOST_VOTES};
use tally_import::write_watched;
use tally_import_options::AllotOptions;
use tally_import_records::{Watch, WholeText, read_whole};
use tally_report_allotment::{Asked, allotment_text};
use tally_setup::Code;

/// The most bytes that a text of votes may have.
const TEXT_LIMIT: usize = 1_048_576;

/// Reads the votes of lists, and writes the seats that they come to.
///
/// The text is CSV (after RFC 4180, with this separator), of at most 1,048,576 bytes: the header
/// `list,votes`, and 1 to 60 rows of a code and its votes. The fault that comes first in its bytes
/// is answered, and then those of an allotment. Nothing is written before the whole text was read,
/// and nothing with a trouble, unless the writing itself failed.
pub fn allot_csv<R: Read, W: Write>(
    alloc: Global,
    options: &AllotOptions,
    reader: &mut R,
    writer: &mut W,
) -> Result<(), AllotTrouble>
    ensures answered { IfSome (R.remaining reader.old) (λ text.
        Allots (wanted options.now) text (R.remaining reader.new)
        (W.contents writer.old) (W.contents writer.new) result) }
    ensures silent { IsSilent (W.contents writer.old) (W.contents writer.new) result }
{
    let (mut reads, mut writes) = (Watch::new(), Watch::new());
    allot_watched(alloc, options, reader, &mut reads, writer, &mut writes)
}

/// As `allot_csv`, with a watch on each stream: a failed read is answered only where one of the
/// reader's own reads failed, and a failed write only where the writer failed or took nothing. With
/// `Ok` neither watch noted a failure.
pub fn allot_watched<R: Read, W: Write>(
    alloc: Global,
    options: &AllotOptions,
    reader: &mut R,
    reads: &mut Watch<R>,
    writer: &mut W,
    writes: &mut Watch<W>,
) -> Result<(), AllotTrouble>
    ensures answered { IfSome (R.remaining reader.old) (λ text.
        Allots (wanted options.now) text (R.remaining reader.new)
        (W.contents writer.old) (W.contents writer.new) result) }
    ensures silent { IsSilent (W.contents writer.old) (W.contents writer.new) result }
    ensures read { result ≡ Err (trouble.Votes fault_of_votes.Read) → has_failed reads.new ≡ true }
    ensures all_read { OnOk result (has_failed reads.new ≡ has_failed reads.old) }
    ensures write { result ≡ Err trouble.Write → has_failed writes.new ≡ true }
    ensures all_written { OnOk result (has_failed writes.new ≡ has_failed writes.old) }
{
    match text_of_input(alloc, options, reader, reads) {
        Ok(text) => match write_watched(writer, writes, text.as_bytes()) {
            Ok(()) => Ok(()),
            Err(_) => Err(AllotTrouble::Write),
        },
        Err(trouble) => Err(trouble),
    }
}

/// The text to write for a reader's text, or the trouble that comes first.
fn text_of_input<R: Read>(
    alloc: Global,
    options: &AllotOptions,
    reader: &mut R,
    watch: &mut Watch<R>,
) -> Result<String, AllotTrouble>
    ensures finds { IfSome (R.remaining reader.old) (λ text.
        FindsText (wanted options.now) text (R.remaining reader.new) result) }
    ensures read { IfErr result (λ trouble. IsOfReading trouble (has_failed watch.new)) }
    ensures all_read { OnOk result (has_failed watch.new ≡ has_failed watch.old) }
{
    match read_whole(alloc, reader, watch, TEXT_LIMIT) {
        Ok(whole) => text_of_whole(alloc, options, whole),
        Err(_) => Err(AllotTrouble::Memory),
    }
}

/// The text to write for a text that was read, or the trouble that comes first.
fn text_of_whole(
    alloc: Global,
    options: &AllotOptions,
    whole: WholeText,
) -> Result<String, AllotTrouble>
    ensures finds { FindsTextOf (wanted options.now) whole.bytes.items whole.stop result }
    ensures read { (before failed : Bool) → NotesStop whole.stop before failed
        → IfErr result (λ trouble. IsOfReading trouble failed) }
    ensures all_read { (before failed : Bool) → NotesStop whole.stop before failed
        → OnOk result (failed ≡ before) }
{
    let asked = match asked_of(alloc, options, whole) {
        Ok(asked) => asked,
        Err(fault) => return Err(AllotTrouble::Votes(fault)),
    };
    match allotment_text(alloc, &asked, options.awards) {
        Ok(text) => Ok(text),
        Err(fault) => Err(trouble_of(alloc, &fault, &asked.lists)),
    }
}

/// The question, with the votes of a text, or the fault that comes first.
fn asked_of(alloc: Global, options: &AllotOptions, whole: WholeText) -> Result<Asked, VotesFault>
    ensures { GivesQuestion result
        (question_result (wanted options.now) whole.bytes.items whole.stop) }
{
    let votes = read_votes(alloc, whole, options.sep)?;
    if !is_within(&votes.votes, options.blank) {
        return Err(VotesFault::TooManyVotes);
    }
    let lot = lot_places(alloc, &votes.lists, &options.lot)?;
    Ok(Asked {
        profile: options.profile,
        seats: options.seats,
        lists: votes.lists,
        votes: votes.votes,
        blank: options.blank,
        lot,
    })
}

/// Whether votes and blank ones are at most 5,000,000,000 together.
fn is_within(votes: &[u64], blank: u64) -> bool
    requires { blank ≤ most_votes }
    ensures { result ≡ nat_le (sum votes.now + blank) most_votes }
{
    let mut total = blank;
    for count in votes {
        if *count > MOST_VOTES - total {
            return false;
        }
        total += *count;
    }
    true
}

/// Why the votes of these lists allot no seats: what the fault says, with the codes of the lists
/// that a lot is needed among.
pub fn trouble_of(alloc: Global, fault: &AllotFault, lists: &[Code]) -> AllotTrouble
    requires { length lists.now ≤ most_lists }
    ensures { (q : Question) → q.lists ≡ lists.now
        → IsFaultOf (rule_asked q) (poll_asked q) q.seats q.lot fault.now
        → IsTroubleOf q result }
{
    match fault {
        AllotFault::NoEligible => AllotTrouble::NoEligible,
        AllotFault::LotMissing { group, seats } => match codes_in(alloc, group, lists) {
            Ok(codes) => AllotTrouble::LotMissing(*seats, codes),
            Err(_) => AllotTrouble::Memory,
        },
        AllotFault::WrongLot => AllotTrouble::WrongLot,
        AllotFault::Memory => AllotTrouble::Memory,
    }
}

/// The codes of the lists of a group, in order.
fn codes_in(alloc: Global, group: &ListSet, lists: &[Code]) -> Result<Vec<Code>, AllocError>
    requires { length lists.now ≤ most_lists }
    ensures { IfOk result (λ codes. codes.items ≡ codes_marked 1 group.now lists.now) }
{
    let mut codes = Vec::new(alloc);
    for (index, code) in lists.iter().enumerate() {
        if group.has(index as u32 + 1) {
            codes.push(*code)?;
        }
    }
    Ok(codes)
}
