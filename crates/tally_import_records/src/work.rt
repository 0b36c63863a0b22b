//! The records of an input at work, with one piece of it in memory.

ghost use Rattle.std.specs.Prelude.{◌≡◌, ◌≤◌, ◌<◌, ◌+◌, ◌++◌, [], length, Some, None, Bool, true};
ghost use Rattle.std.specs.Prelude.{false, IfOk, OnOk};
ghost use Rattle.csv.specs.Records.{fields_of};

use crate::cut::{ended_itself, given_size, last_text, piece_size, piece_text};
use crate::end::End;
use crate::held::{HeldText, SIZE_LIMIT};
use crate::piece::Rest;
use crate::reading::next_record;
use crate::separator::Sep;
use crate::text::Text;
use crate::watch::Watch;
use csv::ByteRecord;
use std::alloc::{AllocError, Global};
use std::collections::VecDeque;
use std::io::Read;
use std::mem;
use std::snapshot::Snapshot;

/// How many bytes of an input are held, where no record is longer.
const PIECE: usize = 262_144;

/// The records of an input that is read by pieces.
#[derive(Drop)]
pub(crate) struct Work {
    sep: Sep,
    /// The bytes that are held, unless the input ended: then the reader of the last piece has them.
    held: HeldText,
    /// For clauses alone: once the input ended, the text of the last piece, which is all that was
    /// held.
    last: Snapshot<Text>,
    /// How the input ended, once it did.
    end: Option<End>,
    /// How many of the bytes that are held are in the piece; more than there are, where it is the
    /// last.
    piece: usize,
    /// How many records of the piece were given.
    given: usize,
    /// The records of the piece that are left.
    rest: Rest,
}

impl Work {
    ghost use Rattle.tally_import_records.specs.internal.Pieces.{Begun, GaveAllAt, GivesOfPiece};
    ghost use Rattle.tally_import_records.specs.internal.Pieces.{GivesRecordAt, HasGivenAt};
    ghost use Rattle.tally_import_records.specs.internal.Pieces.{HoldsAllThatCame, IsBegunIn};
    ghost use Rattle.tally_import_records.specs.internal.Pieces.{IsWorking};
    ghost use Rattle.tally_import_records.specs.internal.Pieces.{IsSpent, KeepsGiven, TakesUp};
    ghost use Rattle.tally_import_records.specs.internal.Pieces.{WatchAgreesAt, bytes_of};
    ghost use Rattle.tally_import_records.specs.internal.Pieces.{left_size};
    ghost use Rattle.tally_import_records.specs.internal.Text.{bytes_of_parts};
    ghost use Rattle.tally_import_records.specs.Given.{IfEnded, IfNotEnded};
    ghost use Rattle.tally_import_records.specs.Watch.{NotesEnd, WatchAgreesAtEnd, has_failed};

    /// The records of an input, whose first piece is read.
    pub(crate) fn new<R: Read>(
        alloc: Global,
        input: &mut R,
        watch: &mut Watch<R>,
        sep: Sep,
    ) -> Result<Work, AllocError>
        ensures sep { IfOk result (λ records. records.sep ≡ sep) }
        ensures reading { IfOk result IsWorking }
        ensures given { IfOk result (HasGivenAt
            (R.remaining input.old) (R.remaining input.new) []) }
        ensures failed { IfOk result (λ records. NotesEnd watch.old watch.new records.end) }
    {
        Work::read(alloc, HeldText::new(alloc), input, watch, sep)
    }

    // Reads until 256 KiB are held or the input ends, and takes up a piece of them, of which no
    // record was given.
    fn read<R: Read>(
        alloc: Global,
        mut held: HeldText,
        input: &mut R,
        watch: &mut Watch<R>,
        sep: Sep,
    ) -> Result<Work, AllocError>
        requires { held.taken ≤ SIZE_LIMIT }
        ensures reading { IfOk result IsWorking }
        ensures fills { IfOk result (TakesUp (R.remaining input.old) (R.remaining input.new) held) }
        ensures size { IfOk result (λ r. r.end ≡ None → PIECE ≤ length r.held.bytes.items) }
        ensures count { IfOk result (λ r. r.end ≡ None → HoldsAllThatCame held r.held) }
        ensures sep { IfOk result (λ r. r.sep ≡ sep) }
        ensures given { IfOk result (λ r. r.given ≡ 0) }
        ensures failed { IfOk result (λ r. NotesEnd watch.old watch.new r.end) }
    {
        if let Some(end) = held.fill(input, watch, PIECE)? {
            return Work::last(alloc, held, VecDeque::new(alloc), end, sep, 0);
        }
        let piece = piece_size(held.bytes.as_slice());
        let text = piece_text(alloc, &held.bytes[..piece], sep)?;
        let last = Snapshot::of(&text);
        let rest = Rest::new(alloc, text, sep, false, 0)?;
        Ok(Work {
            sep,
            held,
            last,
            end: None,
            piece,
            given: 0,
            rest,
        })
    }

    // Reads to the end of the input, where one record is longer than a piece, and takes up what is
    // held with all that came.
    fn read_all<R: Read>(
        alloc: Global,
        mut held: HeldText,
        input: &mut R,
        watch: &mut Watch<R>,
        sep: Sep,
        given: usize,
    ) -> Result<Work, AllocError>
        requires limit { held.taken ≤ SIZE_LIMIT }
        requires few { length held.bytes.items ≤ held.taken + 1 }
        requires begun { Begun sep held.bytes.items given }
        ensures reading { IfOk result IsWorking }
        ensures fills { IfOk result (TakesUp (R.remaining input.old) (R.remaining input.new) held) }
        ensures ended { IfOk result (λ r. left_size r ≡ 0) }
        ensures sep { IfOk result (λ r. r.sep ≡ sep) }
        ensures given { IfOk result (λ r. r.given ≡ given) }
        ensures failed { IfOk result (λ r. NotesEnd watch.old watch.new r.end) }
    {
        let (more, end) = held.read_rest(alloc, input, watch)?;
        Work::last(alloc, held, more, end, sep, given)
    }

    // Takes up all that is held, and what comes after it, as the last piece. No copy is made of it.
    fn last(
        alloc: Global,
        mut held: HeldText,
        more: VecDeque<Vec<u8>>,
        end: End,
        sep: Sep,
        given: usize,
    ) -> Result<Work, AllocError>
        requires few { length (held.bytes.items ++ bytes_of_parts more.items) ≤ held.taken + 1 }
        requires begun { IsBegunIn sep (held.bytes.items ++ bytes_of_parts more.items) given }
        ensures reading { IfOk result IsWorking }
        ensures bytes { IfOk result (λ r.
            bytes_of r ≡ held.bytes.items ++ bytes_of_parts more.items) }
        ensures taken { IfOk result (λ r. r.held.taken ≡ held.taken) }
        ensures end { IfOk result (λ r. r.end ≡ Some end) }
        ensures sep { IfOk result (λ r. r.sep ≡ sep) }
        ensures given { IfOk result (λ r. r.given ≡ given) }
    {
        let bytes = mem::replace(&mut held.bytes, Vec::new(alloc));
        let text = Text::new(alloc, bytes, more)?;
        let last = Snapshot::of(&text);
        let is_whole = ended_itself(Some(end));
        let text = last_text(alloc, text, sep, is_whole)?;
        let rest = Rest::new(alloc, text, sep, is_whole, given)?;
        Ok(Work {
            sep,
            held,
            last,
            end: Some(end),
            piece: usize::MAX,
            given,
            rest,
        })
    }

    /// Gives the next record, or how the input ended. After the end, or once it is out of memory,
    /// the records are of no further use.
    pub(crate) fn next<R: Read>(
        &mut self,
        alloc: Global,
        input: &mut R,
        watch: &mut Watch<R>,
        into: &mut ByteRecord,
    ) -> Result<Option<End>, AllocError>
        requires { IsWorking self.old }
        ensures sep { self.new.sep ≡ self.old.sep }
        ensures reading { IfNotEnded result (IsWorking self.new) }
        ensures record { IfNotEnded result (GivesRecordAt (R.remaining input.old)
            (R.remaining input.new) (fields_of into.new) self.old self.new) }
        ensures all { IfEnded result (λ end. GaveAllAt
            (R.remaining input.old) (R.remaining input.new) self.old end.stop) }
        ensures failed { (before : Bool) → WatchAgreesAt before self.old (has_failed watch.old)
            → IfOk result (λ end. WatchAgreesAtEnd before end (has_failed watch.new)) }
        ensures agrees { (before : Bool) → WatchAgreesAt before self.old (has_failed watch.old)
            → OnOk result (WatchAgreesAt before self.new (has_failed watch.new)) }
    {
        'pieces: while !self.next_in_piece(into)? {
            if let Some(end) = self.end {
                return Ok(Some(end));
            }
            *self = self.read_on(alloc, input, watch)?;
        }
        Ok(None)
    }

    // Gives the next record of the piece, if one is known to be complete.
    fn next_in_piece(&mut self, into: &mut ByteRecord) -> Result<bool, AllocError>
        requires { IsWorking self.old }
        ensures reading { IfOk result (λ found. found ≡ true → IsWorking self.new) }
        ensures given { IfOk result (λ found. found ≡ true
            → GivesOfPiece (fields_of into.new) self.old self.new) }
        ensures spent { IfOk result (λ found. found ≡ false → IsSpent self.new) }
        ensures same { IfOk result (λ found. found ≡ false
            → self.new ≡ record self.old { rest = self.new.rest }) }
        ensures sep { self.new.sep ≡ self.old.sep }
        ensures end { self.new.end ≡ self.old.end }
    {
        if !next_record(&mut self.rest.reader.reader, into)? {
            return Ok(false);
        }
        self.given += 1;
        if !ended_itself(self.end) {
            mem::swap(into, &mut self.rest.ahead);
        }
        Ok(true)
    }

    // The records at work on the next piece, where one record of this one is left. What is held
    // goes into them, and these are left without it.
    fn read_on<R: Read>(
        &mut self,
        alloc: Global,
        input: &mut R,
        watch: &mut Watch<R>,
    ) -> Result<Work, AllocError>
        requires spent { IsSpent self.old }
        requires more { self.old.end ≡ None }
        ensures reading { IfOk result IsWorking }
        ensures given { IfOk result (KeepsGiven
            (R.remaining input.old) (R.remaining input.new) self.old) }
        ensures goes_on { IfOk result (λ next. left_size next < left_size self.old) }
        ensures failed { IfOk result (λ next. NotesEnd watch.old watch.new next.end) }
        ensures sep { IfOk result (λ next. next.sep ≡ self.old.sep) }
        ensures kept { self.new.sep ≡ self.old.sep }
    {
        let held = &mut self.held;
        let piece = &held.bytes[..self.piece];
        let done = given_size(alloc, piece, self.sep, self.given, &self.rest.ahead)?;
        let mut held = mem::replace(held, HeldText::new(alloc));
        if done > 1 {
            held.drop_front(alloc, done)?;
            return Work::read(alloc, held, input, watch, self.sep);
        }
        // The record that goes on is given back, as far as it was read, only when all is read: an
        // allocator may keep room of a size that was given back before, and so the parts.
        Work::read_all(alloc, held, input, watch, self.sep, self.given)
    }
}
