//! The returns of a constituency from CSV.

ghost use Rattle.std.specs.Prelude.{◌≡◌, ◌≤◌, Bool, true, false, Ok, Err, Option, Some, None};
ghost use Rattle.std.specs.Prelude.{List, ℕ, is_some, option_map, IfOk, IfErr, IfSome, OnOk};
ghost use Rattle.std.specs.HashSet.{contains};
ghost use Rattle.std.specs.List.{list_any};
ghost use Rattle.std.specs.Str.{bytes_eq};
ghost use Rattle.csv.specs.Records.{fields_of};
ghost use Rattle.tally_frac.specs.Limits.{most_lists};
ghost use Rattle.tally_setup.specs.Constituency.{Constituency, list_codes, station_codes};
ghost use Rattle.tally_returns_rows.specs.Given.{with_given};
ghost use Rattle.tally_returns_rows.specs.Source.{GivesNext, IsLodgeOrBad, at_end, ends_by};
ghost use Rattle.tally_returns_rows.specs.Source.{row_limit};
ghost use Rattle.tally_returns_rows.specs.declared.source.ImportFault.{ImportFault};
ghost use Rattle.tally_import_records.specs.Given.{IsReadingOn, WatchAgrees};
ghost use Rattle.tally_import_records.specs.Watch.{flag_after_stop, has_failed};
ghost use Rattle.tally_returns_rows.specs.declared.source.ImportFault.TheVariants as cause;
ghost use Rattle.tally_import.specs.declared.return_rows.Stage.TheVariants.{Ended};
ghost use Rattle.tally_import_records.specs.declared.separator.Sep.{Sep};
ghost use Rattle.tally_import.specs.ReturnRowsValue.{HasGivenAll, rows_to_come, unread_rows};
ghost use Rattle.tally_import.specs.internal.NextRow.{AdvancesAny};
ghost use Rattle.tally_import.specs.internal.ReturnRowsWithin.{coming-within};
ghost use Rattle.tally_import.specs.ReturnRows.{Advances, EndsAgain, FailsLast, GivesRow};
ghost use Rattle.tally_import.specs.ReturnRows.{IsAtStage, IsBegun, IsNext, IsReadingRows};
ghost use Rattle.tally_import.specs.ReturnRows.{IsStarted, IsTrueAt, IsTrueFault};
ghost use Rattle.tally_import.specs.ReturnRows.{IsTrueResult, came_by, ending, import_fault};
ghost use Rattle.tally_import.specs.ReturnRows.{is_header, fault_without_header, text_coming};

use crate::header::{FIXED_NAMES, has_fixed_names};
use crate::row::row_of;
use csv::ByteRecord;
use std::alloc::{AllocError, Global};
use std::collections::HashSet;
use std::io::Read;
use std::marker::Model;
use std::snapshot::Snapshot;
use tally_import_records::{End, Records, Sep, Stop, Watch, field};
use tally_returns_rows::{Given, ImportFault, ROW_LIMIT, Row, RowSource};
use tally_setup::{Code, Constituency, ListEntry, Station};

/// The rows of a constituency's returns, from a text that a reader gives.
#[derive(Drop)]
pub struct ReturnRows<R: Read> {
    alloc: Global,
    reader: R,
    watch: Watch<R>,
    sep: Sep,
    con: Constituency,
    stage: Stage,
    /// The rows that were given, for clauses alone.
    given: Given,
    /// The reader as it was when nothing was read, for clauses alone.
    unread: Snapshot<R>,
}

impl<R: Read> Model for ReturnRows<R> {
    ghost use Rattle.tally_returns_rows.specs.Given.{rows_of};
    ghost use Rattle.tally_import_records.specs.Watch.{has_failed};
    ghost use Rattle.tally_import.specs.ReturnRows.{IsAtStage, IsTrueAt, came_by, ending};
    ghost use Rattle.tally_import.specs.ReturnRowsValue as value;

    ghost Value = { value.ReturnRows };

    ghost view = { λ s. record {
      con = s.con;
      sep = s.sep;
      text = R.remaining s.unread.value;
      left = R.remaining s.reader;
      given = rows_of s.given;
      came = came_by s.stage;
      ended = ending s.stage;
      failed = has_failed s.watch;
    } };

    ghost invariant = { λ s.
        IsAtStage (R.remaining s.unread.value) (R.remaining s.reader) s.con s.sep s.stage
        × IsTrueAt s.stage (has_failed s.watch) };
}

/// How far the rows have come.
#[derive(Drop)]
pub(crate) enum Stage {
    /// Nothing was read.
    Unread,
    /// The header was read.
    Reading(Rows),
    /// The rows came to their end, or to a fault.
    Ended(Option<ImportFault>),
}

/// The rows after the header.
#[derive(Drop)]
pub(crate) struct Rows {
    records: Records,
    /// How many lists there are.
    lists: usize,
    /// The codes of the stations.
    stations: HashSet<Code>,
    /// How many rows came.
    came: u32,
    /// The record that was read last, whose room serves for the next one.
    fields: ByteRecord,
}

impl<R: Read> ReturnRows<R> {
    /// The rows of a constituency's returns from CSV (after RFC 4180, with this separator). Nothing
    /// is read yet.
    pub fn new(alloc: Global, reader: R, sep: Sep, con: Constituency) -> ReturnRows<R>
        ensures { result ≡ unread_rows con sep (R.remaining reader) }
    {
        let unread = Snapshot::of(&reader);
        ReturnRows {
            alloc,
            reader,
            watch: Watch::new(),
            sep,
            con,
            stage: Stage::Unread,
            given: Given::new(),
            unread,
        }
    }
}

impl<R: Read + Drop> ReturnRows<R> {
    /// The watch on the reader. A read failed where the rows ended with one, and none where they
    /// came to their end.
    pub fn into_watch(self) -> Watch<R>
        ensures failed { has_failed result ≡ self.failed }
        ensures read { self.ended ≡ Some (Some cause.Read) → has_failed result ≡ true }
        ensures all_read { self.ended ≡ Some None → has_failed result ≡ false }
    {
        let ReturnRows { watch, .. } = self;
        watch
    }
}

impl<R: Read> RowSource for ReturnRows<R> {
    ghost coming = { rows_to_come };

    ghost given = { λ rows. rows.given };

    ghost ended = { λ rows. rows.ended };

    ghost within = { coming-within };

    /// The next row. A record is read to its end before it is given; with a fault, the rows before
    /// it were given. A failed read is answered once all that was complete before it was given, and
    /// the end only where no read failed.
    fn next_row(&mut self) -> Result<Option<Row>, ImportFault>
        ensures gives { GivesNext (rows_to_come self.old) result (rows_to_come self.new) }
        ensures row { IfOk result (λ row. IfSome row IsLodgeOrBad) }
        ensures gave { self.new.given ≡ with_given self.old.given result }
        ensures ends { self.new.ended ≡ ends_by result }
        ensures again { (fault : Option ImportFault) → self.old.ended ≡ Some fault
            → (result ≡ at_end fault) × (self.new ≡ self.old) }
        ensures read { result ≡ Err cause.Read → self.new.failed ≡ true }
        ensures all_read { result ≡ Ok None → self.new.failed ≡ false }
        ensures before { self.old.ended ≡ None → result ≡ Err cause.Read
            → HasGivenAll self.old self.new.left }
        ensures same { (self.new.con ≡ self.old.con) × (self.new.sep ≡ self.old.sep)
            × (self.new.text ≡ self.old.text) }
    {
        let next = next_row(
            &self.unread,
            self.alloc,
            &mut self.reader,
            &mut self.watch,
            self.sep,
            &self.con,
            &mut self.stage,
        );
        self.given.note(&next);
        next
    }
}

/// The next row at this stage.
fn next_row<R: Read>(
    unread: &Snapshot<R>,
    alloc: Global,
    reader: &mut R,
    watch: &mut Watch<R>,
    sep: Sep,
    con: &Constituency,
    stage: &mut Stage,
) -> Result<Option<Row>, ImportFault>
    requires { IsAtStage (R.remaining unread.now.value) (R.remaining reader.old) con.now sep
        stage.old }
    ensures advances { Advances (R.remaining unread.now.value) con.now sep
        (R.remaining reader.old) stage.old result (R.remaining reader.new) stage.new }
    ensures row { IfOk result (λ row. IfSome row IsLodgeOrBad) }
    ensures ends { ending stage.new ≡ ends_by result }
    ensures again { EndsAgain (ending stage.old) result
        ((reader.new ≡ reader.old) × (stage.new ≡ stage.old) × (watch.new ≡ watch.old)) }
    ensures true_at { IsTrueAt stage.old (has_failed watch.old)
        → IsTrueAt stage.new (has_failed watch.new) }
    ensures read { IsTrueAt stage.old (has_failed watch.old)
        → IsTrueResult result (has_failed watch.new) }
    ensures before { ending stage.old ≡ None → FailsLast (R.remaining unread.now.value)
        con.now sep (came_by stage.old) result (R.remaining reader.new) }
{
    let Stage::Unread = stage else {
        return next_started(alloc, reader, watch, stage);
    };
    match start(alloc, reader, watch, sep, con, stage) {
        Ok(()) => next_started(alloc, reader, watch, stage),
        Err(fault) => {
            end(stage, Some(fault));
            Err(fault)
        }
    }
}

/// Reads the header, which has to be the constituency's, and goes on to the rows. It is a function
/// of its own, since a function pays for the room of its locals at each call, and only the first
/// row needs these.
fn start<R: Read>(
    alloc: Global,
    reader: &mut R,
    watch: &mut Watch<R>,
    sep: Sep,
    con: &Constituency,
    stage: &mut Stage,
) -> Result<(), ImportFault>
    ensures begun { OnOk result
        (IsBegun (R.remaining reader.old) (R.remaining reader.new) con.now sep stage.new) }
    ensures fault { IfErr result (IsNext (R.remaining reader.old) (text_coming con.now sep)) }
    ensures true_at { has_failed watch.old ≡ false
        → OnOk result (IsTrueAt stage.new (has_failed watch.new)) }
    ensures read { IfErr result (λ fault. IsTrueFault fault (has_failed watch.new)) }
    ensures before { FailsLast
        (R.remaining reader.old) con.now sep 0 result (R.remaining reader.new) }
{
    let mut records = Records::new(alloc, reader, watch, sep)?;
    let mut header = ByteRecord::new(alloc);
    if let Some(end) = records.next(alloc, reader, watch, &mut header)? {
        return Err(header_fault(end));
    }
    if !is_header(con.lists.as_slice(), &header) {
        return Err(ImportFault::BadHeader);
    }
    let stations = station_codes(alloc, con.stations.as_slice())?;
    *stage = Stage::Reading(Rows {
        records,
        lists: con.lists.len(),
        stations,
        came: 0,
        fields: header,
    });
    Ok(())
}

/// Ends the rows. It is a function of its own for the same reason.
fn end(stage: &mut Stage, fault: Option<ImportFault>)
    ensures { stage.new ≡ Ended fault }
{
    *stage = Stage::Ended(fault);
}

/// The next row after the header.
fn next_started<R: Read>(
    alloc: Global,
    reader: &mut R,
    watch: &mut Watch<R>,
    stage: &mut Stage,
) -> Result<Option<Row>, ImportFault>
    requires { IsStarted stage.old }
    ensures advances { AdvancesAny
        (R.remaining reader.old) stage.old result (R.remaining reader.new) stage.new }
    ensures row { IfOk result (λ row. IfSome row IsLodgeOrBad) }
    ensures ends { ending stage.new ≡ ends_by result }
    ensures again { EndsAgain (ending stage.old) result
        ((reader.new ≡ reader.old) × (stage.new ≡ stage.old) × (watch.new ≡ watch.old)) }
    ensures true_at { IsTrueAt stage.old (has_failed watch.old)
        → IsTrueAt stage.new (has_failed watch.new) }
    ensures read { IsTrueAt stage.old (has_failed watch.old)
        → IsTrueResult result (has_failed watch.new) }
    ensures before { (text : Option (List ℕ)) (con : Constituency) (sep : Sep)
        → IsAtStage text (R.remaining reader.old) con sep stage.old → ending stage.old ≡ None
        → FailsLast text con sep (came_by stage.old) result (R.remaining reader.new) }
{
    let rows = match stage {
        Stage::Unread => unreachable!(),
        Stage::Reading(rows) => rows,
        Stage::Ended(Some(fault)) => return Err(*fault),
        Stage::Ended(None) => return Ok(None),
    };
    match rows.next(alloc, reader, watch) {
        Ok(Some(row)) => Ok(Some(row)),
        Ok(None) => {
            end(stage, None);
            Ok(None)
        }
        Err(fault) => {
            end(stage, Some(fault));
            Err(fault)
        }
    }
}

impl Rows {
    /// The next row, or the end or the fault after the last one.
    fn next<R: Read>(
        &mut self,
        alloc: Global,
        reader: &mut R,
        watch: &mut Watch<R>,
    ) -> Result<Option<Row>, ImportFault>
        requires reading { IsReadingOn self.old.records }
        requires few { self.old.lists ≤ most_lists }
        requires within { self.old.came ≤ row_limit }
        ensures gives { (text : Option (List ℕ)) (con : Constituency) (sep : Sep)
            → IsReadingRows text (R.remaining reader.old) con sep self.old
            → GivesRow text (R.remaining reader.new) con sep self.old result self.new }
        ensures row { IfOk result (λ row. IfSome row IsLodgeOrBad) }
        ensures true_at { WatchAgrees false self.old.records (has_failed watch.old)
            → OnOk result (WatchAgrees false self.new.records (has_failed watch.new)) }
        ensures read { WatchAgrees false self.old.records (has_failed watch.old)
            → IsTrueResult result (has_failed watch.new) }
        ensures before { (text : Option (List ℕ)) (con : Constituency) (sep : Sep)
            → IsReadingRows text (R.remaining reader.old) con sep self.old
            → FailsLast text con sep self.old.came result (R.remaining reader.new) }
    {
        if let Some(end) = self.records.next(alloc, reader, watch, &mut self.fields)? {
            return rows_end(end);
        }
        if self.came == ROW_LIMIT {
            return Err(ImportFault::TooLong);
        }
        let row = row_of(alloc, self.lists, Some(&self.stations), &self.fields)?;
        self.came += 1;
        Ok(Some(row))
    }
}

/// The fault of an import that a stopped text has.
fn import_fault(stop: Stop) -> ImportFault
    ensures { result ≡ import_fault stop }
{
    match stop {
        Stop::TooLong => ImportFault::TooLong,
        Stop::Read => ImportFault::Read,
    }
}

/// The fault of a text that has no complete record.
fn header_fault(end: End) -> ImportFault
    ensures fault { result ≡ fault_without_header end.stop }
    ensures read { (before failed : Bool) → failed ≡ flag_after_stop end.stop before
        → IsTrueFault result failed }
{
    match end.stop {
        None => ImportFault::BadHeader,
        Some(stop) => import_fault(stop),
    }
}

/// The end of a text, after its last row.
fn rows_end(end: End) -> Result<Option<Row>, ImportFault>
    ensures end { result ≡ at_end (option_map import_fault end.stop) }
    ensures read { (failed : Bool) → failed ≡ flag_after_stop end.stop false
        → IsTrueResult result failed }
{
    match end.stop {
        None => Ok(None),
        Some(stop) => Err(import_fault(stop)),
    }
}

/// Whether a record is the header for these lists.
fn is_header(lists: &[ListEntry], fields: &ByteRecord) -> bool
    ensures { result ≡ is_header (list_codes lists.now) (fields_of fields.now) }
{
    if fields.len() < FIXED_NAMES || fields.len() - FIXED_NAMES != lists.len() {
        return false;
    }
    if !has_fixed_names(fields) {
        return false;
    }
    for place in 0..lists.len() {
        let list = &lists[place];
        if field(fields, FIXED_NAMES + place) != list.code.as_bytes() {
            return false;
        }
    }
    true
}

/// The codes of stations, in which each is found by its hash.
fn station_codes(alloc: Global, stations: &[Station]) -> Result<HashSet<Code>, AllocError>
    ensures { IfOk result (λ codes. (code : List ℕ) → contains bytes_eq codes code
        ≡ list_any (bytes_eq code) (station_codes stations.now)) }
{
    let mut codes = HashSet::with_capacity(alloc, stations.len())?;
    for station in stations {
        codes.insert(station.code)?;
    }
    Ok(codes)
}
