//! The check of a text of returns.

ghost use Rattle.std.specs.Prelude.{◌≡◌, ◌≤◌, Bool, List, [], ◌∷◌, length, ℕ, Some, None, true, Ok};
ghost use Rattle.std.specs.Prelude.{Err, IfErr, IfSome, OnOk};
ghost use Rattle.std.specs.Io.KnownBytes.{Appends};
ghost use Rattle.tally_frac.specs.Limits.{most_lists};
ghost use Rattle.tally_import_check.specs.Check.{Checked, Checks, IsSilent, check_result};
ghost use Rattle.tally_import_check.specs.Check.{no_header};
ghost use Rattle.tally_import_check.specs.Check.{text_of};
ghost use Rattle.tally_import.specs.Header.{header_lists};
ghost use Rattle.tally_import_records.specs.Given.{IsReadingOn, WatchAgrees};
ghost use Rattle.tally_import_records.specs.Watch.{flag_after_stop, has_failed};
ghost use Rattle.tally_import.specs.declared.fault.CheckFault.TheVariants as cause;
ghost use Rattle.tally_import_check.specs.internal.Rounds.{AreRecordsAfter, FindsCheckText};
ghost use Rattle.tally_import_check.specs.internal.Rounds.{FindsAfter};
ghost use Rattle.tally_import_check.specs.internal.Progress.{HasTaken};
ghost use Rattle.tally_import_check.specs.internal.Rounds.{ImportsRecords, IsOfReading, ended_text};

use crate::import::Import;
use crate::summary::import_text;
use csv::ByteRecord;
use std::alloc::Global;
use std::io::{Read, Write};
use tally_import::{CheckFault, lists_in_header, write_watched};
use tally_import_records::{End, Records, Sep, Stop, Watch};
use tally_returns_rows::ROW_LIMIT;
use tally_setup::Code;

/// Checks a text of returns, and writes how many of its rows were lodged, the same again, of
/// differing returns, refused and bad, the first row that was neither of the first two, and the
/// totals of the returns that were lodged. Every code counts as a station of 1,000,000 electors.
/// With `lines` it writes after this a line for each row that was neither lodged nor the same, with
/// what was wrong with it.
///
/// The text is CSV (after RFC 4180, with this separator), of at most 16 MiB and 20,000 rows under
/// its header. The fault that comes first in its bytes is answered. Nothing is written before the
/// whole text was read, and nothing with a fault, unless the writing itself failed.
pub fn check_csv<R: Read, W: Write>(
    alloc: Global,
    reader: &mut R,
    writer: &mut W,
    sep: Sep,
    lines: bool,
) -> Result<(), CheckFault>
    ensures written { OnOk result (IfSome (R.remaining reader.old) (λ text.
        (c : Checked) × (check_result sep text None ≡ Ok c)
        × Appends (W.contents writer.old) (W.contents writer.new) (text_of lines c))) }
    ensures answered { IfSome (R.remaining reader.old) (λ text.
        Checks lines sep text (R.remaining reader.new)
        (W.contents writer.old) (W.contents writer.new) result) }
    ensures silent { IsSilent (W.contents writer.old) (W.contents writer.new) result }
{
    let (mut reads, mut writes) = (Watch::new(), Watch::new());
    check_watched(alloc, reader, &mut reads, writer, &mut writes, sep, lines)
}

/// As `check_csv`, with a watch on each stream: a failed read is answered only where one of the
/// reader's own reads failed, and a failed write only where the writer failed or took nothing. With
/// `Ok` neither watch noted a failure: a read that fails is not made again.
pub fn check_watched<R: Read, W: Write>(
    alloc: Global,
    reader: &mut R,
    reads: &mut Watch<R>,
    writer: &mut W,
    writes: &mut Watch<W>,
    sep: Sep,
    lines: bool,
) -> Result<(), CheckFault>
    ensures written { OnOk result (IfSome (R.remaining reader.old) (λ text.
        (c : Checked) × (check_result sep text None ≡ Ok c)
        × Appends (W.contents writer.old) (W.contents writer.new) (text_of lines c))) }
    ensures answered { IfSome (R.remaining reader.old) (λ text.
        Checks lines sep text (R.remaining reader.new)
        (W.contents writer.old) (W.contents writer.new) result) }
    ensures silent { IsSilent (W.contents writer.old) (W.contents writer.new) result }
    ensures read { result ≡ Err cause.Read → has_failed reads.new ≡ true }
    ensures all_read { OnOk result (has_failed reads.new ≡ has_failed reads.old) }
    ensures write { result ≡ Err cause.Write → has_failed writes.new ≡ true }
    ensures all_written { OnOk result (has_failed writes.new ≡ has_failed writes.old) }
{
    match checked_text(alloc, reader, reads, sep, lines) {
        Ok(text) => write_watched(writer, writes, text.as_bytes()),
        Err(fault) => Err(fault),
    }
}

/// The text to write for a reader's text, or the fault that comes first.
fn checked_text<R: Read>(
    alloc: Global,
    reader: &mut R,
    watch: &mut Watch<R>,
    sep: Sep,
    lines: bool,
) -> Result<String, CheckFault>
    ensures finds { IfSome (R.remaining reader.old) (λ text.
        FindsCheckText lines sep text (R.remaining reader.new) result) }
    ensures read { IfErr result (λ fault. IsOfReading fault (has_failed watch.new)) }
    ensures all_read { OnOk result (has_failed watch.new ≡ has_failed watch.old) }
{
    let mut records = Records::new(alloc, reader, watch, sep)?;
    let mut fields = ByteRecord::new(alloc);
    text_of_records(alloc, reader, watch, &mut records, &mut fields, lines)
}

/// The text to write for records, of which none was given. Each in turn is read into `fields`.
fn text_of_records<R: Read>(
    alloc: Global,
    reader: &mut R,
    watch: &mut Watch<R>,
    records: &mut Records,
    fields: &mut ByteRecord,
    lines: bool,
) -> Result<String, CheckFault>
    requires { IsReadingOn records.old }
    ensures finds { FindsAfter lines []
        records.old (R.remaining reader.old) (R.remaining reader.new) result }
    ensures read { (before : Bool) → WatchAgrees before records.old (has_failed watch.old)
        → IfErr result (λ fault. IsOfReading fault (has_failed watch.new)) }
    ensures all_read { (before : Bool) → WatchAgrees before records.old (has_failed watch.old)
        → OnOk result (has_failed watch.new ≡ before) }
{
    if let Some(end) = records.next(alloc, reader, watch, fields)? {
        return Err(no_header(end));
    }
    let Some(lists) = lists_in_header(alloc, fields)? else {
        return Err(CheckFault::BadHeader);
    };
    text_under_header(
        alloc,
        reader,
        watch,
        records,
        fields,
        lists.as_slice(),
        lines,
    )
}

/// The text to write for the records after a header of these lists.
fn text_under_header<R: Read>(
    alloc: Global,
    reader: &mut R,
    watch: &mut Watch<R>,
    records: &mut Records,
    fields: &mut ByteRecord,
    lists: &[Code],
    lines: bool,
) -> Result<String, CheckFault>
    requires reading { IsReadingOn records.old }
    requires few { length lists.now ≤ most_lists }
    ensures finds { (header : List (List ℕ)) → Some lists.now ≡ header_lists header
        → FindsAfter lines (header ∷ [])
        records.old (R.remaining reader.old) (R.remaining reader.new) result }
    ensures read { (before : Bool) → WatchAgrees before records.old (has_failed watch.old)
        → IfErr result (λ fault. IsOfReading fault (has_failed watch.new)) }
    ensures all_read { (before : Bool) → WatchAgrees before records.old (has_failed watch.old)
        → OnOk result (has_failed watch.new ≡ before) }
{
    let mut import = Import::new(alloc, lists.len())?;
    match check_rows(alloc, reader, watch, records, fields, &mut import) {
        Ok(()) => import_text(alloc, lists, &import, lines),
        Err(fault) => Err(fault),
    }
}

/// The fault of a text that ended before its header did.
fn no_header(end: End) -> CheckFault
    ensures fault { no_header end.stop ≡ Err result }
    ensures read { (before failed : Bool) → failed ≡ flag_after_stop end.stop before
        → IsOfReading result failed }
{
    match end.stop {
        None => CheckFault::BadHeader,
        Some(stop) => CheckFault::from(stop),
    }
}

/// Imports the records that are left. The import has taken none.
fn check_rows<R: Read>(
    alloc: Global,
    reader: &mut R,
    watch: &mut Watch<R>,
    records: &mut Records,
    fields: &mut ByteRecord,
    import: &mut Import,
) -> Result<(), CheckFault>
    requires reading { IsReadingOn records.old }
    requires none { HasTaken (record { lists = import.old.lists; rows = [] }) import.old }
    ensures imports { ImportsRecords import.old.lists
        (AreRecordsAfter (R.remaining reader.old) (R.remaining reader.new) records.old)
        import.new result }
    ensures read { (before : Bool) → WatchAgrees before records.old (has_failed watch.old)
        → IfErr result (λ fault. IsOfReading fault (has_failed watch.new)) }
    ensures all_read { (before : Bool) → WatchAgrees before records.old (has_failed watch.old)
        → OnOk result (has_failed watch.new ≡ before) }
{
    let mut taken = 0;
    loop {
        if let Some(end) = records.next(alloc, reader, watch, fields)? {
            return ended(end);
        }
        if taken == ROW_LIMIT {
            return Err(CheckFault::TooLong);
        }
        taken += 1;
        import.take_record(alloc, taken, fields)?;
    }
}

/// The fault of a text that was stopped, and none of one that came to its end.
fn ended(end: End) -> Result<(), CheckFault>
    ensures end { result ≡ ended_text end.stop }
    ensures read { (before failed : Bool) → failed ≡ flag_after_stop end.stop before
        → IfErr result (λ fault. IsOfReading fault failed) }
    ensures all_read { (before failed : Bool) → failed ≡ flag_after_stop end.stop before
        → OnOk result (failed ≡ before) }
{
    match end.stop {
        None => Ok(()),
        Some(stop) => Err(CheckFault::from(stop)),
    }
}
