//! The recount of a text of returns.

ghost use Rattle.std.specs.Prelude.{◌≡◌, ◌≤◌, ℕ, List, Err, IfErr, IfOk, IfSome, OnOk, false, true};
ghost use Rattle.std.specs.Prelude.{length, map, option_map, string_bytes};
ghost use Rattle.tally_setup.specs.Limits.{most_stations};
ghost use Rattle.tally_import.specs.ReturnRowsValue.{unread_rows};
ghost use Rattle.tally_import_records.specs.Watch.{has_failed};
ghost use Rattle.tally_import_recount.specs.Counted.{IsOfSetup, count_named, counts_in};
ghost use Rattle.tally_import_recount.specs.Counted.{recounted_rows};
ghost use Rattle.tally_import_recount.specs.Recounts.{IsSilent, Recounts};
ghost use Rattle.tally_import_options.specs.WantedRecount.{wanted};
ghost use Rattle.tally_import_recount.specs.declared.fault.RecountTrouble.TheVariants as trouble;
ghost use Rattle.tally_import_recount.specs.internal.Finds.{FindsText, IsOfReading, IsOutcome};
ghost use Rattle.tally_import_recount.specs.internal.Finds.{trouble_of_rows};
ghost use Rattle.tally_import_recount.specs.internal.Register.{HasTaken, HasWords};
ghost use Rattle.tally_import_votes.specs.Lot.{words_given};
ghost use Rattle.tally_import_votes.specs.declared.fault.AllotTrouble.TheVariants as allotting;
ghost use Rattle.tally_import_votes.specs.declared.fault.VotesFault.TheVariants as votes;
ghost use Rattle.tally_returns_rows.specs.declared.import.Row.{Row};
ghost use Rattle.tally_report_allotment.specs.Recount.{recounted};
ghost use Rattle.tally_returns.specs.Return.{Returns};
ghost use Rattle.tally_import.specs.internal.Table.{Holds};

use crate::fault::RecountTrouble;
use crate::register::Register;
use crate::rows::take_rows;
use std::alloc::{AllocError, Global};
use std::collections::{HashMap, HashSet};
use std::io::{Read, Write};
use tally_import::{ReturnRows, list_codes, write_watched};
use tally_import_options::RecountOptions;
use tally_import_records::Watch;
use tally_import_votes::{AllotTrouble, VotesFault, lot_places, trouble_of};
use tally_report_allotment::{Recount, recount_text};
use tally_returns::{Counts, Return};
use tally_returns_rows::ImportFault;
use tally_setup::{Code, Constituency, Station};

/// Counts the returns of a text again, as closed, and writes the seats that they come to.
///
/// The text is CSV as an import reads it. Each row is counted that would be lodged in a fresh
/// office of the setup, but for those of stations that are left out. The first trouble is answered:
/// a station that is left out and is none of the constituency, then a fault of the text, then one
/// of the allotment. Nothing is written before the whole text was read, and nothing with a trouble,
/// unless the writing itself failed.
pub fn recount_csv<R: Read + Drop, W: Write>(
    alloc: Global,
    con: &Constituency,
    options: &RecountOptions,
    reader: R,
    writer: &mut W,
) -> Result<(), RecountTrouble>
    requires { IsOfSetup con.now }
    ensures answered { IfSome (R.remaining reader) (λ text. Recounts con.now (wanted options.now)
        text (W.contents writer.old) (W.contents writer.new) result) }
    ensures silent { IsSilent (W.contents writer.old) (W.contents writer.new) result }
{
    let (mut reads, mut writes) = (Watch::new(), Watch::new());
    recount_watched(alloc, con, options, reader, &mut reads, writer, &mut writes)
}

/// As `recount_csv`, with a watch on each stream: a failed read is answered only where one of the
/// reader's own reads failed, and a failed write only where the writer failed or took nothing. With
/// `Ok` neither watch noted a failure.
pub fn recount_watched<R: Read + Drop, W: Write>(
    alloc: Global,
    con: &Constituency,
    options: &RecountOptions,
    reader: R,
    reads: &mut Watch<R>,
    writer: &mut W,
    writes: &mut Watch<W>,
) -> Result<(), RecountTrouble>
    requires { IsOfSetup con.now }
    ensures answered { IfSome (R.remaining reader) (λ text. Recounts con.now (wanted options.now)
        text (W.contents writer.old) (W.contents writer.new) result) }
    ensures silent { IsSilent (W.contents writer.old) (W.contents writer.new) result }
    ensures read { result ≡ Err (trouble.Allot (allotting.Votes votes.Read))
        → has_failed reads.new ≡ true }
    ensures all_read { OnOk result (has_failed reads.new ≡ has_failed reads.old) }
    ensures write { result ≡ Err (trouble.Allot allotting.Write) → has_failed writes.new ≡ true }
    ensures all_written { OnOk result (has_failed writes.new ≡ has_failed writes.old) }
{
    match text_of_input(alloc, con, options, reader, reads) {
        Ok(text) => match write_watched(writer, writes, text.as_bytes()) {
            Ok(()) => Ok(()),
            Err(_) => Err(RecountTrouble::Allot(AllotTrouble::Write)),
        },
        Err(trouble) => Err(trouble),
    }
}

/// The text to write for a reader's text, or the trouble that comes first.
fn text_of_input<R: Read + Drop>(
    alloc: Global,
    con: &Constituency,
    options: &RecountOptions,
    reader: R,
    watch: &mut Watch<R>,
) -> Result<String, RecountTrouble>
    requires { IsOfSetup con.now }
    ensures finds { IfSome (R.remaining reader)
        (λ text. FindsText con.now (wanted options.now) text result) }
    ensures read { IfErr result (λ trouble. IsOfReading trouble (has_failed watch.new)) }
    ensures all_read { OnOk result (has_failed watch.new ≡ has_failed watch.old) }
{
    let Ok(copy) = con.try_copy(alloc) else {
        return Err(RecountTrouble::Allot(AllotTrouble::Memory));
    };
    let mut rows = ReturnRows::new(alloc, reader, options.sep, copy);
    let outcome = text_of_rows(alloc, con, options, &mut rows);
    watch.add(rows.into_watch());
    outcome
}

/// The text to write for the rows of a text of which nothing was read, or the trouble that comes
/// first.
fn text_of_rows<R: Read>(
    alloc: Global,
    con: &Constituency,
    options: &RecountOptions,
    rows: &mut ReturnRows<R>,
) -> Result<String, RecountTrouble>
    requires setup { IsOfSetup con.now }
    requires unread { rows.old ≡ unread_rows con.now options.now.sep rows.old.text }
    ensures finds { IfSome rows.old.text
        (λ text. FindsText con.now (wanted options.now) text result) }
    ensures read { IfErr result (λ trouble. IsOfReading trouble rows.new.failed) }
    ensures all_read { OnOk result (rows.new.failed ≡ false) }
{
    let mut register = match Register::new(alloc, con, &options.without) {
        Ok(register) => register,
        Err(trouble) => return Err(trouble),
    };
    if let Err(fault) = take_rows(alloc, rows, &mut register) {
        return Err(RecountTrouble::Allot(trouble_of_rows(fault)));
    }
    match text_counted(alloc, con, options, &register) {
        Ok(text) => Ok(text),
        Err(trouble) => Err(RecountTrouble::Allot(trouble)),
    }
}

fn trouble_of_rows(fault: ImportFault) -> AllotTrouble
    ensures { result ≡ trouble_of_rows fault }
{
    match fault {
        ImportFault::BadHeader => AllotTrouble::Votes(VotesFault::BadHeader),
        ImportFault::TooLong => AllotTrouble::Votes(VotesFault::TooLong),
        ImportFault::Read => AllotTrouble::Votes(VotesFault::Read),
        ImportFault::Memory | ImportFault::Store => AllotTrouble::Memory,
    }
}

/// The text of what a register has counted, or why there are no seats.
fn text_counted(
    alloc: Global,
    con: &Constituency,
    options: &RecountOptions,
    register: &Register,
) -> Result<String, AllotTrouble>
    requires setup { IsOfSetup con.now }
    requires taken { (rows : List Row) × HasTaken con.now
        (words_given (option_map string_bytes options.now.without)) rows register.now }
    ensures { (rows : List Row)
        → HasTaken con.now (words_given (option_map string_bytes options.now.without)) rows
        register.now
        → IsOutcome con.now (recounted_rows con.now (wanted options.now) rows) result }
{
    let Ok(recount) = recount_of(alloc, con, options, register) else {
        return Err(AllotTrouble::Memory);
    };
    let Ok(lists) = list_codes(alloc, &con.lists) else {
        return Err(AllotTrouble::Memory);
    };
    match recount_text(alloc, con, &recount) {
        Ok(text) => Ok(text),
        Err(fault) => Err(trouble_of(alloc, &fault, &lists)),
    }
}

/// The recount of what a register has counted, as it is asked for.
fn recount_of(
    alloc: Global,
    con: &Constituency,
    options: &RecountOptions,
    register: &Register,
) -> Result<Recount, AllocError>
    ensures { IfOk result (λ recount. (rows : List Row)
        → HasTaken con.now (words_given (option_map string_bytes options.now.without)) rows
        register.now
        → recounted recount ≡ recounted_rows con.now (wanted options.now) rows) }
{
    let lists = list_codes(alloc, &con.lists)?;
    Ok(Recount {
        returns: counts_of(alloc, &con.stations, &register.returns)?,
        without: count_named(&con.stations, &register.left_out),
        passed: register.passed,
        lot: lot_places(alloc, &lists, &options.lot)?,
        awards: options.awards,
        decisive: options.decisive,
    })
}

/// The counts of the return of each station, where it has one.
fn counts_of(
    alloc: Global,
    stations: &[Station],
    table: &HashMap<Code, Return>,
) -> Result<Vec<Option<Counts>>, AllocError>
    ensures { IfOk result (λ counts. (returns : Returns) → Holds table.now returns
        → counts.items ≡ map (counts_in returns) stations.now) }
{
    let mut counts = Vec::with_capacity(alloc, stations.len())?;
    for station in stations {
        counts.push(counts_at(alloc, station, table)?)?;
    }
    Ok(counts)
}

/// The counts of the return of a station, where it has one.
fn counts_at(
    alloc: Global,
    station: &Station,
    table: &HashMap<Code, Return>,
) -> Result<Option<Counts>, AllocError>
    ensures { IfOk result (λ counts. (returns : Returns) → Holds table.now returns
        → counts ≡ counts_in returns station.now) }
{
    match table.get(&station.code) {
        Some(standing) => Ok(Some(standing.counts.try_copy(alloc)?)),
        None => Ok(None),
    }
}

/// How many of these stations are in a set.
fn count_named(stations: &[Station], named: &HashSet<Code>) -> u32
    requires { length stations.now ≤ most_stations }
    ensures { (words : List (List ℕ)) → HasWords words named.now
        → result ≡ count_named stations.now words }
{
    let mut count = 0;
    for station in stations {
        if named.contains(&station.code) {
            count += 1;
        }
    }
    count
}
