//! Imports of returns.

ghost use Rattle.std.specs.Prelude.{◌≡◌, ◌≤◌, ◌+◌, Err, IfErr, IfOk, IsOk, OnOk, Some, false};
ghost use Rattle.std.specs.Prelude.{[], is_some, length, string_bytes, string_capacity};
ghost use Rattle.std.specs.Prelude.{string_len, true};
ghost use Rattle.tally_setup.specs.Constituency.{list_codes};
ghost use Rattle.tally_setup.specs.Setup.{constituency_with};
ghost use Rattle.tally_import_records.specs.Watch.{NotesNothing, has_failed};
ghost use Rattle.tally_returns_rows.specs.Delivery.{delivery};
ghost use Rattle.tally_returns_rows.specs.Source.{row_limit};
ghost use Rattle.tally_keeper.specs.StaysKeeper.{StaysKeeper};
ghost use Rattle.tally_office_commands.specs.Done.{IsFileImported, IsImportedAt};
ghost use Rattle.tally_office_commands.specs.Failed.{IsFileTrouble, IsImportFailure};
ghost use Rattle.tally_office_commands.specs.Imported.{IsCountText, IsImportTrouble, IsImportText};
ghost use Rattle.tally_office_commands.specs.Imported.{IsImportedComing, IsTextImported};
ghost use Rattle.tally_office_commands.specs.Imported.{IsTextTrouble};
ghost use Rattle.tally_office_commands.specs.Imported.{IsTroubleComing, coming_of, import_text};
ghost use Rattle.tally_office_commands.specs.Offices.{known};
ghost use Rattle.tally_office_trouble.specs.Trouble.{IsTroubleOfText, IsTroubleOfRows};
ghost use Rattle.tally_office_trouble.specs.Troubles.{IsTroubleOfFileImport, IsTroubleOfImport};
ghost use Rattle.tally_office_trouble.specs.Written.{IsWritten};
ghost use Rattle.tally_office_commands.specs.internal.Found.{IsFindTrouble};
ghost use Rattle.tally_office_commands.specs.internal.Room.{room_of_lines};

use crate::ending::close_and_print;
use crate::offices::Offices;
use std::alloc::Global;
use std::io::{Read, Write};
use tally_import::room::{COUNT_ROOM, push_count};
use tally_import::{LINE_ROOM, ReturnRows, Sep, Watch, list_codes, push_lines};
use tally_keeper::Keeper;
use tally_office_trouble::{NamedFiles, Trouble, con_with_code};
use tally_returns_rows::{ImportCount, NamedRow, ROW_LIMIT, RowSource};
use tally_setup::{Code, Constituency, Setup};

/// Lodges the returns of a file, and with `lines` names each row that is not lodged.
#[inline(never)]
pub fn import_at<O: Offices, W: Write>(
    rt: &HostRuntime,
    offices: &O,
    db: &str,
    con: &str,
    csv: &str,
    sep: Sep,
    lines: bool,
    output: &mut W,
) -> Result<(), Trouble>
    ensures written { IsWritten W.contents (IsImportedAt (known O.Office.Keeper
        (O.Opens offices.now) (O.Finds offices.now) (O.Makes offices.now) (O.Closes offices.now)
        (O.Gives offices.now))
        db.now con.now csv.now sep lines) output.old output.new result }
    ensures named { IfErr result IsTroubleOfImport }
    ensures trouble { IfErr result (IsImportFailure (known O.Office.Keeper
        (O.Opens offices.now) (O.Finds offices.now) (O.Makes offices.now) (O.Closes offices.now)
        (O.Gives offices.now))
        db.now con.now csv.now sep lines) }
{
    let mut office = match offices.open_office(rt, db) {
        Ok(office) => office,
        Err(trouble) => return Err(trouble),
    };
    let outcome = import_file(
        rt,
        offices,
        &mut office,
        con,
        csv,
        sep,
        lines,
        &mut Watch::new(),
    );
    close_and_print(rt, offices, db, office, outcome, output)
}

/// Imports a file, and returns the text of the import. The constituency is looked up before the
/// file is opened. With the trouble `Read`, the watch has noted a failed read; with a text, it
/// noted none.
fn import_file<F: NamedFiles, K: Keeper>(
    rt: &HostRuntime,
    files: &F,
    keeper: &mut K,
    con: &str,
    csv: &str,
    sep: Sep,
    lines: bool,
    watch: &mut Watch<F::File>,
) -> Result<String, Trouble>
    ensures stays { StaysKeeper K.Keeper keeper.old keeper.new }
    ensures text { IfOk result (λ text. IsCountText lines (string_bytes text)) }
    ensures named { IfErr result IsTroubleOfFileImport }
    ensures read { K.IsTrusted keeper.new →
        result ≡ Err Trouble.Read → has_failed watch.new ≡ true }
    ensures all_read { K.IsTrusted keeper.new → OnOk result (NotesNothing watch.old watch.new) }
    ensures imported { K.IsTrusted keeper.new → IfOk result (λ text.
        IsFileImported (F.Gives files.now csv.now) con.now sep lines
        (K.constituencies keeper.old) (K.content keeper.old)
        (string_bytes text) (K.content keeper.new)) }
    ensures trouble { K.IsTrusted keeper.new → IfErr result (λ trouble.
        IsFileTrouble (F.Gives files.now csv.now) con.now sep
        (K.constituencies keeper.old) (K.content keeper.old)
        trouble (K.content keeper.new)) }
{
    if !has_con(keeper.setup(), con) {
        return Err(Trouble::NoConstituency);
    }
    match files.open_file(rt, csv) {
        Ok(file) => import_returns(rt.alloc(), keeper, con, sep, lines, file, watch),
        Err(trouble) => Err(trouble),
    }
}

/// Whether the setup has a constituency of this code.
pub fn has_con(setup: &Setup, code: &str) -> bool
    ensures { result ≡ is_some (constituency_with code.now setup.now) }
{
    con_with_code(setup, code).is_some()
}

/// A copy of the constituency of a code, which an import needs, and the codes of its lists.
fn find_con(alloc: Global, setup: &Setup, code: &str) -> Result<(Constituency, Vec<Code>), Trouble>
    ensures found { IfOk result (λ found.
        constituency_with code.now setup.now ≡ Some found.0) }
    ensures lists { IfOk result (λ found. found.1.items ≡ list_codes found.0.lists) }
    ensures trouble { IfErr result (IsFindTrouble (constituency_with code.now setup.now)) }
{
    let Some(con) = con_with_code(setup, code) else {
        return Err(Trouble::NoConstituency);
    };
    let Ok(lists) = list_codes(alloc, &con.lists) else {
        return Err(Trouble::Memory);
    };
    match con.try_copy(alloc) {
        Ok(con) => Ok((con, lists)),
        Err(_) => Err(Trouble::Memory),
    }
}

/// Imports the rows of a text into the constituency of a code: all of them, or with a trouble none,
/// unless a failed disk shut the keeper. Returns how many were lodged, as text, and with `lines` a
/// line for each row that was neither lodged nor there already. With the trouble `Read`, the watch
/// has noted a failed read; with a text, it noted none.
pub fn import_returns<K: Keeper, R: Read + Drop>(
    alloc: Global,
    keeper: &mut K,
    code: &str,
    sep: Sep,
    lines: bool,
    reader: R,
    watch: &mut Watch<R>,
) -> Result<String, Trouble>
    ensures stays { StaysKeeper K.Keeper keeper.old keeper.new }
    ensures text { IfOk result (λ text. IsCountText lines (string_bytes text)) }
    ensures named { IfErr result IsTroubleOfText }
    ensures read { K.IsTrusted keeper.new →
        result ≡ Err Trouble.Read → has_failed watch.new ≡ true }
    ensures all_read { K.IsTrusted keeper.new → OnOk result (NotesNothing watch.old watch.new) }
    ensures imported { K.IsTrusted keeper.new → IfOk result (λ text.
        IsTextImported code.now sep lines (R.remaining reader)
        (K.constituencies keeper.old) (K.content keeper.old)
        (string_bytes text) (K.content keeper.new)) }
    ensures trouble { K.IsTrusted keeper.new → IfErr result (λ trouble.
        IsTextTrouble code.now sep (R.remaining reader)
        (K.constituencies keeper.old) (K.content keeper.old) trouble (K.content keeper.new)) }
{
    match find_con(alloc, keeper.setup(), code) {
        Ok((con, lists)) => {
            import_constituency(alloc, keeper, con, &lists, sep, lines, reader, watch)
        }
        Err(trouble) => Err(trouble),
    }
}

/// Imports the rows of a text into a constituency of these lists.
fn import_constituency<K: Keeper, R: Read + Drop>(
    alloc: Global,
    keeper: &mut K,
    con: Constituency,
    lists: &[Code],
    sep: Sep,
    lines: bool,
    reader: R,
    watch: &mut Watch<R>,
) -> Result<String, Trouble>
    ensures stays { StaysKeeper K.Keeper keeper.old keeper.new }
    ensures text { IfOk result (λ text. IsCountText lines (string_bytes text)) }
    ensures named { IfErr result IsTroubleOfRows }
    ensures read { K.IsTrusted keeper.new →
        result ≡ Err Trouble.Read → has_failed watch.new ≡ true }
    ensures all_read { K.IsTrusted keeper.new → OnOk result (NotesNothing watch.old watch.new) }
    ensures imported { K.IsTrusted keeper.new → IfOk result (λ text.
        IsImportedComing lines lists.now (K.constituencies keeper.old) (K.content keeper.old)
        (coming_of con sep (R.remaining reader)) (string_bytes text) (K.content keeper.new)) }
    ensures trouble { K.IsTrusted keeper.new → IfErr result (λ trouble.
        IsTroubleComing (K.constituencies keeper.old) (K.content keeper.old)
        (coming_of con sep (R.remaining reader)) trouble (K.content keeper.new)) }
{
    let mut rows = ReturnRows::new(alloc, reader, sep, con);
    let outcome = import_from(alloc, keeper, &mut rows, lists, lines);
    watch.add(rows.into_watch());
    outcome
}

/// Imports the rows of a source: all that it gives, or with a trouble none, unless a failed disk
/// shut the keeper. The trouble is that of the fault with which the source ended, or of the
/// keeper's own. The room of the text is reserved first: nothing takes memory once rows are lodged.
pub fn import_from<K: Keeper, R: RowSource>(
    alloc: Global,
    keeper: &mut K,
    rows: &mut R,
    lists: &[Code],
    lines: bool,
) -> Result<String, Trouble>
    ensures stays { StaysKeeper K.Keeper keeper.old keeper.new }
    ensures text { IfOk result (λ text. IsCountText lines (string_bytes text)) }
    ensures named { IfErr result IsTroubleOfRows }
    ensures imported { K.IsTrusted keeper.new → IfOk result (λ text.
        IsImportText lines lists.now (K.constituencies keeper.old) (K.content keeper.old)
        (delivery R.RowSource rows.old rows.new) (string_bytes text) (K.content keeper.new)) }
    ensures trouble { K.IsTrusted keeper.new → IfErr result (λ trouble.
        IsImportTrouble (K.constituencies keeper.old) (K.content keeper.old)
        (delivery R.RowSource rows.old rows.new) trouble (K.content keeper.new)) }
{
    let Ok(text) = String::with_capacity(alloc, import_room(lines)) else {
        return Err(Trouble::Memory);
    };
    let mut named = Vec::new(alloc);
    match keeper.lodge_from(rows, &mut named) {
        Ok(count) => import_text(text, lists, lines, &count, &named),
        Err(fault) => Err(Trouble::from_import(fault)),
    }
}

/// The most bytes of the text of an import of at most 20,000 rows.
fn import_room(lines: bool) -> usize
    ensures { COUNT_ROOM + room_of_lines lines row_limit ≤ result }
{
    if lines {
        COUNT_ROOM + LINE_ROOM * ROW_LIMIT as usize
    } else {
        COUNT_ROOM
    }
}

/// Writes the text of an import into one that is empty and has room for the six lines. If it also
/// has the room for the lines of the rows, that takes no memory.
fn import_text(
    mut text: String,
    lists: &[Code],
    lines: bool,
    count: &ImportCount,
    named: &[NamedRow],
) -> Result<String, Trouble>
    requires empty { string_bytes text ≡ [] }
    requires len { string_len text ≡ 0 }
    requires counts { COUNT_ROOM ≤ string_capacity text }
    ensures text { IfOk result (λ text.
        string_bytes text ≡ import_text lines lists.now count.now named.now) }
    ensures room { COUNT_ROOM + room_of_lines lines (length named.now) ≤ string_capacity text
        → IsOk result }
    ensures memory { IfErr result (λ trouble. trouble ≡ Trouble.Memory) }
{
    push_count(&mut text, count);
    if !lines {
        return Ok(text);
    }
    match push_lines(&mut text, lists, named) {
        Ok(()) => Ok(text),
        Err(_) => Err(Trouble::Memory),
    }
}
