//! The returns of a constituency, as CSV.

ghost use Rattle.std.specs.Prelude.{◌≡◌, ◌++◌, ◌∷◌, ℕ, List, [], IfOk, IfErr, OnOk, map};
ghost use Rattle.std.specs.Fmt.{decimal};
ghost use Rattle.std.specs.List.{flat_map};
ghost use Rattle.csv.specs.Records.{fields_of};
ghost use Rattle.csv.specs.Writing.{default_writer, row_text};
ghost use Rattle.tally_setup.specs.Constituency.{list_codes};
ghost use Rattle.tally_report_overview.specs.ReturnsText.{header_fields, record_of, return_fields};
ghost use Rattle.tally_report_overview.specs.ReturnsText.{returns_text};
ghost use Rattle.tally_report_overview.specs.internal.Writing.{HasWritten};
ghost use Rattle.tally_report.specs.declared.fault.ReportFault.TheVariants.{Memory};

use csv::{StringRecord, Writer, WriterBuilder};
use itoa::Buffer;
use std::alloc::{AllocError, Global};
use tally_report::ReportFault;
use tally_returns::{Return, StationRow};
use tally_setup::{Code, Constituency, ListEntry};

/// The returns of a constituency as CSV, which an import takes: a header, then a row for each
/// station that has a return, whatever its status. The text is ASCII.
pub fn returns_text(
    alloc: Global,
    con: &Constituency,
    rows: &[StationRow],
) -> Result<Vec<u8>, ReportFault>
    ensures text { IfOk result (λ text. text.items ≡ returns_text con.now rows.now) }
    ensures fault { IfErr result (λ fault. fault ≡ Memory) }
{
    let mut writer = new_writer(alloc);
    let mut fields = StringRecord::new(alloc);
    fill_header(&mut fields, con)?;
    write(&mut writer, &fields)?;
    for row in rows {
        write_row(&mut writer, &mut fields, row)?;
    }
    finish(writer)
}

/// Writes the record of a station's return, if it has one.
fn write_row(
    writer: &mut Writer<Vec<u8>>,
    fields: &mut StringRecord,
    row: &StationRow,
) -> Result<(), ReportFault>
    ensures text { OnOk result ((text : List ℕ) → HasWritten writer.old text
        → HasWritten writer.new (text ++ flat_map (row_text default_writer) (record_of row.now))) }
    ensures fault { IfErr result (λ fault. fault ≡ Memory) }
{
    let Some(standing) = &row.found else {
        return Ok(());
    };
    fill_return(fields, row.station, standing)?;
    write(writer, fields)?;
    Ok(())
}

/// A writer that writes a record of any length, as it would by default.
fn new_writer(alloc: Global) -> Writer<Vec<u8>>
    ensures { HasWritten result [] }
{
    WriterBuilder::new()
        .flexible(true)
        .from_writer(Vec::new(alloc))
}

fn write(writer: &mut Writer<Vec<u8>>, fields: &StringRecord) -> Result<(), ReportFault>
    ensures text { OnOk result ((text : List ℕ) → HasWritten writer.old text
        → HasWritten writer.new (text ++ row_text default_writer (fields_of fields.now))) }
    ensures fault { IfErr result (λ fault. fault ≡ Memory) }
{
    let Ok(()) = writer.write_byte_record(fields.as_byte_record()) else {
        return Err(ReportFault::Memory);
    };
    Ok(())
}

/// The text so far.
fn finish(writer: Writer<Vec<u8>>) -> Result<Vec<u8>, ReportFault>
    ensures text { IfOk result (λ bytes. (text : List ℕ) → HasWritten writer text
        → bytes.items ≡ text) }
    ensures fault { IfErr result (λ fault. fault ≡ Memory) }
{
    match writer.into_inner() {
        Ok(text) => Ok(text),
        Err(_) => Err(ReportFault::Memory),
    }
}

fn fill_header(fields: &mut StringRecord, con: &Constituency) -> Result<(), AllocError>
    ensures { OnOk result (fields_of fields.new ≡ header_fields con.now) }
{
    fields.clear();
    fields.push_field("station")?;
    fields.push_field("slip")?;
    fields.push_field("blank")?;
    fields.push_field("spoiled")?;
    push_codes(fields, &con.lists)
}

fn push_codes(fields: &mut StringRecord, lists: &[ListEntry]) -> Result<(), AllocError>
    ensures { OnOk result (fields_of fields.new ≡ fields_of fields.old ++ list_codes lists.now) }
{
    for list in lists {
        fields.push_field(list.code.as_str())?;
    }
    Ok(())
}

fn fill_return(
    fields: &mut StringRecord,
    station: Code,
    standing: &Return,
) -> Result<(), AllocError>
    ensures { OnOk result (fields_of fields.new ≡ return_fields station standing.now) }
{
    fields.clear();
    fields.push_field(station.as_str())?;
    fields.push_field(standing.slip.as_str())?;
    push_number(fields, standing.counts.blank)?;
    push_number(fields, standing.counts.spoiled)?;
    push_numbers(fields, &standing.counts.votes)
}

fn push_numbers(fields: &mut StringRecord, numbers: &[u32]) -> Result<(), AllocError>
    ensures { OnOk result (fields_of fields.new
        ≡ fields_of fields.old ++ map decimal numbers.now) }
{
    for number in numbers {
        push_number(fields, *number)?;
    }
    Ok(())
}

fn push_number(fields: &mut StringRecord, number: u32) -> Result<(), AllocError>
    ensures { OnOk result (fields_of fields.new ≡ fields_of fields.old ++ decimal number ∷ []) }
{
    let mut digits = Buffer::new();
    fields.push_field(digits.format(number))
}
