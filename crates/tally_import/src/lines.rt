//! The lines of the rows that are named.

ghost use Rattle.std.specs.Prelude.{◌≡◌, ◌≤◌, ◌+◌, ◌*◌, ◌++◌, length, IfOk, IsOk, OnOk};
ghost use Rattle.std.specs.Prelude.{string_bytes, string_capacity, string_len};
ghost use Rattle.tally_import.specs.RowLines.{bad_words, cause_words, column_name, row_line};
ghost use Rattle.tally_import.specs.RowLines.{row_lines, row_numbers};
ghost use Rattle.tally_setup.specs.Constituency.{list_codes};

use crate::room::push;
use itoa::Buffer;
use std::alloc::{AllocError, Global};
use tally_returns_rows::{BadRow, Column, NamedRow, RowCause};
use tally_setup::{Code, ListEntry};

/// The most bytes of the line of a row.
pub const LINE_ROOM: usize = 64;

/// The codes of these lists, as the lines name them.
pub fn list_codes(alloc: Global, lists: &[ListEntry]) -> Result<Vec<Code>, AllocError>
    ensures { IfOk result (λ codes. codes.items ≡ list_codes lists.now) }
{
    let mut codes = Vec::with_capacity(alloc, lists.len())?;
    for list in lists {
        codes.push(list.code)?;
    }
    Ok(codes)
}

/// Appends a line for each of these rows, under a header of these lists. A text that has the room
/// takes no memory.
pub fn push_lines(text: &mut String, lists: &[Code], named: &[NamedRow]) -> Result<(), AllocError>
    ensures lines { OnOk result (string_bytes text.new
        ≡ string_bytes text.old ++ row_lines lists.now named.now) }
    ensures room { string_len text.old + LINE_ROOM * length named.now ≤ string_capacity text.old
        → IsOk result }
{
    for row in named {
        text.reserve(LINE_ROOM)?;
        push_line(text, lists, row);
    }
    Ok(())
}

fn push_line(text: &mut String, lists: &[Code], named: &NamedRow)
    requires { string_len text.old + LINE_ROOM ≤ string_capacity text.old }
    ensures bytes { string_bytes text.new
        ≡ string_bytes text.old ++ row_line lists.now named.now }
    ensures len { string_len text.new ≤ string_len text.old + LINE_ROOM }
    ensures room { string_capacity text.old ≤ string_capacity text.new }
{
    push_numbers(text, named);
    push_words(text, lists, &named.cause);
    push(text, "\n");
}

fn push_numbers(text: &mut String, named: &NamedRow)
    requires { string_len text.old + 26 ≤ string_capacity text.old }
    ensures bytes { string_bytes text.new ≡ string_bytes text.old ++ row_numbers named.now }
    ensures len { string_len text.new ≤ string_len text.old + 26 }
    ensures room { string_capacity text.old ≤ string_capacity text.new }
{
    let mut digits = Buffer::new();
    push(text, "row ");
    push(text, digits.format(named.row));
    push(text, " ");
    push(text, digits.format(named.cause.number()));
    push(text, " ");
}

fn push_words(text: &mut String, lists: &[Code], cause: &RowCause)
    requires { string_len text.old + 33 ≤ string_capacity text.old }
    ensures bytes { string_bytes text.new
        ≡ string_bytes text.old ++ cause_words lists.now cause.now }
    ensures len { string_len text.new ≤ string_len text.old + 33 }
    ensures room { string_capacity text.old ≤ string_capacity text.new }
{
    match cause {
        RowCause::Bad(why) => push_bad(text, lists, why),
        RowCause::Refused(station, refusal) => {
            push(text, refusal.word());
            push(text, " ");
            push_code(text, station);
        }
    }
}

fn push_bad(text: &mut String, lists: &[Code], why: &BadRow)
    requires { string_len text.old + 33 ≤ string_capacity text.old }
    ensures bytes { string_bytes text.new
        ≡ string_bytes text.old ++ bad_words lists.now why.now }
    ensures len { string_len text.new ≤ string_len text.old + 33 }
    ensures room { string_capacity text.old ≤ string_capacity text.new }
{
    match why {
        BadRow::Fields(count) => {
            let mut digits = Buffer::new();
            push(text, "fields ");
            push(text, digits.format(*count));
        }
        BadRow::BadStation => push(text, "bad_station"),
        BadRow::NoStation => push(text, "no_station"),
        BadRow::BadSlip => push(text, "bad_slip"),
        BadRow::BadNumber(column) => {
            push(text, "bad_number ");
            push_column(text, lists, column);
        }
    }
}

/// The name of a column in the header of these lists.
fn push_column(text: &mut String, lists: &[Code], column: &Column)
    requires { string_len text.old + 16 ≤ string_capacity text.old }
    ensures bytes { string_bytes text.new
        ≡ string_bytes text.old ++ column_name lists.now column.now }
    ensures len { string_len text.new ≤ string_len text.old + 16 }
    ensures room { string_capacity text.old ≤ string_capacity text.new }
{
    match column {
        Column::Blank => push(text, "blank"),
        Column::Spoiled => push(text, "spoiled"),
        Column::List(place) => {
            if let Some(code) = lists.get(*place) {
                push_code(text, code);
            }
        }
    }
}

fn push_code(text: &mut String, code: &Code)
    requires { string_len text.old + 16 ≤ string_capacity text.old }
    ensures bytes { string_bytes text.new ≡ string_bytes text.old ++ code.now }
    ensures len { string_len text.new ≤ string_len text.old + 16 }
    ensures room { string_capacity text.old ≤ string_capacity text.new }
{
    push(text, code.as_str());
}
