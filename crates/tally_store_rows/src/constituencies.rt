//! Rows of what constituencies have come to.

ghost use Rattle.std.specs.Prelude.{◌≡◌, IfOk, option_map};
ghost use Rattle.tally_store_rows.specs.Reading.{AreRead, all_gone_of, flag_of, gone_in_row};
ghost use Rattle.tally_store_rows.specs.Reading.{standing_of};
ghost use Rattle.tally_store_rows.specs.Views.{standing_value};
ghost use Rattle.tally_store_rows.specs.internal.Parts.{place_value};

use crate::columns::{has_text, note_in};
use sqlite::Row;
use std::alloc::{AllocError, Global};
use tally_returns::Gone;
use tally_store_schema::number_at;

/// The columns of a row of `cons` beside its code: the edition, whether the constituency is
/// certified, and the note of its last reopening.
#[derive(Clone, Copy)]
pub struct Standing<'a> {
    pub edition: u32,
    pub certified: bool,
    pub note: &'a str,
}

fn flag_of(number: u32) -> Option<bool>
    ensures { result ≡ flag_of number }
{
    if number == 0 {
        Some(false)
    } else if number == 1 {
        Some(true)
    } else {
        None
    }
}

/// The content of a row of `cons`, for the constituency of a code. `None` where it is not such a
/// row.
pub fn standing_in<'a>(row: &'a Row, con: &[u8]) -> Option<Standing<'a>>
    ensures { option_map standing_value result ≡ standing_of con.now row.now }
{
    if row.column_count() != 4 || !has_text(row, 0, con) {
        return None;
    }
    let edition = number_at(row, 1)?;
    let certified = flag_of(number_at(row, 2)?)?;
    let note = note_in(row, 3)?;
    Some(Standing {
        edition,
        certified,
        note,
    })
}

/// The place of a list, the place of a candidate in it, and a note.
#[derive(Clone, Copy)]
struct Place<'a> {
    list: u32,
    place: u32,
    note: &'a str,
}

fn place_in<'a>(row: &'a Row, con: &[u8]) -> Option<Place<'a>>
    ensures { option_map place_value result ≡ gone_in_row con.now row.now }
{
    if row.column_count() != 4 || !has_text(row, 0, con) {
        return None;
    }
    let list = number_at(row, 1)?;
    let place = number_at(row, 2)?;
    let note = note_in(row, 3)?;
    Some(Place { list, place, note })
}

fn gone_in(alloc: Global, row: &Row, con: &[u8]) -> Result<Option<Gone>, AllocError>
    ensures { IfOk result (λ found. found ≡ gone_in_row con.now row.now) }
{
    let Some(found) = place_in(row, con) else {
        return Ok(None);
    };
    Ok(Some(Gone {
        list: found.list,
        place: found.place,
        note: String::from_str(alloc, found.note)?,
    }))
}

/// The candidates of a constituency who are gone, one for each row. `None` where these are not such
/// rows.
pub fn all_gone_in(alloc: Global, rows: &[Row], con: &[u8]) -> Result<Option<Vec<Gone>>, AllocError>
    ensures { AreRead result (all_gone_of con.now rows.now) }
{
    let mut all = Vec::new(alloc);
    for row in rows {
        match gone_in(alloc, row, con)? {
            Some(gone) => all.push(gone)?,
            None => return Ok(None),
        }
    }
    Ok(Some(all))
}
