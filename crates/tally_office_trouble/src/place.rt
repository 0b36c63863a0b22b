//! The line on standard error that says where a fault of a setup is. It is written piece by piece,
//! as far as the first write that fails, and takes no memory.

ghost use Rattle.std.specs.Prelude.{◌++◌, Some};
ghost use Rattle.tally_office_trouble.specs.Place.{array_words, entry_words, place_line};
ghost use Rattle.tally_office_trouble.specs.Place.{way_words};
ghost use Rattle.tally_rules.specs.declared.place.Place.TheVariants as place;
ghost use Rattle.tally_office_trouble.specs.internal.Put.{IsPut, IsPutAfter};

use crate::standard_error::{put, put_after};
use itoa::Buffer;
use std::io::Write;
use tally_import::CheckFault;
use tally_rules::{Place, SetupArray, Way};
use tally_setup::Code;

/// An entry that has a code, between words.
fn put_coded<E: Write>(
    done: Result<(), CheckFault>,
    words: &str,
    number: usize,
    code: Code,
    after: &str,
    errors: &mut E,
) -> Result<(), CheckFault>
    ensures { IsPutAfter (E.contents errors.old) (E.contents errors.new) done
        (words.now ++ entry_words number (Some code) ++ after.now) result }
{
    let mut digits = Buffer::new();
    let done = put_after(done, words, errors);
    let done = put_after(done, digits.format(number), errors);
    let done = put_after(done, " ", errors);
    let done = put_after(done, code.as_str(), errors);
    put_after(done, after, errors)
}

/// The way to an array, and its word.
fn put_array<E: Write>(
    done: Result<(), CheckFault>,
    array: &SetupArray,
    errors: &mut E,
) -> Result<(), CheckFault>
    ensures { IsPutAfter (E.contents errors.old) (E.contents errors.new) done
        (array_words array.now) result }
{
    match array {
        SetupArray::Profiles => put_after(done, "profile ", errors),
        SetupArray::Constituencies => put_after(done, "constituency ", errors),
        SetupArray::Lists(con) => {
            put_coded(
                done,
                "constituency ",
                con.number,
                con.code,
                ", list ",
                errors,
            )
        }
        SetupArray::Candidates(con, list) => {
            let done = put_coded(
                done,
                "constituency ",
                con.number,
                con.code,
                ", list ",
                errors,
            );
            put_coded(done, "", list.number, list.code, ", candidate ", errors)
        }
        SetupArray::Stations(con) => {
            put_coded(
                done,
                "constituency ",
                con.number,
                con.code,
                ", station ",
                errors,
            )
        }
    }
}

/// The way to an entry, and words.
fn put_way<E: Write>(
    done: Result<(), CheckFault>,
    way: &Way,
    after: &str,
    errors: &mut E,
) -> Result<(), CheckFault>
    ensures { IsPutAfter (E.contents errors.old) (E.contents errors.new) done
        (way_words way.now ++ after.now) result }
{
    let done = put_array(done, &way.array, errors);
    match way.code {
        Some(code) => put_coded(done, "", way.number, code, after, errors),
        None => {
            let mut digits = Buffer::new();
            let done = put_after(done, digits.format(way.number), errors);
            put_after(done, after, errors)
        }
    }
}

fn put_text<E: Write>(line: usize, column: usize, errors: &mut E) -> Result<(), CheckFault>
    ensures { IsPut (E.contents errors.old) (E.contents errors.new)
        (place_line (place.Text line column)) result }
{
    let mut digits = Buffer::new();
    let done = put("at line ", errors);
    let done = put_after(done, digits.format(line), errors);
    let done = put_after(done, ", column ", errors);
    let done = put_after(done, digits.format(column), errors);
    put_after(done, "\n", errors)
}

/// Writes the line of a place.
pub(crate) fn put_place<E: Write>(place: &Place, errors: &mut E) -> Result<(), CheckFault>
    ensures { IsPut (E.contents errors.old) (E.contents errors.new) (place_line place.now) result }
{
    match place {
        Place::Entry(way, first) => {
            let done = put("at ", errors);
            match first {
                Some(first) => {
                    let done = put_way(done, way, "; first at ", errors);
                    put_way(done, first, "\n", errors)
                }
                None => put_way(done, way, "\n", errors),
            }
        }
        Place::Text(line, column) => put_text(*line, *column, errors),
    }
}
