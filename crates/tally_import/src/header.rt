//! The header of a text of returns.

ghost use Rattle.std.specs.Prelude.{◌≡◌, ◌≤◌, length, IfOk, option_map};
ghost use Rattle.csv.specs.Records.{fields_of};
ghost use Rattle.tally_import.specs.Header.{header_lists};
ghost use Rattle.tally_import.specs.internal.FixedNames.{has_fixed_names};

use csv::ByteRecord;
use std::alloc::{AllocError, Global};
use tally_frac::MOST_LISTS;
use tally_import_records::field;
use tally_setup::Code;

/// How many names come before those of the lists.
pub(crate) const FIXED_NAMES: usize = 4;

/// The lists that a record names, if it is a header.
pub fn lists_in_header(alloc: Global, fields: &ByteRecord) -> Result<Option<Vec<Code>>, AllocError>
    ensures { IfOk result (λ lists.
        option_map (λ l. l.items) lists ≡ header_lists (fields_of fields.now)) }
{
    if fields.len() <= FIXED_NAMES || fields.len() > FIXED_NAMES + MOST_LISTS {
        return Ok(None);
    }
    if !has_fixed_names(fields) {
        return Ok(None);
    }
    let mut lists = Vec::new(alloc);
    for place in FIXED_NAMES..fields.len() {
        let Some(code) = Code::new(field(fields, place)) else {
            return Ok(None);
        };
        if lists.contains(&code) {
            return Ok(None);
        }
        lists.push(code)?;
    }
    Ok(Some(lists))
}

/// Whether a record begins with the names that every header begins with.
pub(crate) fn has_fixed_names(fields: &ByteRecord) -> bool
    requires { 4 ≤ length (fields_of fields.now) }
    ensures { result ≡ has_fixed_names (fields_of fields.now) }
{
    field(fields, 0) == b"station".as_slice()
        && field(fields, 1) == b"slip".as_slice()
        && field(fields, 2) == b"blank".as_slice()
        && field(fields, 3) == b"spoiled".as_slice()
}
