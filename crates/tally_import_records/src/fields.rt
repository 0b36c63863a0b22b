//! The fields of a record.

ghost use Rattle.std.specs.Prelude.{◌≡◌, ◌<◌, [], length, slice_index_or};
ghost use Rattle.csv.specs.Records.{fields_of};

use csv::ByteRecord;

/// The field at a place (from 0).
pub fn field(fields: &ByteRecord, place: usize) -> &[u8]
    requires { place < length (fields_of fields.now) }
    ensures { result.now ≡ slice_index_or (fields_of fields.now) place [] }
{
    match fields.get(place) {
        Some(field) => field,
        None => unreachable!(),
    }
}
