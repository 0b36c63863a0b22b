//! The certificates that were reopened.

ghost use Rattle.std.specs.Prelude.{◌≡◌, IfOk, map};
ghost use Rattle.serde_json.specs.View.{view as data_value};
ghost use Rattle.tally_report_result.specs.Values.{past_value, whole};
ghost use Rattle.tally_report_result.specs.internal.Found.{data_of};

use crate::put::{put_array, put_number};
use serde_json::{Map, Value};
use std::alloc::{AllocError, Global};
use tally_returns::Past;

/// The certificates that were reopened, in order of edition.
pub(crate) fn past_values(alloc: Global, past: &[Past]) -> Result<Vec<Value>, AllocError>
    ensures { IfOk result (λ values. data_of values.items ≡ map past_value past.now) }
{
    let mut values = Vec::with_capacity(alloc, past.len())?;
    for certificate in past {
        values.push(past_value(alloc, certificate)?)?;
    }
    Ok(values)
}

fn past_value(alloc: Global, past: &Past) -> Result<Value, AllocError>
    ensures { IfOk result (λ value. data_value value ≡ past_value past.now) }
{
    let mut map = Map::new(alloc);
    let seats = number_values(alloc, &past.seats)?;
    put_array(&mut map, alloc, "seats", seats)?;
    put_number(&mut map, alloc, "edition", u64::from(past.edition))?;
    Ok(Value::Object(map))
}

fn number_values(alloc: Global, numbers: &[u32]) -> Result<Vec<Value>, AllocError>
    ensures { IfOk result (λ values. data_of values.items ≡ map whole numbers.now) }
{
    let mut values = Vec::with_capacity(alloc, numbers.len())?;
    for number in numbers {
        values.push(Value::from(*number))?;
    }
    Ok(values)
}
