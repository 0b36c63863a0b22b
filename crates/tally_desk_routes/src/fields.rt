//! The members of a JSON body.

ghost use Rattle.std.specs.Prelude.{◌≡◌, option_map, option_and_then, IfOk};
ghost use Rattle.serde_json.specs.Find.{get, as_array};
ghost use Rattle.serde_json.specs.View.{view, items_view};
ghost use Rattle.tally_desk_routes.specs.Bodies.{IsBody, as_whole, number_under, text_under};
ghost use Rattle.tally_desk_routes.specs.Bodies.{as_code};
ghost use Rattle.tally_desk_routes.specs.Bodies.{code_under, all_items, numbers_under, codes_under};
ghost use Rattle.tally_desk_routes.specs.Bodies.{counts_of_body};

use serde_json::Value;
use std::alloc::{AllocError, Global};
use tally_returns::Counts;
use tally_setup::Code;

/// The value that a body is, if it is one.
pub(crate) fn value_of(alloc: Global, body: &[u8]) -> Result<Option<Value>, AllocError>
    ensures { IfOk result (λ found. IsBody body.now (option_map view found)) }
{
    match Value::from_slice(alloc, body) {
        Ok(value) => Ok(Some(value)),
        Err(error) => {
            if error.is_memory() {
                Err(AllocError)
            } else {
                Ok(None)
            }
        }
    }
}

/// A whole number of 32 bits.
fn as_whole(value: &Value) -> Option<u32>
    ensures { result ≡ as_whole (view value.now) }
{
    let number = value.as_u64()?;
    u32::try_from(number).ok()
}

pub(crate) fn number_under(value: &Value, key: &str) -> Option<u32>
    ensures { result ≡ number_under key.now (view value.now) }
{
    as_whole(value.get(key)?)
}

pub(crate) fn text_under<'v>(value: &'v Value, key: &str) -> Option<&'v str>
    ensures { option_map (λ text. text.now) result ≡ text_under key.now (view value.now) }
{
    value.get(key)?.as_str()
}

fn as_code(value: &Value) -> Option<Code>
    ensures { result ≡ as_code (view value.now) }
{
    Code::new(value.as_str()?.as_bytes())
}

pub(crate) fn code_under(value: &Value, key: &str) -> Option<Code>
    ensures { result ≡ code_under key.now (view value.now) }
{
    as_code(value.get(key)?)
}

fn wholes(alloc: Global, values: &[Value]) -> Result<Option<Vec<u32>>, AllocError>
    ensures { IfOk result (λ found.
        option_map (λ all. all.items) found ≡ all_items as_whole (items_view values.now)) }
{
    let mut numbers = Vec::with_capacity(alloc, values.len())?;
    for value in values {
        let Some(number) = as_whole(value) else {
            return Ok(None);
        };
        numbers.push(number)?;
    }
    Ok(Some(numbers))
}

fn all_codes(alloc: Global, values: &[Value]) -> Result<Option<Vec<Code>>, AllocError>
    ensures { IfOk result (λ found.
        option_map (λ all. all.items) found ≡ all_items as_code (items_view values.now)) }
{
    let mut all = Vec::with_capacity(alloc, values.len())?;
    for value in values {
        let Some(code) = as_code(value) else {
            return Ok(None);
        };
        all.push(code)?;
    }
    Ok(Some(all))
}

fn array_under<'v>(value: &'v Value, key: &str) -> Option<&'v [Value]>
    ensures { option_map (λ r. items_view r.now) result
        ≡ option_and_then as_array (get key.now (view value.now)) }
{
    match value.get(key)?.as_array() {
        Some(values) => Some(values),
        None => None,
    }
}

pub(crate) fn codes_under(
    alloc: Global,
    value: &Value,
    key: &str,
) -> Result<Option<Vec<Code>>, AllocError>
    ensures { IfOk result
        (λ found. option_map (λ all. all.items) found ≡ codes_under key.now (view value.now)) }
{
    match array_under(value, key) {
        Some(values) => all_codes(alloc, values),
        None => Ok(None),
    }
}

fn numbers_under(alloc: Global, value: &Value, key: &str) -> Result<Option<Vec<u32>>, AllocError>
    ensures { IfOk result
        (λ found. option_map (λ all. all.items) found ≡ numbers_under key.now (view value.now)) }
{
    match array_under(value, key) {
        Some(values) => wholes(alloc, values),
        None => Ok(None),
    }
}

/// The counts of a return: its votes, blank and spoiled ones.
#[tactic(auto, unfolding(crate::specs::Bodies::counts_of_body))]
pub(crate) fn counts_of_body(alloc: Global, value: &Value) -> Result<Option<Counts>, AllocError>
    ensures { IfOk result (λ found. found ≡ counts_of_body (view value.now)) }
{
    let Some(blank) = number_under(value, "blank") else {
        return Ok(None);
    };
    let Some(spoiled) = number_under(value, "spoiled") else {
        return Ok(None);
    };
    let Some(votes) = numbers_under(alloc, value, "votes")? else {
        return Ok(None);
    };
    Ok(Some(Counts {
        votes,
        blank,
        spoiled,
    }))
}
