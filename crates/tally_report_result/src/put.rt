//! Members of an object. They are put in from the last to the first, so that each goes before those
//! that are there.

ghost use Rattle.std.specs.Prelude.{◌≡◌, OnOk};
ghost use Rattle.serde_json.specs.Data.{put as with_member, string};
ghost use Rattle.serde_json.specs.View.{members_view};
ghost use Rattle.tally_report_result.specs.Values.{array_of, whole};
ghost use Rattle.tally_report_result.specs.internal.Found.{data_of};

use serde_json::{Map, Value};
use std::alloc::{AllocError, Global};

pub(crate) fn put_text(
    map: &mut Map<String, Value>,
    alloc: Global,
    key: &str,
    text: &str,
) -> Result<(), AllocError>
    ensures { OnOk result (members_view map.new.entries
        ≡ with_member key.now (string text.now) (members_view map.old.entries)) }
{
    serde_json::put(map, alloc, key, Value::try_from_str(alloc, text)?)
}

pub(crate) fn put_number(
    map: &mut Map<String, Value>,
    alloc: Global,
    key: &str,
    number: u64,
) -> Result<(), AllocError>
    ensures { OnOk result (members_view map.new.entries
        ≡ with_member key.now (whole number) (members_view map.old.entries)) }
{
    serde_json::put(map, alloc, key, Value::from(number))
}

pub(crate) fn put_array(
    map: &mut Map<String, Value>,
    alloc: Global,
    key: &str,
    values: Vec<Value>,
) -> Result<(), AllocError>
    ensures { OnOk result (members_view map.new.entries
        ≡ with_member key.now (array_of (data_of values.items)) (members_view map.old.entries)) }
{
    serde_json::put(map, alloc, key, Value::from(values))
}
