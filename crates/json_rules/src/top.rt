//! The text of settings, and its top.
ghost use Rattle.std.specs.Prelude.{◌≡◌, IfOk, map, option_map};
ghost use Rattle.std.specs.List.{list_all};
ghost use Rattle.serde_json.specs.View.{view, members_view};
ghost use Rattle.json_rules.specs.Tops.{is_object, is_lone, is_top, objects_at, json_of};

use crate::members::items_at;
use acra_base::NoMemory;
use serde_json::{Map, Value};
use std::alloc::Global;

fn are_objects(items: &[Value]) -> bool
    ensures { result ≡ list_all is_object (map view items.now) }
{
    'each: for item in items {
        if !item.is_object() {
            return false;
        }
    }
    true
}

/// Whether the one member of an object is this one.
fn is_lone(members: &Map<String, Value>, name: &str) -> bool
    ensures { result ≡ is_lone name.now (members_view members.now.entries) }
{
    let mut count = 0u64;
    'each: for (member, _value) in members.iter() {
        if member.as_str() != name || count == 1 {
            return false;
        }
        count = 1;
    }
    count == 1
}

fn is_top(value: &Value, name: &str) -> bool
    ensures { result ≡ is_top name.now (view value.now) }
{
    match value.as_object() {
        Some(members) => {
            is_lone(members, name)
                && value.get(name).and_then(Value::as_array).is_some()
                && are_objects(items_at(value, name))
        }
        None => false,
    }
}

/// The objects of the array that is the one member of a top; none where the top is another.
pub fn objects_at<'a>(value: &'a Value, name: &str) -> Option<&'a [Value]>
    ensures { option_map (λ v. map view v.now) result ≡ objects_at name.now (view value.now) }
{
    if is_top(value, name) {
        Some(items_at(value, name))
    } else {
        None
    }
}

/// What a text is in JSON (RFC 8259, in UTF-8); none where it is not.
pub fn read_json(alloc: Global, text: &[u8]) -> Result<Option<Value>, NoMemory>
    ensures { IfOk result (λ value. option_map view value ≡ json_of text.now) }
{
    match Value::from_slice(alloc, text) {
        Ok(value) => Ok(Some(value)),
        Err(fault) => {
            if fault.is_memory() {
                Err(NoMemory)
            } else {
                Ok(None)
            }
        }
    }
}
