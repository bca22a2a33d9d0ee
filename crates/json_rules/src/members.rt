//! Reading members of a JSON value.
ghost use Rattle.std.specs.Prelude.{◌≡◌, IfOk, map, unwrap_or, string_bytes};
ghost use Rattle.std.specs.List.{list_all};
ghost use Rattle.serde_json.specs.View.{view, members_view};
ghost use Rattle.serde_json.specs.Find.{as_object, as_str};
ghost use Rattle.json_rules.specs.Members.{text_at, flag_at, count_at, items_at, members_at, plain_text, all_members, is_text, all_members_texts};

use acra_base::{Bytes, NoMemory, Sequence};
use serde_json::{Map, Value};
use std::alloc::Global;

/// The text at a member's name.
pub fn text_at(alloc: Global, value: &Value, name: &str) -> Result<Option<Bytes>, NoMemory>
    ensures { IfOk result (λ o. o ≡ text_at name.now (view value.now)) }
{
    match value.get(name).and_then(Value::as_str) {
        Some(text) => Ok(Some(Bytes::copied(alloc, text.as_bytes())?)),
        None => Ok(None),
    }
}

/// The flag at a member's name.
pub fn flag_at(value: &Value, name: &str) -> Option<bool>
    ensures { result ≡ flag_at name.now (view value.now) }
{
    value.get(name).and_then(Value::as_bool)
}

/// The number at a member's name.
pub fn count_at(value: &Value, name: &str) -> Option<u64>
    ensures { result ≡ count_at name.now (view value.now) }
{
    value.get(name).and_then(Value::as_u64)
}

/// The items of the array at a member's name.
pub fn items_at<'a>(value: &'a Value, name: &str) -> &'a [Value]
    ensures { map view result.now ≡ items_at name.now (view value.now) }
{
    match value.get(name).and_then(Value::as_array) {
        Some(items) => items,
        None => &[],
    }
}

/// The text that a value is.
pub fn plain_text(alloc: Global, value: &Value) -> Result<Bytes, NoMemory>
    ensures { IfOk result (λ t. t ≡ plain_text (view value.now)) }
{
    Bytes::copied(alloc, value.as_str().unwrap_or("").as_bytes())
}

/// The texts of the array at a member's name.
pub fn texts_at(alloc: Global, value: &Value, name: &str) -> Result<Sequence<Bytes>, NoMemory>
    ensures { IfOk result (λ t. t ≡ map plain_text (items_at name.now (view value.now))) }
{
    let items = items_at(value, name);
    let mut texts = Vec::new(alloc);
    'each: for item in items {
        texts.push(plain_text(alloc, item)?)?;
    }
    Ok(Sequence::from_vec(texts))
}

/// Whether each value is a text.
pub fn all_texts(items: &[Value]) -> bool
    ensures { result ≡ list_all is_text (map view items.now) }
{
    'each: for item in items {
        if !item.is_string() {
            return false;
        }
    }
    true
}

/// Whether each member of an object is a text.
pub fn all_members_texts(members: &Map<String, Value>) -> bool
    ensures { result ≡ all_members_texts (members_view members.now.entries) }
{
    'each: for (_name, value) in members.iter() {
        if !value.is_string() {
            return false;
        }
    }
    true
}
