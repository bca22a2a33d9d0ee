//! What the text of settings says, before any rule but the first is tested.
ghost use Rattle.std.specs.Prelude.{◌≡◌, ◌++◌, ◌∷◌, [], IfOk, OnOk, map, codes, length};
ghost use Rattle.censor.specs.declared.handler.Handler.{Handler as AHandler};
ghost use Rattle.serde_json.specs.View.{view, members_view};
ghost use Rattle.json_rules.specs.Members.{all_members, items_at};
ghost use Rattle.censor.specs.Settings.{word_of, handler_word, is_list_name, is_member, is_handler, has_lists, AreEntries, IsHandler, AreHandlers};
ghost use Rattle.censor.specs.Reads.{HasHandlers};

use crate::entries::{List, push_entries};
use crate::handler::{Entry, Handler, Word};
use acra_base::{NoMemory, Sequence};
use json_rules::{items_at, objects_at, read_json};
use serde_json::{Map, Value};
use std::alloc::Global;

fn word_of(text: &str) -> Option<Word>
    ensures { result ≡ word_of text.now }
{
    if text == "allow" {
        return Some(Word::Allow);
    }
    if text == "deny" {
        return Some(Word::Deny);
    }
    if text == "allowall" {
        return Some(Word::AllowAll);
    }
    if text == "denyall" {
        return Some(Word::DenyAll);
    }
    None
}

fn handler_word(value: &Value) -> Option<Word>
    ensures { result ≡ handler_word (view value.now) }
{
    match value.get("handler").and_then(Value::as_str) {
        Some(text) => word_of(text),
        None => None,
    }
}

fn is_list_name(name: &str) -> bool
    ensures { result ≡ is_list_name name.now }
{
    name == "queries" || name == "tables" || name == "patterns"
}

fn is_word(value: &Value) -> bool
    ensures { result ≡ is_member (codes "handler") (view value.now) }
{
    match value.as_str() {
        Some(text) => word_of(text).is_some(),
        None => false,
    }
}

fn is_member(name: &str, value: &Value) -> bool
    ensures { result ≡ is_member name.now (view value.now) }
{
    if name == "handler" {
        is_word(value)
    } else {
        is_list_name(name) && value.is_array()
    }
}

fn are_members(members: &Map<String, Value>) -> bool
    ensures { result ≡ all_members is_member (members_view members.now.entries) }
{
    'each: for (name, value) in members.iter() {
        if !is_member(name.as_str(), value) {
            return false;
        }
    }
    true
}

fn is_handler(value: &Value) -> bool
    ensures { result ≡ is_handler (view value.now) }
{
    match value.as_object() {
        Some(members) => are_members(members) && value.get("handler").is_some(),
        None => value.get("handler").is_some(),
    }
}

fn has_lists(value: &Value) -> bool
    ensures { result ≡ has_lists (view value.now) }
{
    value.get("queries").is_some()
        || value.get("tables").is_some()
        || value.get("patterns").is_some()
}

fn entries_of(alloc: Global, value: &Value) -> Result<Sequence<Entry>, NoMemory>
    ensures { IfOk result (λ es. AreEntries (view value.now) es) }
{
    let mut entries = Vec::new(alloc);
    push_entries(
        alloc,
        List::Queries,
        items_at(value, "queries"),
        &mut entries,
    )?;
    push_entries(alloc, List::Tables, items_at(value, "tables"), &mut entries)?;
    push_entries(
        alloc,
        List::Patterns,
        items_at(value, "patterns"),
        &mut entries,
    )?;
    Ok(Sequence::from_vec(entries))
}

fn handler_of(alloc: Global, value: &Value) -> Result<Handler, NoMemory>
    ensures { IfOk result (λ h. IsHandler (view value.now) h) }
{
    Ok(Handler {
        is_well_typed: is_handler(value),
        word: handler_word(value),
        has_lists: has_lists(value),
        queries: items_at(value, "queries").len(),
        tables: items_at(value, "tables").len(),
        entries: entries_of(alloc, value)?,
    })
}

fn push_handler(alloc: Global, value: &Value, handlers: &mut Vec<Handler>) -> Result<(), NoMemory>
    ensures { OnOk result ((h : AHandler) × (handlers.new.items ≡ handlers.old.items ++ h ∷ []) × IsHandler (view value.now) h) }
{
    let handler = handler_of(alloc, value)?;
    handlers.push(handler)?;
    Ok(())
}

fn handlers_of(alloc: Global, items: &[Value]) -> Result<Sequence<Handler>, NoMemory>
    ensures { IfOk result (λ hs. AreHandlers (map view items.now) hs) }
{
    let mut handlers = Vec::new(alloc);
    'each: for item in items {
        push_handler(alloc, item, &mut handlers)?;
    }
    Ok(Sequence::from_vec(handlers))
}

/// What the handlers of a text say; none where the text is not JSON or its top is another.
pub(crate) fn read_handlers(
    alloc: Global,
    text: &[u8],
) -> Result<Option<Sequence<Handler>>, NoMemory>
    ensures { IfOk result (λ hs. HasHandlers text.now hs) }
{
    let Some(value) = read_json(alloc, text)? else {
        return Ok(None);
    };
    match objects_at(&value, "handlers") {
        Some(items) => Ok(Some(handlers_of(alloc, items)?)),
        None => Ok(None),
    }
}
