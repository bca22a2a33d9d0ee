//! The entries of a handler's lists.
ghost use Rattle.std.specs.Prelude.{◌≡◌, IfOk, OnOk, map};
ghost use Rattle.serde_json.specs.View.{view};
ghost use Rattle.censor.specs.Settings.{IsText, IsQuery, IsPatternEntry, IsEntry, Puts, PutsOne};

use crate::handler::Entry;
use acra_base::{Bytes, NoMemory};
use serde_json::Value;
use sql_parser::{ParseFault, parse};
use sql_patterns::{MOST_TEXT, Query, read_pattern};
use std::alloc::Global;

/// One of a handler's lists.
#[derive(Clone, Copy, Debug, PartialEq, Eq)]
pub(crate) enum List {
    Queries,
    Tables,
    Patterns,
}

fn query(alloc: Global, text: &[u8]) -> Result<Entry, NoMemory>
    ensures { IfOk result (λ e. IsQuery text.now e) }
{
    match parse(alloc, text, MOST_TEXT) {
        Ok(statement) => Ok(Entry::Query(Query::new(statement))),
        Err(ParseFault::Refused(_)) => Ok(Entry::Unread),
        Err(ParseFault::NoMemory) => Err(NoMemory),
    }
}

fn pattern(alloc: Global, text: &[u8]) -> Result<Entry, NoMemory>
    ensures { IfOk result (λ e. IsPatternEntry text.now e) }
{
    match read_pattern(alloc, text) {
        Ok(Some(pattern)) => Ok(Entry::Pattern(pattern)),
        Ok(None) => Ok(Entry::Unread),
        Err(NoMemory) => Err(NoMemory),
    }
}

fn entry_of_text(alloc: Global, of: List, text: &[u8]) -> Result<Entry, NoMemory>
    ensures { IfOk result (λ e. IsText of text.now e) }
{
    match of {
        List::Queries => query(alloc, text),
        List::Tables => Ok(Entry::Table(Bytes::copied(alloc, text)?)),
        List::Patterns => pattern(alloc, text),
    }
}

fn entry(alloc: Global, of: List, item: &Value) -> Result<Entry, NoMemory>
    ensures { IfOk result (λ e. IsEntry of (view item.now) e) }
{
    match item.as_str() {
        Some(text) => entry_of_text(alloc, of, text.as_bytes()),
        None => Ok(Entry::NoText),
    }
}

fn push_entry(
    alloc: Global,
    of: List,
    item: &Value,
    entries: &mut Vec<Entry>,
) -> Result<(), NoMemory>
    ensures { OnOk result (PutsOne of (view item.now) entries.old.items entries.new.items) }
{
    let entry = entry(alloc, of, item)?;
    entries.push(entry)?;
    Ok(())
}

/// Puts the entries of a list behind those that stand.
pub(crate) fn push_entries(
    alloc: Global,
    of: List,
    items: &[Value],
    entries: &mut Vec<Entry>,
) -> Result<(), NoMemory>
    ensures { OnOk result (Puts of (map view items.now) entries.old.items entries.new.items) }
{
    'each: for item in items {
        push_entry(alloc, of, item, entries)?;
    }
    Ok(())
}
