//! The clients that the entries of a text name.
ghost use Rattle.std.specs.Prelude.{◌≡◌, ◌<◌, ◌≤◌, ℕ, IfOk, OnOk, Option, Some, None, false, true, take, length, List, []};
ghost use Rattle.enc_config.specs.Words.{is_client_id};
ghost use Rattle.enc_config.specs.Clients.{seen_with, seen_entries, seen_schemas, is_bad_client, has_bad_client, client_at};
ghost use Rattle.enc_config.specs.FoundClients.{FirstClient, FirstOfClients};
ghost use Rattle.enc_config.specs.Rules.{client_breaks};

use crate::texts::{EntryText, SchemaText};
use crate::words::is_among;
use acra_base::{Bytes, ClientId, NoMemory};
use json_rules::Place;
use std::alloc::Global;

/// Whether some bytes are a client's name.
fn is_client_id(text: &[u8]) -> bool
    ensures { result ≡ is_client_id text.now }
{
    match ClientId::read(text) {
        Ok(_) => true,
        Err(_) => false,
    }
}

fn is_bad_client(seen: &[Bytes], text: &[u8]) -> bool
    ensures { result ≡ is_bad_client seen.now text.now }
{
    !is_client_id(text) || (!is_among(text, seen) && seen.len() == 255)
}

fn has_bad_client(seen: &[Bytes], entry: &EntryText) -> bool
    ensures { result ≡ has_bad_client seen.now entry.now }
{
    match &entry.client_id {
        Some(text) => is_bad_client(seen, text.as_slice()),
        None => false,
    }
}

/// Adds an entry's client to those seen.
fn see(alloc: Global, seen: &mut Vec<Bytes>, client: &Option<Bytes>) -> Result<(), NoMemory>
    ensures { OnOk result (seen.new.items ≡ seen_with seen.old.items client.now) }
{
    match client {
        Some(text) => {
            if !is_among(text.as_slice(), seen) {
                seen.push(Bytes::copied(alloc, text.as_slice())?)?;
            }
            Ok(())
        }
        None => Ok(()),
    }
}

/// The first entry of a schema whose client breaks the rule; without one, its clients are seen.
fn first_client_in(
    alloc: Global,
    seen: &mut Vec<Bytes>,
    entries: &[EntryText],
) -> Result<Option<usize>, NoMemory>
    ensures { IfOk result (λ found. FirstClient seen.old.items entries.now seen.new.items found) }
{
    'each: for entry in 0..entries.len() {
        let text = &entries[entry];
        if has_bad_client(seen, text) {
            return Ok(Some(entry));
        }
        see(alloc, seen, &text.client_id)?;
    }
    Ok(None)
}

/// The first place whose client breaks the rule.
pub(crate) fn first_client(alloc: Global, schemas: &[SchemaText]) -> Result<Option<Place>, NoMemory>
    ensures { IfOk result (λ found. FirstOfClients schemas.now found) }
{
    let mut seen = Vec::new(alloc);
    'each: for schema in 0..schemas.len() {
        let found = first_client_in(alloc, &mut seen, schemas[schema].entries.as_slice())?;
        if let Some(entry) = found {
            return Ok(Some(Place::Entry {
                part: schema,
                entry,
            }));
        }
    }
    Ok(None)
}
