ghost use Rattle.std.specs.Prelude.{◌≡◌, ◌≤◌, ◌-◌, [], length, Option, Some, None, if◌then◌else◌, IfOk};
ghost use Rattle.std.specs.List.{AllByRecursion, list_all};
ghost use Rattle.acra_base.specs.Client.{is_id_byte};
ghost use Rattle.keystore.specs.Lists.{AscendsBy};
ghost use Rattle.keystore.specs.Kept.{IsOlder};
ghost use Rattle.ring_file.specs.Reading.{comes_after, last_of, name_at, old_key_at, old_keys_at, keys_at, client_at, clients_at};
ghost use Rattle.byte_reader.specs.Readers.{Gives};

use crate::fields::{current_of, key_count_of, name_length_of, old_phase_of};
use crate::ids::id_of;
use acra_base::ClientId;
use byte_reader::{Unread, array_of};
use keystore::{Client, OldKey};
use std::alloc::Global;
use std::cmp::Ordering;

/// The client's name that these bytes are.
fn id_text(text: &[u8]) -> Option<ClientId>
    requires least { 1 ≤ length text.now }
    requires most { length text.now ≤ 64 }
    ensures { result ≡ (if list_all is_id_byte text.now then Some text.now else None) }
{
    match ClientId::read(text) {
        Ok(name) => Some(name),
        Err(_) => None,
    }
}

/// Whether a name comes after those of these clients, of which the last is the greatest.
fn comes_after(clients: &[Client], name: &ClientId) -> bool
    ensures { result ≡ comes_after (last_of clients.now) name.now }
{
    match clients.last() {
        Some(last) => last.compare(name) == Ordering::Less,
        None => true,
    }
}

/// Reads a name of this length behind these clients.
fn name_of<'a>(clients: &[Client], len: u8, bytes: &'a [u8]) -> Result<(ClientId, &'a [u8]), Unread>
    requires least { 1 ≤ len }
    requires most { len ≤ 64 }
    ensures { Gives (λ x. (x.0, x.1.now)) result (name_at clients.now len bytes.now) }
{
    let fault = Unread::At { left: bytes.len() };
    if bytes.len() < usize::from(len) {
        return Err(fault);
    }
    let (front, rest) = bytes.split_at(usize::from(len));
    match id_text(front) {
        None => Err(fault),
        Some(name) => {
            if comes_after(clients, &name) {
                Ok((name, rest))
            } else {
                Err(fault)
            }
        }
    }
}

/// Reads a key that isn't its client's last.
#[tactic(auto, unfolding(crate::specs::Reading::old_key_at))]
fn old_key_of<'a>(
    next: u64,
    clients: &[Client],
    past: &[OldKey],
    bytes: &'a [u8],
) -> Result<(OldKey, &'a [u8]), Unread>
    requires { AllByRecursion (λ c. AscendsBy IsOlder c.past) clients.now }
    ensures { Gives (λ x. (x.0, x.1.now)) result (old_key_at next clients.now past.now bytes.now) }
{
    let (id, rest) = id_of(next, clients, past, bytes)?;
    let (phase, rest) = old_phase_of(rest)?;
    let (key, rest) = array_of(rest)?;
    Ok((OldKey { id, key, phase }, rest))
}

/// Reads so many of them.
fn old_keys_of<'a>(
    alloc: Global,
    next: u64,
    clients: &[Client],
    count: u16,
    bytes: &'a [u8],
) -> Result<(Vec<OldKey>, &'a [u8]), Unread>
    requires { AllByRecursion (λ c. AscendsBy IsOlder c.past) clients.now }
    ensures { Gives (λ x. (x.0.items, x.1.now)) result (old_keys_at next clients.now count [] bytes.now) }
{
    let mut past = Vec::new(alloc);
    let mut rest = bytes;
    'keys: for _ in 0..count {
        match old_key_of(next, clients, &past, rest) {
            Ok((key, after)) => {
                past.push(key)?;
                rest = after;
            }
            Err(why) => return Err(why),
        }
    }
    Ok((past, rest))
}

/// Reads the keys of a client of this name.
#[tactic(auto, unfolding(crate::specs::Reading::keys_at))]
fn keys_of<'a>(
    alloc: Global,
    next: u64,
    clients: &[Client],
    name: &ClientId,
    search: &[u8; 32],
    bytes: &'a [u8],
) -> Result<(Client, &'a [u8]), Unread>
    requires { AllByRecursion (λ c. AscendsBy IsOlder c.past) clients.now }
    ensures { Gives (λ x. (x.0, x.1.now)) result (keys_at next clients.now name.now search.now bytes.now) }
{
    let (count, rest) = key_count_of(bytes)?;
    let (past, rest) = old_keys_of(alloc, next, clients, count - 1, rest)?;
    let (id, rest) = id_of(next, clients, &past, rest)?;
    let (_, rest) = current_of(rest)?;
    let (key, rest) = array_of(rest)?;
    Ok((Client::restored(*name, *search, past, id, key), rest))
}

/// Reads a client behind these.
#[tactic(auto, unfolding(crate::specs::Reading::client_at))]
fn client_of<'a>(
    alloc: Global,
    next: u64,
    clients: &[Client],
    bytes: &'a [u8],
) -> Result<(Client, &'a [u8]), Unread>
    requires { AllByRecursion (λ c. AscendsBy IsOlder c.past) clients.now }
    ensures { Gives (λ x. (x.0, x.1.now)) result (client_at next clients.now bytes.now) }
{
    let (len, rest) = name_length_of(bytes)?;
    match name_of(clients, len, rest) {
        Ok((name, rest)) => {
            let (search, rest) = array_of(rest)?;
            keys_of(alloc, next, clients, &name, &search, rest)
        }
        Err(why) => Err(why),
    }
}

/// Reads so many clients.
pub fn clients_of(
    alloc: Global,
    next: u64,
    count: u16,
    bytes: &[u8],
) -> Result<(Vec<Client>, &[u8]), Unread>
    ensures { Gives (λ x. (x.0.items, x.1.now)) result (clients_at next count [] bytes.now) }
{
    let mut clients = Vec::new(alloc);
    let mut rest = bytes;
    'clients: for _ in 0..count {
        match client_of(alloc, next, &clients, rest) {
            Ok((client, after)) => {
                clients.push(client)?;
                rest = after;
            }
            Err(why) => return Err(why),
        }
    }
    Ok((clients, rest))
}
