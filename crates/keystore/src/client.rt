ghost use Rattle.std.specs.Prelude.{◌≡◌, ◌++◌, ◌∷◌, [], ◌≤◌, length, IfOk, OnOk, OnErr, map};
ghost use Rattle.keystore.specs.Lists.{AscendsBy};
ghost use Rattle.keystore.specs.Kept.{IsOlder, has_id};
ghost use Rattle.keystore.specs.Rings.{name_cmp, current_key, live_keys, lines_of, phase_of, rotated, marked, without};

use crate::keys::KeyLine;
use crate::phase::{self, OldKey, OldPhase, Phase};
use acra_base::{ClientId, NoMemory, Sequence};
use acra_block::{LiveKey, OwnerKey};
use std::alloc::Global;
use std::cmp::Ordering;
use std::marker::Model;

/// A client with its keys: the current one, and those that were current, oldest first.
#[derive(Drop)]
pub struct Client {
    name: ClientId,
    search: [u8; 32],
    id: u64,
    key: [u8; 32],
    past: Vec<OldKey>,
}

impl Model for Client {
    ghost use Rattle.keystore.specs.Rings.{ClientKeys};

    ghost Value = { ClientKeys };

    ghost view = { λ c. record { name = c.name; search = c.search; id = c.id; key = c.key; past = c.past.items } };
}

impl Client {
    pub(crate) fn new(
        alloc: Global,
        name: ClientId,
        search: [u8; 32],
        id: u64,
        key: [u8; 32],
    ) -> Client
        ensures { result ≡ record { name = name; search = search; id = id; key = key; past = [] } }
    {
        Client {
            name,
            search,
            id,
            key,
            past: Vec::new(alloc),
        }
    }

    /// A client that was kept, with all its keys.
    pub fn restored(
        name: ClientId,
        search: [u8; 32],
        past: Vec<OldKey>,
        id: u64,
        key: [u8; 32],
    ) -> Client
        ensures { result ≡ record { name = name; search = search; id = id; key = key; past = past.items } }
    {
        Client {
            name,
            search,
            id,
            key,
            past,
        }
    }

    /// Its name.
    pub fn name(&self) -> &ClientId
        ensures { result.now ≡ self.now.name }
    {
        &self.name
    }

    /// The key of its blind indexes.
    pub fn search(&self) -> &[u8; 32]
        ensures { result.now ≡ self.now.search }
    {
        &self.search
    }

    /// The id of its current key.
    pub fn id(&self) -> u64
        ensures { result ≡ self.now.id }
    {
        self.id
    }

    /// Its current key.
    pub fn key(&self) -> &[u8; 32]
        ensures { result.now ≡ self.now.key }
    {
        &self.key
    }

    /// Its keys that were current, oldest first.
    pub fn past(&self) -> &[OldKey]
        ensures { result.now ≡ self.now.past }
    {
        &self.past
    }

    /// Whether it has a key of this id.
    pub fn has_key(&self, id: u64) -> bool
        requires { AscendsBy IsOlder self.now.past }
        ensures { result ≡ has_id id self.now }
    {
        self.id == id || phase::has_key(&self.past, id)
    }

    /// How its name stands to this one, by bytes.
    pub fn compare(&self, who: &ClientId) -> Ordering
        ensures { result ≡ name_cmp self.now.name who.now }
    {
        self.name.text().cmp(who.text())
    }

    /// How many keys it has that were current.
    pub(crate) fn past_keys(&self) -> usize
        ensures { result ≡ length self.now.past }
    {
        self.past.len()
    }

    pub(crate) fn current(&self) -> OwnerKey
        requires { 1 ≤ self.now.id }
        ensures { result ≡ current_key self.now }
    {
        OwnerKey::new(self.name, self.id, self.key, self.search)
    }

    pub(crate) fn live_keys(&self, alloc: Global) -> Result<Sequence<LiveKey>, NoMemory>
        ensures { IfOk result (λ keys. keys ≡ live_keys self.now) }
    {
        let mut keys = Vec::with_capacity(alloc, self.past.len() + 1)?;
        'old: for key in &self.past {
            keys.push(LiveKey {
                id: key.id,
                key: key.key,
            })?;
        }
        keys.push(LiveKey {
            id: self.id,
            key: self.key,
        })?;
        Ok(Sequence::from_vec(keys))
    }

    /// Makes the current key an old one that drains from this ticket on, and this key the current one.
    pub(crate) fn rotate(&mut self, id: u64, key: [u8; 32], ticket: u64) -> Result<(), NoMemory>
        ensures ok { OnOk result (self.new ≡ rotated id key ticket self.old) }
        ensures err { OnErr result (self.new ≡ self.old) }
    {
        self.past.push(OldKey {
            id: self.id,
            key: self.key,
            phase: OldPhase::Draining(ticket),
        })?;
        self.id = id;
        self.key = key;
        Ok(())
    }

    /// The phase of its key of this id.
    pub(crate) fn phase(&self, id: u64) -> Option<Phase>
        ensures { result ≡ phase_of id self.now }
    {
        if self.id == id {
            return Some(Phase::Current);
        }
        match phase::phase_in(&self.past, id) {
            Some(phase) => Some(phase.phase()),
            None => None,
        }
    }

    /// Its keys with the numbers of their phases, oldest first.
    pub(crate) fn lines(&self, alloc: Global) -> Result<Vec<KeyLine>, NoMemory>
        ensures { IfOk result (λ lines. lines.items ≡ lines_of self.now) }
    {
        let mut lines = Vec::with_capacity(alloc, self.past.len() + 1)?;
        'past: for key in &self.past {
            lines.push(KeyLine {
                id: key.id,
                phase: key.phase.number(),
            })?;
        }
        lines.push(KeyLine {
            id: self.id,
            phase: 0,
        })?;
        Ok(lines)
    }

    /// Makes its key of this id swept, where it drains.
    pub(crate) fn mark(&mut self, id: u64, ticket: u64)
        ensures { self.new ≡ marked id ticket self.old }
    {
        phase::mark(&mut self.past, id, ticket);
    }

    /// Takes away its key of this id, which isn't the current one.
    pub(crate) fn remove(&mut self, id: u64)
        ensures { self.new ≡ without id self.old }
    {
        phase::remove(&mut self.past, id);
    }
}
