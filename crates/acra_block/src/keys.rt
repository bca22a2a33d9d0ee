ghost use Rattle.std.specs.Prelude.{◌≡◌, ◌≤◌, ℕ, List, MatchOption, option_map};
ghost use Rattle.acra_block.specs.Keys.{Key, key_of};

use acra_base::{ClientId, Sequence};
use std::marker::Model;

/// A client's current key, under which its values are sealed. Its id is at least 1.
#[derive(Drop)]
pub struct OwnerKey {
    owner: ClientId,
    id: u64,
    key: [u8; 32],
    search: [u8; 32],
}

impl Model for OwnerKey {
    ghost use Rattle.std.specs.Prelude.{◌≤◌};
    ghost use Rattle.acra_block.specs.Keys.{Key};

    ghost Value = { Key };

    ghost view = { λ k. record { owner = k.owner; id = k.id; key = k.key; search = k.search } };

    ghost invariant = { λ k. 1 ≤ k.id };
}

impl OwnerKey {
    /// The key of this owner: its id, the key of its containers, and the key of its blind indexes.
    pub fn new(owner: ClientId, id: u64, key: [u8; 32], search: [u8; 32]) -> OwnerKey
        requires { 1 ≤ id }
        ensures { result ≡ record { owner = owner; id = id; key = key; search = search } }
    {
        OwnerKey {
            owner,
            id,
            key,
            search,
        }
    }

    /// The client whose key it is.
    pub fn owner(&self) -> &ClientId
        ensures { result.now ≡ self.now.owner }
    {
        &self.owner
    }

    /// The key's id.
    pub fn id(&self) -> u64
        ensures value { result ≡ self.now.id }
        ensures least { 1 ≤ result }
    {
        self.id
    }

    /// The key of the owner's containers.
    pub fn key(&self) -> &[u8; 32]
        ensures { result.now ≡ self.now.key }
    {
        &self.key
    }

    /// The key of the owner's blind indexes.
    pub fn search(&self) -> &[u8; 32]
        ensures { result.now ≡ self.now.search }
    {
        &self.search
    }
}

/// A key by which a client's cells can be opened.
#[derive(Drop)]
pub struct LiveKey {
    /// The key's id.
    pub id: u64,
    /// The key.
    pub key: [u8; 32],
}

/// A client's keys at a moment.
#[derive(Drop)]
pub struct KeyView {
    /// The client.
    pub who: ClientId,
    /// What the next key's id will be, of any client: each id that was given out is below it.
    pub next_id: u64,
    /// The client's keys by which cells can be opened.
    pub keys: Sequence<LiveKey>,
}

impl KeyView {
    /// The client's key of this id, the first of that id.
    pub fn find(&self, id: u64) -> Option<&[u8; 32]>
        ensures { option_map (λ k. k.now) result ≡ key_of id self.now.keys }
    {
        'keys: for key in self.keys.as_slice() {
            if key.id == id {
                return Some(&key.key);
            }
        }
        None
    }
}
