ghost use Rattle.std.specs.Prelude.{◌≡◌, ℕ, List, None, Some, OnOk, OnErr, true};
ghost use Rattle.std.specs.Bool.{if◌then◌else◌};
ghost use Rattle.token_map.specs.Index.{value_key, has_key};
ghost use Rattle.token_map.specs.ValueMaps.{token_at};

use crate::key::ValueKey;
use acra_base::NoMemory;
use std::alloc::Global;
use std::collections::BTreeMap;
use token_rule::TokenWant;

/// The tokens of the consistent values, by the values' keys.
#[derive(Drop)]
pub struct ValueMap {
    alloc: Global,
    tokens: BTreeMap<Vec<u8>, u64>,
}

impl ValueMap {
    /// No tokens. It takes no memory.
    pub fn new(alloc: Global) -> ValueMap
        ensures { (key : List ℕ) → token_at result key ≡ None }
    {
        ValueMap {
            alloc,
            tokens: BTreeMap::new(alloc),
        }
    }

    /// The token under a value's key. It takes no memory.
    pub fn get(&self, want: &TokenWant) -> Option<u64>
        ensures { result ≡ token_at self.now (value_key want.now) }
    {
        let key = ValueKey::new(want);
        self.tokens.get(key.as_slice()).copied()
    }

    /// Takes in the token of a value, if it is a consistent one. Without memory what is found stays.
    pub fn put(&mut self, want: &TokenWant, token: u64) -> Result<(), NoMemory>
        ensures ok { OnOk result ((key : List ℕ) → token_at self.new key ≡ (if has_key key want.now then Some token else token_at self.old key)) }
        ensures err { OnErr result ((key : List ℕ) → token_at self.new key ≡ token_at self.old key) }
    {
        if !want.is_consistent() {
            return Ok(());
        }
        let key = ValueKey::new(want);
        let key = Vec::from_slice(self.alloc, key.as_slice())?;
        self.tokens.insert(key, token)?;
        Ok(())
    }

    /// Forgets the token of a value, if it is a consistent one.
    pub fn take_out(&mut self, want: &TokenWant)
        ensures { (key : List ℕ) → token_at self.new key ≡ (if has_key key want.now then None else token_at self.old key) }
    {
        if !want.is_consistent() {
            return;
        }
        let key = ValueKey::new(want);
        self.tokens.remove(key.as_slice());
    }
}
