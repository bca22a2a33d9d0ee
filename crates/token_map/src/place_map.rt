ghost use Rattle.std.specs.Prelude.{◌≡◌, ℕ, None, Some, OnOk, OnErr};
ghost use Rattle.std.specs.Bool.{if◌then◌else◌};
ghost use Rattle.token_rule.specs.Rule.{kind_byte};
ghost use Rattle.token_map.specs.PlaceMaps.{place_at, is_at};

use acra_base::{NoMemory, ValueKind};
use std::alloc::Global;
use std::collections::BTreeMap;
use token_rule::kind_byte;

/// A token of a kind.
#[derive(Clone, Copy, PartialEq, Eq, PartialOrd, Ord, Drop)]
pub struct Slot {
    kind: u8,
    token: u64,
}

fn slot_of(kind: ValueKind, token: u64) -> Slot
    ensures { result ≡ record { kind = kind_byte kind; token = token } }
{
    Slot {
        kind: kind_byte(kind),
        token,
    }
}

/// The places of the entries in their list, by the tokens.
#[derive(Drop)]
pub struct PlaceMap {
    places: BTreeMap<Slot, usize>,
}

impl PlaceMap {
    /// No places. It takes no memory.
    pub fn new(alloc: Global) -> PlaceMap
        ensures { (kind token : ℕ) → place_at result kind token ≡ None }
    {
        PlaceMap {
            places: BTreeMap::new(alloc),
        }
    }

    /// The place of a token's entry.
    pub fn get(&self, kind: ValueKind, token: u64) -> Option<usize>
        ensures { result ≡ place_at self.now (kind_byte kind) token }
    {
        self.places.get(&slot_of(kind, token)).copied()
    }

    /// Takes in the place of a new token's entry. Without memory what is found stays.
    pub fn put(&mut self, kind: ValueKind, token: u64, place: usize) -> Result<(), NoMemory>
        ensures ok { OnOk result ((k t : ℕ) → place_at self.new k t ≡ (if is_at kind token k t then Some place else place_at self.old k t)) }
        ensures err { OnErr result ((k t : ℕ) → place_at self.new k t ≡ place_at self.old k t) }
    {
        self.places.insert(slot_of(kind, token), place)?;
        Ok(())
    }

    /// Forgets the place of a token's entry.
    pub fn take_out(&mut self, kind: ValueKind, token: u64)
        ensures { (k t : ℕ) → place_at self.new k t ≡ (if is_at kind token k t then None else place_at self.old k t) }
    {
        self.places.remove(&slot_of(kind, token));
    }
}
