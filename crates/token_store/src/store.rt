ghost use Rattle.std.specs.Prelude.{◌≡◌, ◌≤◌, ◌<◌, ◌↔◌, ℕ, [], ◌∷◌, ◌++◌, List, length, Some, None, IfOk, OnOk, OnErr, IsErrOf, IsTrue, Err, option_map};
ghost use Rattle.acra_devices.specs.Causes.{Rose};
ghost use Rattle.acra_devices.specs.Pieces.{Added, Stayed};
ghost use Rattle.token_rule.specs.Entries.{entry_of, standing_token};
ghost use Rattle.token_records.specs.Records.{token_record};
ghost use Rattle.token_store.specs.Stores.{standing_in, Makes};
ghost use Rattle.token_store.specs.Loading.{IsNextRecord};

use crate::refusals::TokenRefusal;
use crate::value::TokenValue;
use acra_base::ValueKind;
use acra_crypto::Aead;
use acra_devices::Keeper;
use std::alloc::Global;
use std::marker::Model;
use token_map::TokenMap;
use token_records::push_record;
use token_rule::{TokenWant, token_start};

/// The tokens that were made, and the keys under which they are made and kept.
#[derive(Drop)]
pub struct Tokens {
    pub(crate) token_key: [u8; 32],
    pub(crate) store_key: [u8; 32],
    limit: u32,
    pub(crate) map: TokenMap,
}

impl Model for Tokens {
    ghost use Rattle.std.specs.Prelude.{◌≤◌, length};
    ghost use Rattle.token_store.specs.Stores.{Store};

    ghost Value = { Store };

    ghost view = { λ t. record { token_key = t.token_key; store_key = t.store_key; limit = t.limit; entries = t.map } };

    ghost invariant = { λ t. length t.map ≤ t.limit };
}

impl Tokens {
    /// No tokens yet, and at most so many. It takes no memory.
    pub fn new(alloc: Global, token_key: [u8; 32], store_key: [u8; 32], limit: u32) -> Tokens
        ensures { result ≡ record { token_key = token_key; store_key = store_key; limit = limit; entries = [] } }
    {
        Tokens {
            token_key,
            store_key,
            limit,
            map: TokenMap::new(alloc),
        }
    }

    /// Whether there are as many tokens as there may be.
    pub(crate) fn is_full(&self) -> bool
        ensures { IsTrue result ↔ (length self.now.entries ≡ self.now.limit) }
    {
        self.map.len() >= self.limit as usize
    }

    /// The token that a value has already, where equal values share one.
    pub(crate) fn standing(&self, want: &TokenWant) -> Option<u64>
        ensures { result ≡ standing_in self.now want.now }
    {
        if want.is_consistent() {
            self.map.standing(want)
        } else {
            None
        }
    }

    /// The token of a value: the one that it has already, where equal values share one, or else the next one by
    /// the rule, whose record is kept first. The 12 drawn bytes are the nonce of the record's seal.
    pub fn token<A: Aead, K: Keeper>(
        &mut self,
        alloc: Global,
        aead: &A,
        keeper: &mut K,
        want: &TokenWant,
        draws: &[u8; 12],
    ) -> Result<u64, TokenRefusal>
        ensures standing { (token : ℕ) → standing_in self.old want.now ≡ Some token → (result ≡ Ok token) × (self.new ≡ self.old) × (keeper.new ≡ keeper.old) }
        ensures made { standing_in self.old want.now ≡ None → IfOk result (λ token. Makes self.old self.new want.now token) }
        ensures kept { standing_in self.old want.now ≡ None → IfOk result (λ token. Added (K.kept keeper.old) (K.kept keeper.new) (token_record (A.sealed aead.now) self.old.store_key draws.now want.now (length self.old.entries) token)) }
        ensures recorded { standing_in self.old want.now ≡ None → IfOk result (λ token. IsNextRecord (A.sealed aead.now) self.old self.new (token_record (A.sealed aead.now) self.old.store_key draws.now want.now (length self.old.entries) token)) }
        ensures full { (result ≡ Err TokenRefusal.Full) ↔ ((standing_in self.old want.now ≡ None) × (length self.old.entries ≡ self.old.limit)) }
        ensures err { OnErr result ((self.new ≡ self.old) × Stayed (K.kept keeper.old) (K.kept keeper.new)) }
        ensures untouched { (IsErrOf result TokenRefusal.Full → keeper.new ≡ keeper.old) × (IsErrOf result TokenRefusal.NoMemory → keeper.new ≡ keeper.old) }
        ensures later { K.keeper_faults keeper.old ≤ K.keeper_faults keeper.new }
        ensures stayed { OnOk result (K.keeper_faults keeper.new ≡ K.keeper_faults keeper.old) }
        ensures keeper_fault { IsErrOf result TokenRefusal.KeeperFault → Rose (K.keeper_faults keeper.old) (K.keeper_faults keeper.new) }
    {
        if let Some(token) = self.standing(want) {
            return Ok(token);
        }
        if self.is_full() {
            return Err(TokenRefusal::Full);
        }
        let serial = self.map.len() as u64;
        let start = token_start(&self.token_key, want, serial);
        let token = self.map.free_number(want.kind(), start);
        let mut record = Vec::new(alloc);
        push_record(
            alloc,
            aead,
            &self.store_key,
            want,
            serial,
            token,
            draws,
            &mut record,
        )?;
        self.map.add(want.copied(alloc)?, token)?;
        match keeper.append(&record) {
            Ok(()) => Ok(token),
            Err(_) => {
                self.map.remove_last();
                Err(TokenRefusal::KeeperFault)
            }
        }
    }

    /// What a token stands for, `None` exactly where the store hasn't it. It takes no memory.
    pub fn value_of(&self, kind: ValueKind, token: u64) -> Option<TokenValue<'_>>
        ensures owner { option_map (λ v. v.owner.now) result ≡ option_map (λ e. e.want.owner) (entry_of self.now.entries kind token) }
        ensures plain { option_map (λ v. v.plain.now) result ≡ option_map (λ e. e.want.plain) (entry_of self.now.entries kind token) }
    {
        match self.map.entry(kind, token) {
            Some(entry) => Some(TokenValue {
                owner: entry.want().owner(),
                plain: entry.want().plain(),
            }),
            None => None,
        }
    }
}
