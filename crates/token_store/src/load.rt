ghost use Rattle.std.specs.Prelude.{◌≡◌, ℕ, [], IfOk, IsErrOf};
ghost use Rattle.token_store.specs.Loading.{Loads, IsBadAt, Takes};
ghost use Rattle.token_store.specs.declared.refusals.LoadRefusal.TheVariants as refusals;

use crate::refusals::LoadRefusal;
use crate::store::Tokens;
use acra_base::{Bytes, NoMemory};
use acra_crypto::Aead;
use std::alloc::Global;
use token_records::{Record, read_record};
use token_rule::token_start;

impl Tokens {
    // Takes the token of the next record, where it is the one that the rule gives.
    fn take<A: Aead>(&mut self, alloc: Global, aead: &A, piece: &[u8]) -> Result<bool, NoMemory>
        ensures { IfOk result (λ taken. Takes (A.sealed aead.now) self.old self.new piece.now taken) }
    {
        let Some(record) = read_record(alloc, aead, &self.store_key, piece)? else {
            return Ok(false);
        };
        let Record {
            want,
            serial,
            token,
        } = record;
        if self.is_full() || self.standing(&want).is_some() || serial != self.map.len() as u64 {
            return Ok(false);
        }
        let start = token_start(&self.token_key, &want, serial);
        if self.map.free_number(want.kind(), start) != token {
            return Ok(false);
        }
        self.map.add(want, token)?;
        Ok(true)
    }

    /// The store that these records spell, each of them the one that the rule gives behind those before it.
    pub fn load<A: Aead>(
        alloc: Global,
        aead: &A,
        token_key: [u8; 32],
        store_key: [u8; 32],
        limit: u32,
        pieces: &[Bytes],
    ) -> Result<Tokens, LoadRefusal>
        ensures loaded { IfOk result (λ tokens. Loads (A.sealed aead.now) (record { token_key = token_key; store_key = store_key; limit = limit; entries = [] }) pieces.now tokens) }
        ensures bad { (index : ℕ) → IsErrOf result (refusals.BadRecord index) → IsBadAt (A.sealed aead.now) (record { token_key = token_key; store_key = store_key; limit = limit; entries = [] }) pieces.now index }
    {
        let mut tokens = Tokens::new(alloc, token_key, store_key, limit);
        for index in 0..pieces.len() {
            if !tokens.take(alloc, aead, pieces[index].as_slice())? {
                return Err(LoadRefusal::BadRecord { index });
            }
        }
        Ok(tokens)
    }
}
