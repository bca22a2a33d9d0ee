ghost use Rattle.std.specs.Prelude.{◌≡◌, IfOk, IfSome, option_copied};
ghost use Rattle.token_rule.specs.Rule.{IsTokenValue};
ghost use Rattle.token_store.specs.Knowing.{known_of};

use crate::store::Tokens;
use acra_base::{Bytes, ClientId, NoMemory, ValueKind};
use std::alloc::Global;
use std::marker::Model;

/// What a store told of a token, to be kept.
#[derive(Drop)]
pub struct KnownToken {
    kind: ValueKind,
    token: u64,
    owner: Option<ClientId>,
    plain: Bytes,
}

impl Model for KnownToken {
    ghost use Rattle.std.specs.Prelude.{IfSome};
    ghost use Rattle.token_rule.specs.Rule.{IsTokenValue};
    ghost use Rattle.token_store.specs.Knowing.{Known};

    ghost Value = { Known };

    ghost view = { λ k. record { kind = k.kind; token = k.token; owner = k.owner; plain = k.plain } };

    ghost invariant = { λ k. IfSome k.owner (λ _. IsTokenValue k.kind k.plain) };
}

impl KnownToken {
    /// The kind of the column in which the token stood.
    pub fn kind(&self) -> ValueKind
        ensures { result ≡ self.now.kind }
    {
        self.kind
    }

    /// The token.
    pub fn token(&self) -> u64
        ensures { result ≡ self.now.token }
    {
        self.token
    }

    /// Whose value it stands for, `None` where the store hadn't the token.
    pub fn owner(&self) -> Option<&ClientId>
        ensures { option_copied result ≡ self.now.owner }
    {
        self.owner.as_ref()
    }

    /// The value's plaintext, canonical for the kind and at most 256 bytes; empty where the store hadn't the token.
    pub fn plain(&self) -> &[u8]
        ensures value { result.now ≡ self.now.plain }
        ensures is { IfSome self.now.owner (λ _. IsTokenValue self.now.kind self.now.plain) }
    {
        self.plain.as_slice()
    }
}

impl Tokens {
    /// What a token stands for, copied.
    pub fn known(&self, alloc: Global, kind: ValueKind, token: u64) -> Result<KnownToken, NoMemory>
        ensures { IfOk result (λ known. known ≡ known_of self.now kind token) }
    {
        match self.map.entry(kind, token) {
            Some(entry) => {
                let want = entry.want();
                Ok(KnownToken {
                    kind,
                    token,
                    plain: Bytes::copied(alloc, want.plain())?,
                    owner: Some(*want.owner()),
                })
            }
            None => Ok(KnownToken {
                kind,
                token,
                owner: None,
                plain: Bytes::new(alloc),
            }),
        }
    }
}
