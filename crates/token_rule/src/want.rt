ghost use Rattle.std.specs.Prelude.{◌≡◌, IfOk};
ghost use Rattle.acra_base.specs.Client.{IsClientId};
ghost use Rattle.token_rule.specs.Rule.{IsTokenValue, IsWant};

use acra_base::{Bytes, ClientId, NoMemory, ValueKind};
use std::alloc::Global;
use std::marker::Model;

/// A value of an owner that wants a token: its plaintext is canonical for its kind, and has at most 256 bytes.
#[derive(Drop)]
pub struct TokenWant {
    kind: ValueKind,
    owner: ClientId,
    plain: Bytes,
    consistent: bool,
}

impl Model for TokenWant {
    ghost use Rattle.token_rule.specs.Rule.{Want, IsTokenValue};

    ghost Value = { Want };

    ghost view = { λ w. record { kind = w.kind; owner = w.owner; plain = w.plain; consistent = w.consistent } };

    ghost invariant = { λ w. IsTokenValue w.kind w.plain };
}

impl TokenWant {
    /// A value of this owner. Where it is consistent, equal values of one kind and owner share a token.
    pub fn new(kind: ValueKind, owner: ClientId, plain: Bytes, consistent: bool) -> TokenWant
        requires { IsTokenValue kind plain }
        ensures { result ≡ record { kind = kind; owner = owner; plain = plain; consistent = consistent } }
    {
        TokenWant {
            kind,
            owner,
            plain,
            consistent,
        }
    }

    /// The kind of the value.
    pub fn kind(&self) -> ValueKind
        ensures { result ≡ self.now.kind }
    {
        self.kind
    }

    /// Whose value it is.
    pub fn owner(&self) -> &ClientId
        ensures { result.now ≡ self.now.owner }
    {
        &self.owner
    }

    /// The value's plaintext.
    pub fn plain(&self) -> &[u8]
        ensures value { result.now ≡ self.now.plain }
        ensures is { IsWant self.now }
    {
        self.owner.is_spelled();
        self.plain.as_slice()
    }

    /// Whether equal values share a token.
    pub fn is_consistent(&self) -> bool
        ensures { result ≡ self.now.consistent }
    {
        self.consistent
    }

    /// The same.
    pub fn copied(&self, alloc: Global) -> Result<TokenWant, NoMemory>
        ensures { IfOk result (λ copy. copy ≡ self.now) }
    {
        Ok(TokenWant {
            kind: self.kind,
            owner: self.owner,
            plain: Bytes::copied(alloc, self.plain.as_slice())?,
            consistent: self.consistent,
        })
    }
}
