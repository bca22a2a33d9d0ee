ghost use Rattle.std.specs.Prelude.{◌≡◌};

use acra_base::{ClientId, Sequence};
use acra_block::{KeyView, OwnerKey};
use std::marker::Model;

/// The first keys of a client.
#[derive(Clone, Copy)]
pub struct NewKeys {
    /// The key of its containers.
    pub key: [u8; 32],
    /// The key of its blind indexes, which stays for good.
    pub search: [u8; 32],
}

/// Keys that are lent under a ticket, until it is released or settled.
#[derive(Drop)]
pub struct Lease {
    /// The ticket, which is given once.
    pub ticket: u64,
    /// The live keys of the client who leases.
    pub view: KeyView,
    /// The current key of each owner that was asked for, in their order.
    pub currents: Sequence<OwnerKey>,
}

/// A key in a list of keys.
#[derive(Clone, Copy, Debug, PartialEq, Eq)]
pub struct KeyLine {
    /// The key's id.
    pub id: u64,
    /// 0 for the current key, 1 for one that drains, 2 for one that is swept.
    pub phase: u8,
}

/// A key that drains and that no lease has as current any more. `Ring::drained` alone makes it.
#[derive(Drop)]
pub struct Drained {
    who: ClientId,
    id: u64,
}

impl Model for Drained {
    ghost use Rattle.keystore.specs.Answers.{DrainedKey};

    ghost Value = { DrainedKey };

    ghost view = { λ d. record { who = d.who; id = d.id } };
}

impl Drained {
    pub(crate) fn new(who: ClientId, id: u64) -> Drained
        ensures { result ≡ record { who = who; id = id } }
    {
        Drained { who, id }
    }

    /// The client whose key it is.
    pub fn who(&self) -> &ClientId
        ensures { result.now ≡ self.now.who }
    {
        &self.who
    }

    /// The key's id.
    pub fn id(&self) -> u64
        ensures { result ≡ self.now.id }
    {
        self.id
    }
}
