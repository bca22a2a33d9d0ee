use acra_base::{ClientId, NoMemory};
use std::fmt;
use thiserror::Error;

/// Why a client isn't added.
#[derive(Clone, Copy, Debug, PartialEq, Eq, Error)]
pub enum AddRefusal {
    /// The ring has the client.
    #[error("the client is there")]
    Exists,
    /// The ring has 256 clients, or the last id but one was given.
    #[error("there are too many clients or keys")]
    TooMany,
    /// There was no memory for the client.
    #[error("out of memory")]
    NoMemory,
}

impl From<NoMemory> for AddRefusal {
    ghost use Rattle.std.specs.Prelude.{◌≡◌};
    ghost use Rattle.keystore.specs.declared.refusals.AddRefusal.TheVariants as refusals;

    ghost from_gives = { λ _ refusal. refusal ≡ refusals.NoMemory };

    fn from(_: NoMemory) -> Self {
        AddRefusal::NoMemory
    }
}

/// Why there is no lease.
#[derive(Clone, Copy, Error)]
pub enum LeaseRefusal {
    /// The last ticket but one was given.
    #[error("there is no ticket left")]
    NoTicket,
    /// This owner, the first such, isn't in the ring.
    #[error("an owner has no key")]
    NoKey { owner: ClientId },
    /// There was no memory for the lease.
    #[error("out of memory")]
    NoMemory,
}

impl fmt::Debug for LeaseRefusal {
    fn fmt<W: fmt::Write>(&self, f: &mut fmt::Formatter<W>) -> fmt::Result {
        f.write_str(match self {
            LeaseRefusal::NoTicket => "NoTicket",
            LeaseRefusal::NoKey { .. } => "NoKey",
            LeaseRefusal::NoMemory => "NoMemory",
        })
    }
}

impl From<NoMemory> for LeaseRefusal {
    ghost use Rattle.std.specs.Prelude.{◌≡◌};
    ghost use Rattle.keystore.specs.declared.refusals.LeaseRefusal.TheVariants as refusals;

    ghost from_gives = { λ _ refusal. refusal ≡ refusals.NoMemory };

    fn from(_: NoMemory) -> Self {
        LeaseRefusal::NoMemory
    }
}

/// Why there is no new key.
#[derive(Clone, Copy, Debug, PartialEq, Eq, Error)]
pub enum RotateRefusal {
    /// The ring hasn't the client.
    #[error("there is no such client")]
    NoClient,
    /// The client has 256 keys, or the last id but one was given.
    #[error("there are too many keys")]
    TooMany,
    /// There was no memory for the key.
    #[error("out of memory")]
    NoMemory,
}

impl From<NoMemory> for RotateRefusal {
    ghost use Rattle.std.specs.Prelude.{◌≡◌};
    ghost use Rattle.keystore.specs.declared.refusals.RotateRefusal.TheVariants as refusals;

    ghost from_gives = { λ _ refusal. refusal ≡ refusals.NoMemory };

    fn from(_: NoMemory) -> Self {
        RotateRefusal::NoMemory
    }
}

/// Why a key can't be swept yet.
#[derive(Clone, Copy, Debug, PartialEq, Eq, Error)]
pub enum DrainRefusal {
    /// The client has no key of this id.
    #[error("there is no such key")]
    NoSuchKey,
    /// It is the client's current key.
    #[error("the key is current")]
    IsCurrent,
    /// It is swept.
    #[error("the key is swept")]
    IsSwept,
    /// This ticket, the least one, is out and may have the key as current.
    #[error("the key is leased under ticket {ticket}")]
    Leased { ticket: u64 },
}

/// Why a key isn't removed.
#[derive(Clone, Copy, Debug, PartialEq, Eq, Error)]
pub enum RetireRefusal {
    /// The client has no key of this id.
    #[error("there is no such key")]
    NoSuchKey,
    /// It is current or draining.
    #[error("the key is not swept")]
    NotSwept,
    /// This ticket, the least one, is out and may still open a cell with the key.
    #[error("the key is leased under ticket {ticket}")]
    Leased { ticket: u64 },
}

/// The ticket isn't abandoned, or isn't out.
#[derive(Clone, Copy, Debug, PartialEq, Eq, Error)]
#[error("the ticket is not abandoned")]
pub struct NotAbandoned;
