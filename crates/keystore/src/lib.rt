//! The ring: the keys of clients in their phases, and the tickets under which they are lent.
#![tactic(auto)]

mod client;
mod keys;
mod laws;
mod phase;
mod refusals;
mod ring;
mod tickets;

pub use client::Client;
pub use keys::{Drained, KeyLine, Lease, NewKeys};
pub use laws::{given_once, leased_keys_stay, least_is_told};
pub use phase::{OldKey, OldPhase};
pub use refusals::{
    AddRefusal, DrainRefusal, LeaseRefusal, NotAbandoned, RetireRefusal, RotateRefusal,
};
pub use ring::Ring;
