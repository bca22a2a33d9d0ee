//! The values that every crate of the suite speaks of: bytes, names, lists, client ids and kinds of
//! values; want of memory; and machines that are called by one thread at a time, with their histories.
#![tactic(auto)]

mod bytes;
mod client;
mod kind;
mod machine;
mod name;
mod no_memory;
mod sequence;

pub use bytes::Bytes;
pub use client::{BadClientId, ClientId};
pub use kind::ValueKind;
pub use machine::Machine;
pub use name::Name;
pub use no_memory::NoMemory;
pub use sequence::Sequence;

#[cfg(test)]
mod tests;
