//! What the words of a command line have in common in all programs of the suite: numbers, clients' names,
//! and the words that ask for help and for the version.
#![tactic(auto)]

mod asked;
mod client;
mod number;

pub use asked::{Asked, asked_by};
pub use client::read_client;
pub use number::read_number;

#[cfg(test)]
mod tests;
