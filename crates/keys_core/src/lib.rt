//! The key tool: makes clients and keys in a ring's file, lists them, and removes those that are swept.
#![tactic(auto)]

mod lines;
mod opening;
mod status;
mod top;
mod words;
mod work;

pub use status::{KeyFile, KeysStatus, Refusal, RingTrouble};
pub use top::keys_top;
pub use words::{Ask, ask_of};
