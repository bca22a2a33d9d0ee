//! Tokens: what a token stands for, the list of tokens, and the rule that gives the next one its number.
#![tactic(auto)]

mod start;
mod want;

pub use start::{kind_byte, token_start};
pub use want::TokenWant;
