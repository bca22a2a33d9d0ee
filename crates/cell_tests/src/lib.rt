//! Tests of ciphers, macs, cells and rings: published examples, and what other programs give.
#![tactic(auto)]

#[cfg(test)]
mod tests;
