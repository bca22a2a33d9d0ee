//! Tests of the censor: tables of patterns with what they match, of settings with the rule that they break, and of statements
//! with their verdicts.
#![tactic(auto)]

#[cfg(test)]
mod tests;
