//! Tests of values and of policies: tables of texts, each with its canonical plaintext, its refusal, or the rule that it
//! breaks.
#![tactic(auto)]

#[cfg(test)]
mod tests;
