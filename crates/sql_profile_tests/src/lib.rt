//! Tests of the SQL profile: tables of texts, each with its tokens, its canonical text, or the cause and the place of its
//! refusal.
#![tactic(auto)]

#[cfg(test)]
mod tests;
