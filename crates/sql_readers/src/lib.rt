//! Readers of tokens: for each production of the grammar what is read of the tokens that come, and what is left of them.
//! All of it is definitions, which stand in `specs/`.
#![tactic(auto)]
