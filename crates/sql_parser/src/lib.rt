//! The parser of the SQL profile: from a text to its statement, to its canonical text, or to its refusal with the place.
#![tactic(auto)]

mod outside;
mod parsing;
mod rewriting;

pub use parsing::{parse, parse_tokens};
pub use rewriting::rewrite;
pub use sql_derivations::{
    canonical_text_is_parsed, one_outcome, one_statement, spelled_is_statement,
};
pub use sql_outcomes::{ParseFault, SqlKind, SqlRefusal};
