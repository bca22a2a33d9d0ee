//! That the readers read exactly what the grammar derives; and the laws of parsing and printing.
#![tactic(auto)]

mod laws;

pub use laws::{canonical_text_is_parsed, one_outcome, one_statement, spelled_is_statement};
