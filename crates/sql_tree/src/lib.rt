//! The statements of the SQL profile: their trees, their grammar, and their canonical text.
#![tactic(auto)]

mod condition;
mod laws;
mod printer;
mod statement;
mod whole;
mod writer;

pub use condition::{Cond, Op, Operand};
pub use laws::{canonical_text_spells, canonical_tokens_spell};
pub use printer::print;
pub use statement::{Item, Items, OrderKey, SetPair, Statement};
pub use whole::Whole;
