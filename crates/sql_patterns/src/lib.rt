//! Patterns of statements: texts of the SQL profile with holes, and the statements that they match.
#![tactic(auto)]

mod condition;
mod hole;
mod laws;
mod lexing;
mod matching;
mod mixing;
mod parts;
mod pattern;
mod plain;
mod prints;
mod standing;

pub use laws::equal_alone;
pub use pattern::{MOST_TEXT, Pattern, are_equal, one_pattern, read_pattern};
pub use prints::{Query, fingerprint};
