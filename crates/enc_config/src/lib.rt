//! The policy: which columns of which tables are protected, and how.
#![tactic(auto)]

mod clients;
mod defaults;
mod laws;
mod make;
mod places;
mod policy;
mod read;
mod rules;
mod texts;
mod words;

pub use json_rules::{NO_PLACE, places_by_numbers};
pub use laws::one_answer;
pub use plain_values::{MOST_PLAIN, ValueRefusal, canonical_binary, canonical_text, spell};
pub use policy::{Column, ColumnRule, Policy, Shape, Strangers, Table};
pub use read::{ConfigRefusal, PolicyFault, read_policy};
