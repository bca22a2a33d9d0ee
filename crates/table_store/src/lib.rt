//! Tables in memory that execute the statements of the SQL profile.
#![tactic(auto)]

mod changes;
mod keys;
mod laws;
mod queries;
mod reordering;
mod tables;

pub use laws::key_is_exact;
pub use tables::Tables;
