//! Two threads that count at one turnstile, each until it has met the other.
#![tactic(auto)]

mod crowd;
mod machine;
mod meeting;
mod visitor;

pub use crowd::{call, call_and_close, count_all};
pub use machine::{Side, Tally};
pub use meeting::{Meeting, meet, meet_both};
pub use visitor::{Visitor, both, visit};

#[cfg(test)]
mod tests;
