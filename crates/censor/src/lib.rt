//! The censor: which statements are let through, and the handler that decides.
#![tactic(auto)]

mod censor;
mod entries;
mod handler;
mod judging;
mod laws;
mod read;
mod rules;
mod settings;
mod verdict;

pub use censor::Censor;
pub use handler::{Entry, Handler, Word};
pub use json_rules::NO_PLACE;
pub use laws::one_answer;
pub use read::{CensorFault, CensorRefusal, read_censor};
pub use verdict::{Part, Verdict};
