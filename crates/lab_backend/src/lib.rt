//! The lab's backend: it executes the requests of any number of sessions, over protocol 3.0, on tables in
//! memory.
#![tactic(auto)]

mod answers;
mod backend;
mod connection;
mod laws;
mod parameters;
mod replies;
mod requests;
mod results;
mod sessions;

pub use backend::LabBackend;
pub use laws::{one_oldest, one_reply};
pub use replies::{write_error, write_ready};
