//! All that the lab does under its words: one session of a client over the lab's backend, from the bytes
//! that come in to the bytes that go out.
#![tactic(auto)]

mod example;
mod top;
mod words;

pub use example::example_replies;
pub use lab_session::Status;
pub use top::lab_top;
