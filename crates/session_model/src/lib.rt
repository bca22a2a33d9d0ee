//! The plaintext tables and the replies of a session, as definitions that every layer above cites:
//! what a client may ask, the tables as if nothing were sealed, the reply to each request, and which
//! stored tables stand for which plaintext tables.
#![tactic(auto)]

mod encryption;
mod laws;
mod meaning;
mod refusal;

pub use encryption::Encryption;
pub use laws::{
    bad_messages, one_meaning, one_split, replies_stand, served_is_statement, tables_still_stand,
};
pub use meaning::Meaning;
pub use refusal::Refusal;
