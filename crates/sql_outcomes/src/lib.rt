//! What becomes of a text of the SQL profile: its statement, or its refusal with the place.
#![tactic(auto)]

mod refusal;

pub use refusal::{ParseFault, SqlKind, SqlRefusal};
