//! Bodies of messages that are looked at where they lie: nothing is copied, and no memory is wanted (PostgreSQL manual,
//! "Message Formats").
#![tactic(auto)]

mod cells;
mod checking;
mod draft;
mod fields;
mod row;

pub use checking::{BadBody, check_back, check_front};
pub use draft::RowDraft;
pub use row::{BadRow, RowView};

#[cfg(test)]
mod tests;
