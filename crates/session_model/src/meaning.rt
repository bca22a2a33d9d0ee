use crate::refusal::Refusal;
use sql_tree::Statement;

/// What a text asks.
#[derive(Debug, Drop)]
pub enum Meaning {
    /// Nothing: the text has no statement.
    Nothing,
    /// A statement that is served.
    Serves(Statement),
    /// What is refused.
    Refused(Refusal),
}
