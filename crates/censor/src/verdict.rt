//! Verdicts.

/// What of a handler decides. Indices count from 0 in the list that is named.
#[derive(Clone, Copy, Debug, PartialEq, Eq)]
pub enum Part {
    /// A query.
    Query(u16),
    /// A table.
    Table(u16),
    /// A pattern.
    Pattern(u16),
    /// The handler, whatever the statement is.
    All,
}

/// What becomes of a statement.
#[derive(Clone, Copy, Debug, PartialEq, Eq)]
pub enum Verdict {
    /// It is let through.
    Allowed,
    /// It is refused, by a handler, whose index counts from 0, and what of it matches.
    Denied { handler: u16, part: Part },
}
