use thiserror::Error;

/// Why a text is refused. Of several causes the first in this order is told.
#[derive(Clone, Copy, Debug, PartialEq, Eq, Error)]
pub enum SqlKind {
    /// The text is longer than the limit. The place is the limit.
    #[error("the text is too long")]
    TooLong,
    /// Its first word begins a statement of SQL that the profile leaves out, or it sets another name. The place is that
    /// word's, or that name's.
    #[error("the statement is not in the profile")]
    OutsideProfile,
    /// No statement is spelled so. The place is the first byte of the first token that continues no text of the grammar,
    /// or of the first bytes that are no token; at the end, and where a side condition is broken, the text's length.
    #[error("the text is not in the profile")]
    Syntax,
    /// More than 128 parentheses and NOTs of a condition are open at once, or AND, OR and NOT stand more than 64 deep. The
    /// place is the text's length.
    #[error("the nesting is too deep")]
    TooDeep,
}

/// A text's refusal.
#[derive(Clone, Copy, Debug, PartialEq, Eq, Error)]
#[error("{kind}, at byte {place}")]
pub struct SqlRefusal {
    /// A byte of the text, counted from its beginning, or the text's length.
    pub place: u32,
    /// The cause.
    pub kind: SqlKind,
}

/// Why a text was not read.
#[derive(Clone, Copy, Debug, PartialEq, Eq, Error)]
pub enum ParseFault {
    /// The text is refused.
    #[error("{0}")]
    Refused(SqlRefusal),
    /// There was no memory.
    #[error("out of memory")]
    NoMemory,
}
