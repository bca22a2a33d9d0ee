//! Handlers and their entries.

use acra_base::{Bytes, Sequence};
use sql_patterns::{Pattern, Query};

/// What a handler does.
#[derive(Clone, Copy, Debug, PartialEq, Eq)]
pub enum Word {
    /// Allows what an entry matches.
    Allow,
    /// Denies what an entry matches.
    Deny,
    /// Allows everything.
    AllowAll,
    /// Denies everything.
    DenyAll,
}

/// An entry of a handler's lists.
#[derive(Debug, Drop)]
pub enum Entry {
    /// No text. It breaks a rule, and matches nothing.
    NoText,
    /// A text that spells no statement, or is no pattern. It breaks a rule, and matches nothing.
    Unread,
    /// A statement, which matches the equal one.
    Query(Query),
    /// The name of a table, which matches the statements on it.
    Table(Bytes),
    /// A pattern.
    Pattern(Pattern),
}

/// A handler, as its member of the settings says.
#[derive(Debug, Drop)]
pub struct Handler {
    /// Each member is listed and has its JSON type and one of its words, and `handler` stands.
    pub is_well_typed: bool,
    /// What it does; none where the word isn't listed.
    pub word: Option<Word>,
    /// Whether one of the three lists stands, if only empty.
    pub has_lists: bool,
    /// How many of the entries are queries, which come first.
    pub queries: usize,
    /// How many of the entries are tables, which come behind the queries; the others are patterns.
    pub tables: usize,
    /// The entries, in order.
    pub entries: Sequence<Entry>,
}
