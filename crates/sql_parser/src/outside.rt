//! Statements of SQL that the profile leaves out.

ghost use Rattle.std.specs.Prelude.{◌≡◌, nat_eq};
ghost use Rattle.std.specs.List.{list_any};
ghost use Rattle.std.specs.Cmp.Lexicographic.{pointwise};
ghost use Rattle.sql_tokens.specs.Seen.{seen};
ghost use Rattle.sql_outcomes.specs.Outside.{outside_words};
ghost use Rattle.sql_outcomes.specs.Outside as outside;

use sql_tokens::{Keyword, TokenRef, TokenSlice};

// Words that begin such a statement. `values` is one more, and is reserved.
const OUTSIDE_WORDS: [&str; 43] = [
    "create",
    "alter",
    "drop",
    "begin",
    "commit",
    "rollback",
    "start",
    "abort",
    "end",
    "savepoint",
    "release",
    "copy",
    "listen",
    "notify",
    "unlisten",
    "prepare",
    "execute",
    "deallocate",
    "declare",
    "fetch",
    "move",
    "close",
    "show",
    "reset",
    "discard",
    "explain",
    "analyze",
    "vacuum",
    "grant",
    "revoke",
    "truncate",
    "lock",
    "call",
    "do",
    "with",
    "table",
    "merge",
    "comment",
    "reindex",
    "cluster",
    "refresh",
    "checkpoint",
    "load",
];

fn is_one_of(name: &[u8], words: &[&str]) -> bool
    ensures { result ≡ list_any (λ word. pointwise nat_eq name.now word.now) words.now }
{
    words.iter().any(|word| name == word.as_bytes())
}

fn is_outside_word(name: &[u8]) -> bool
    ensures { result ≡ list_any (pointwise nat_eq name.now) outside_words }
{
    is_one_of(name, &OUTSIDE_WORDS)
}

fn is_outside(token: TokenRef<'_>) -> bool
    ensures { result ≡ outside.is_outside (seen token.entry) }
{
    match token {
        TokenRef::Name { name, quoted } => !quoted && is_outside_word(name),
        TokenRef::Word(word) => matches!(word, Keyword::Values),
        _ => false,
    }
}

/// Whether SET sets this name.
fn is_settable(name: &[u8]) -> bool
    ensures { result ≡ outside.is_settable name.now }
{
    name == b"application_name".as_slice() || name == b"extra_float_digits".as_slice()
}

fn sets_other(token: TokenRef<'_>) -> bool
    ensures { result ≡ outside.sets_other (seen token.entry) }
{
    match token {
        TokenRef::Name { name, .. } => !is_settable(name),
        TokenRef::Word(_) => true,
        _ => false,
    }
}

fn is_set(token: TokenRef<'_>) -> bool
    ensures { result ≡ outside.is_set (seen token.entry) }
{
    match token {
        TokenRef::Word(word) => matches!(word, Keyword::Set),
        _ => false,
    }
}

/// Where the second token stands, if SET sets another name by it.
fn set_place(others: &TokenSlice<'_>) -> Option<u32>
    ensures { result ≡ outside.set_place others.now }
{
    match others.first() {
        Some(second) if sets_other(second) => others.place(),
        _ => None,
    }
}

/// Where such a statement's token stands, if the tokens begin one.
pub(crate) fn outside_place(tokens: &TokenSlice<'_>) -> Option<u32>
    ensures { result ≡ outside.outside_place tokens.now }
{
    let Some(first) = tokens.first() else {
        return None;
    };
    if is_outside(first) {
        return tokens.place();
    }
    if !is_set(first) {
        return None;
    }
    set_place(&tokens.rest())
}
