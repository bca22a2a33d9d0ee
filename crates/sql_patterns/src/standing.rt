//! Where holes may stand among the tokens.
ghost use Rattle.std.specs.Prelude.{◌≡◌, false};
ghost use Rattle.sql_tree.specs.Spelling.{tokens_of};
ghost use Rattle.sql_tokens.specs.Seen.{seen};
ghost use Rattle.sql_patterns.specs.Standing as standing;

use crate::hole::{is_column_mark, is_where_mark};
use sql_tokens::{Keyword, Sign, TokenRef, TokenSlice};

fn is_dot(token: TokenRef<'_>) -> bool
    ensures { result ≡ standing.is_dot (seen token.entry) }
{
    match token {
        TokenRef::Sign(sign) => matches!(sign, Sign::Dot),
        _ => false,
    }
}

fn is_where(token: TokenRef<'_>) -> bool
    ensures { result ≡ standing.is_where (seen token.entry) }
{
    match token {
        TokenRef::Word(word) => matches!(word, Keyword::Where),
        _ => false,
    }
}

/// Whether it is AND or OR.
fn joins(token: TokenRef<'_>) -> bool
    ensures { result ≡ standing.joins (seen token.entry) }
{
    match token {
        TokenRef::Word(word) => matches!(word, Keyword::And | Keyword::Or),
        _ => false,
    }
}

fn begins_with_join(tokens: &TokenSlice<'_>) -> bool
    ensures { result ≡ standing.begins_with standing.joins (tokens_of tokens.now) }
{
    match tokens.first() {
        Some(token) => joins(token),
        None => false,
    }
}

fn name_stands(dot: bool, where_: bool, name: &[u8], more: &TokenSlice<'_>) -> bool
    ensures { result ≡ standing.name_stands dot where_ name.now (tokens_of more.now) }
{
    !(is_column_mark(name) && dot)
        && (!is_where_mark(name) || (where_ && !begins_with_join(&more.skip(2))))
}

fn stands(dot: bool, where_: bool, token: TokenRef<'_>, more: &TokenSlice<'_>) -> bool
    ensures { result ≡ standing.stands dot where_ (seen token.entry) (tokens_of more.now) }
{
    match token {
        TokenRef::Name { name, .. } => name_stands(dot, where_, name, more),
        _ => true,
    }
}

/// Whether each hole may stand where it does: a column hole behind no dot, and a where hole right behind WHERE, alone.
pub(crate) fn all_stand(tokens: &TokenSlice<'_>) -> bool
    ensures { result ≡ standing.all_stand false false (tokens_of tokens.now) }
{
    let mut left = tokens.again();
    let mut dot = false;
    let mut where_ = false;
    'tokens: loop {
        let Some(token) = left.first() else {
            return true;
        };
        let more = left.rest();
        if !stands(dot, where_, token, &more) {
            return false;
        }
        dot = is_dot(token);
        where_ = is_where(token);
        left = more;
    }
}
