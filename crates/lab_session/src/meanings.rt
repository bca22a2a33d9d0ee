ghost use Rattle.std.specs.Prelude.{◌≡◌, IfOk, Ok};
ghost use Rattle.std.specs.List.{list_all};
ghost use Rattle.session_model.specs.Meanings.{Means, has_short_strings, is_nothing, is_short_value, meaning_of, meaning_served, refusal_of};

use crate::served::is_served;
use acra_base::{NoMemory, Sequence};
use session_model::{Meaning, Refusal};
use sql_parser::{ParseFault, SqlKind, SqlRefusal, parse};
use sql_tree::{Operand, Statement};
use std::alloc::Global;

/// A Query's text has at most this many bytes.
const TEXT_LIMIT: u32 = 1 << 20;

/// A string in a statement has at most this many bytes.
const STRING_LIMIT: usize = 1 << 18;

fn is_short(value: &Operand) -> bool
    ensures { result ≡ is_short_value value.now }
{
    match value {
        Operand::Text(text) => text.len() <= STRING_LIMIT,
        _ => true,
    }
}

fn are_short(values: &[Operand]) -> bool
    ensures { result ≡ list_all is_short_value values.now }
{
    values.iter().all(is_short)
}

fn rows_are_short(rows: &[Sequence<Operand>]) -> bool
    ensures { result ≡ list_all (λ row. list_all is_short_value row) rows.now }
{
    'rows: for row in rows {
        if !are_short(row.as_slice()) {
            return false;
        }
    }
    true
}

// Whether each string of a statement is within its limit.
fn has_short_strings(tree: &Statement) -> bool
    ensures { result ≡ has_short_strings tree.now }
{
    match tree {
        Statement::Insert { rows, .. } => rows_are_short(rows.as_slice()),
        _ => true,
    }
}

fn refusal_of(refusal: SqlRefusal) -> Refusal
    ensures { result ≡ refusal_of refusal }
{
    match refusal.kind {
        SqlKind::TooLong => Refusal::TooLong,
        SqlKind::OutsideProfile => Refusal::NotServed,
        SqlKind::Syntax => Refusal::Misspelled {
            place: refusal.place,
        },
        SqlKind::TooDeep => Refusal::TooDeep,
    }
}

// What a statement asks that isn't empty.
fn meaning_served(tree: Statement) -> Meaning
    ensures { result ≡ meaning_served tree }
{
    if is_served(&tree) && has_short_strings(&tree) {
        Meaning::Serves(tree)
    } else {
        Meaning::Refused(Refusal::NotServed)
    }
}

fn is_nothing(tree: &Statement) -> bool
    ensures { result ≡ is_nothing tree.now }
{
    matches!(tree, Statement::Empty)
}

fn meaning_of(tree: Statement) -> Meaning
    ensures { result ≡ meaning_of (Ok tree) }
{
    if is_nothing(&tree) {
        return Meaning::Nothing;
    }
    meaning_served(tree)
}

/// What a text asks.
pub fn text_meaning(alloc: Global, text: &[u8]) -> Result<Meaning, NoMemory>
    ensures { IfOk result (λ what. Means text.now what) }
{
    match parse(alloc, text, TEXT_LIMIT) {
        Err(ParseFault::NoMemory) => Err(NoMemory),
        Err(ParseFault::Refused(refusal)) => Ok(Meaning::Refused(refusal_of(refusal))),
        Ok(tree) => Ok(meaning_of(tree)),
    }
}
