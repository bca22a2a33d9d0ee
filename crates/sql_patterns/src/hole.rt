//! The holes of a pattern.
ghost use Rattle.std.specs.Prelude.{◌≡◌, ◌++◌, ◌+◌, ◌≤◌, length, drop, bytes_eq, IfSome, OnOk};
ghost use Rattle.sql_patterns.specs.Holes.{hole_of, hole_tokens, hole_word, column_mark, value_mark, where_mark};

use acra_base::{Bytes, Name, NoMemory};
use sql_tokens::{Keyword, Placed, Token, Tokens};
use std::alloc::Global;

const VALUE: &[u8] = b"%%VALUE%%";

const COLUMN: &[u8] = b"%%COLUMN%%";

const WHERE: &[u8] = b"%%WHERE%%";

// Bytes that begin no UTF-8, and so stand in no token of a text.
const MARK: [u8; 1] = [255];

const WHERE_MARK: [u8; 1] = [254];

/// A hole of a pattern.
#[derive(Clone, Copy, Debug, PartialEq, Eq)]
pub(crate) enum Hole {
    /// Any value.
    Value,
    /// Any column.
    Column,
    /// Any condition or none.
    Where,
}

/// The hole with whose word a text begins.
fn hole_of(text: &[u8]) -> Option<Hole>
    ensures whole { result ≡ hole_of text.now }
    ensures inside { IfSome result (λ hole. length (hole_word hole) ≤ length text.now) }
{
    if text.starts_with(VALUE) {
        return Some(Hole::Value);
    }
    if text.starts_with(COLUMN) {
        return Some(Hole::Column);
    }
    if text.starts_with(WHERE) {
        return Some(Hole::Where);
    }
    None
}

/// The hole with whose word a text goes on at a place.
pub(crate) fn hole_at(text: &[u8], place: u32) -> Option<Hole>
    requires { place ≤ length text.now }
    ensures whole { result ≡ hole_of (drop place text.now) }
    ensures inside { IfSome result (λ hole. place + length (hole_word hole) ≤ length text.now) }
{
    hole_of(&text[place as usize..])
}

/// Whether a name is a column hole.
pub(crate) fn is_column_mark(name: &[u8]) -> bool
    ensures { result ≡ bytes_eq name.now column_mark }
{
    name == MARK.as_slice()
}

/// Whether a string is a value hole.
pub(crate) fn is_value_mark(text: &[u8]) -> bool
    ensures { result ≡ bytes_eq text.now value_mark }
{
    text == MARK.as_slice()
}

/// Whether a name is a where hole.
pub(crate) fn is_where_mark(name: &[u8]) -> bool
    ensures { result ≡ bytes_eq name.now where_mark }
{
    name == WHERE_MARK.as_slice()
}

impl Hole {
    /// How many bytes its word has.
    pub(crate) fn len(self) -> usize
        ensures { result ≡ length (hole_word self) }
    {
        match self {
            Hole::Value => VALUE.len(),
            Hole::Column => COLUMN.len(),
            Hole::Where => WHERE.len(),
        }
    }
}

/// Puts the tokens of a hole at the end.
pub(crate) fn push_hole(
    alloc: Global,
    tokens: &mut Tokens,
    hole: Hole,
    place: u32,
) -> Result<(), NoMemory>
    ensures { OnOk result (tokens.new ≡ tokens.old ++ hole_tokens place hole) }
{
    match hole {
        Hole::Value => {
            let token = Token::Text(Bytes::copied(alloc, &MARK)?);
            tokens.push(Placed { token, place })
        }
        Hole::Column => {
            let name = Name::new(Bytes::copied(alloc, &MARK)?);
            let token = Token::Name {
                name,
                quoted: false,
            };
            tokens.push(Placed { token, place })
        }
        Hole::Where => {
            let name = Name::new(Bytes::copied(alloc, &WHERE_MARK)?);
            let token = Token::Name { name, quoted: true };
            tokens.push(Placed { token, place })?;
            let token = Token::Word(Keyword::Is);
            tokens.push(Placed { token, place })?;
            let token = Token::Word(Keyword::Null);
            tokens.push(Placed { token, place })
        }
    }
}
