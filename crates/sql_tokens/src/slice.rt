//! Tokens in a row, looked at without a copy.

ghost use Rattle.std.specs.Prelude.{◌≡◌, ◌≤◌, ◌+◌, drop, length, option_map, slice_get};
ghost use Rattle.sql_tokens.specs.declared.token.Placed.{Placed as APlaced};
ghost use Rattle.sql_tokens.specs.Kept.{AllFit, Fits, part, placed_all, token_in};
ghost use Rattle.sql_tokens.specs.Seen.{IsFirst, IsSound, rest_of, seen};

use crate::keyword::Keyword;
use crate::number::Number;
use crate::sign::Sign;
use crate::tokens::{Entry, Mark};
use std::marker::Model;

/// A token looked at without a copy.
#[derive(Clone, Copy, Debug)]
pub enum TokenRef<'a> {
    /// A reserved word.
    Word(Keyword),
    /// A name, 1 to 63 bytes without a zero byte, and whether it stands in quotes.
    Name { name: &'a [u8], quoted: bool },
    /// A number.
    Number(u128),
    /// A string.
    Text(&'a [u8]),
    /// A parameter's number.
    Parameter(u16),
    /// Punctuation or an operator.
    Sign(Sign),
}

/// Tokens with their places, in order.
#[derive(Debug, Drop)]
pub struct TokenSlice<'a> {
    entries: &'a [Entry],
    bytes: &'a [u8],
    numbers: &'a [Number],
}

impl<'a> Model for TokenSlice<'a> {
    ghost use Rattle.std.specs.Prelude.{List};
    ghost use Rattle.sql_tokens.specs.declared.token.Placed.{Placed};
    ghost use Rattle.sql_tokens.specs.Kept.{AllFit, placed_all};

    ghost Value = { List Placed };

    ghost view = { λ s. placed_all s.bytes.now s.numbers.now s.entries.now };

    ghost invariant = { λ s. AllFit s.bytes.now s.numbers.now s.entries.now };
}

/// So many bytes from a place on.
fn part(bytes: &[u8], start: u32, len: u32) -> &[u8]
    requires { start + len ≤ length bytes.now }
    ensures { result.now ≡ part bytes.now start len }
{
    let start = start as usize;
    &bytes[start..start + len as usize]
}

/// The token of a mark.
fn look<'a>(bytes: &'a [u8], numbers: &'a [Number], mark: Mark) -> TokenRef<'a>
    requires { Fits bytes.now numbers.now mark }
    ensures seen { seen result ≡ token_in bytes.now numbers.now mark }
    ensures sound { IsSound result }
{
    match mark {
        Mark::Word(word) => TokenRef::Word(word),
        Mark::Name { start, len, quoted } => TokenRef::Name {
            name: part(bytes, start, len),
            quoted,
        },
        Mark::Small(number) => TokenRef::Number(number as u128),
        Mark::Number(at) => TokenRef::Number(numbers[at as usize].get()),
        Mark::Text { start, len } => TokenRef::Text(part(bytes, start, len)),
        Mark::Parameter(number) => TokenRef::Parameter(number),
        Mark::Sign(sign) => TokenRef::Sign(sign),
    }
}

impl<'a> TokenSlice<'a> {
    /// The tokens of these entries.
    pub(crate) fn new(entries: &'a [Entry], bytes: &'a [u8], numbers: &'a [Number]) -> Self
        requires { AllFit bytes.now numbers.now entries.now }
        ensures { result ≡ placed_all bytes.now numbers.now entries.now }
    {
        TokenSlice {
            entries,
            bytes,
            numbers,
        }
    }

    /// The same tokens again.
    pub fn again(&self) -> TokenSlice<'a>
        ensures { result ≡ self.now }
    {
        TokenSlice::new(self.entries, self.bytes, self.numbers)
    }

    /// How many tokens there are.
    pub fn len(&self) -> usize
        ensures { result ≡ length self.now }
    {
        self.entries.len()
    }

    /// The first token.
    pub fn first(&self) -> Option<TokenRef<'a>>
        ensures { IsFirst self.now result }
    {
        match self.entries {
            [first, ..] => Some(look(self.bytes, self.numbers, first.mark)),
            [] => None,
        }
    }

    /// Where the first token stands.
    pub fn place(&self) -> Option<u32>
        ensures { result ≡ option_map (λ (p : APlaced). p.place) (slice_get self.now 0) }
    {
        match self.entries {
            [first, ..] => Some(first.place),
            [] => None,
        }
    }

    /// The tokens behind the first.
    pub fn rest(&self) -> TokenSlice<'a>
        ensures { result ≡ rest_of self.now }
    {
        match self.entries {
            [_, rest @ ..] => TokenSlice::new(rest, self.bytes, self.numbers),
            [] => TokenSlice::new(self.entries, self.bytes, self.numbers),
        }
    }

    /// The tokens behind so many.
    pub fn skip(&self, count: usize) -> TokenSlice<'a>
        ensures { result ≡ drop count self.now }
    {
        let count = count.min(self.entries.len());
        TokenSlice::new(&self.entries[count..], self.bytes, self.numbers)
    }
}
