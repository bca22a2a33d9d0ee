//! Tokens, kept in little room.

ghost use Rattle.std.specs.Prelude.{◌≡◌, ◌++◌, ◌∷◌, [], length, List, ℕ, IfOk, OnOk, OnErr};
ghost use Rattle.sql_tokens.specs.declared.token.Token.TheVariants as t;
ghost use Rattle.sql_tokens.specs.Kept.{Extends, Fits, token_in};

use crate::keyword::Keyword;
use crate::number::Number;
use crate::sign::Sign;
use crate::slice::TokenSlice;
use crate::token::{Placed, Token};
use acra_base::NoMemory;
use std::alloc::Global;
use std::marker::Model;

/// A token whose bytes, or whose number, are kept with those of the others.
#[derive(Clone, Copy, Debug)]
pub(crate) enum Mark {
    /// A reserved word.
    Word(Keyword),
    /// A name: where its bytes begin, and how many they are.
    Name { start: u32, len: u32, quoted: bool },
    /// A number below 2^32.
    Small(u32),
    /// The place of another number.
    Number(u32),
    /// A string: where its bytes begin, and how many they are.
    Text { start: u32, len: u32 },
    /// A parameter.
    Parameter(u16),
    /// Punctuation or an operator.
    Sign(Sign),
}

/// A token so kept, and where it stands in the text.
#[derive(Clone, Copy, Debug)]
pub(crate) struct Entry {
    /// The token.
    pub(crate) mark: Mark,
    /// Its first byte, counted from the text's beginning.
    pub(crate) place: u32,
}

/// The tokens of a text with their places, in order. One takes 16 bytes, and those of its name or string, or of a number from 2^32 on.
#[derive(Debug, Drop)]
pub struct Tokens {
    entries: Vec<Entry>,
    /// The bytes of names and strings, one behind the other.
    bytes: Vec<u8>,
    numbers: Vec<Number>,
}

impl Model for Tokens {
    ghost use Rattle.std.specs.Prelude.{List};
    ghost use Rattle.sql_tokens.specs.declared.token.Placed.{Placed};
    ghost use Rattle.sql_tokens.specs.Kept.{AllFit, placed_all};

    ghost Value = { List Placed };

    ghost view = { λ t. placed_all t.bytes.items t.numbers.items t.entries.items };

    ghost invariant = { λ t. AllFit t.bytes.items t.numbers.items t.entries.items };
}

/// Puts bytes at the end: where they begin, and how many they are. No place is past what can be counted.
fn put(bytes: &mut Vec<u8>, new: &[u8]) -> Result<(u32, u32), NoMemory>
    ensures ok { IfOk result (λ r. (r.0 ≡ length bytes.old.items) × (r.1 ≡ length new.now)) }
    ensures whole { OnOk result (bytes.new.items ≡ bytes.old.items ++ new.now) }
    ensures err { OnErr result (bytes.new.items ≡ bytes.old.items) }
{
    let Ok(start) = u32::try_from(bytes.len()) else {
        return Err(NoMemory);
    };
    let Ok(len) = u32::try_from(new.len()) else {
        return Err(NoMemory);
    };
    bytes.extend_from_slice(new)?;
    Ok((start, len))
}

/// Puts a number at the end: its place.
fn put_number(numbers: &mut Vec<Number>, number: Number) -> Result<u32, NoMemory>
    ensures ok { IfOk result (λ at. at ≡ length numbers.old.items) }
    ensures whole { OnOk result (numbers.new.items ≡ numbers.old.items ++ number ∷ []) }
    ensures err { OnErr result (numbers.new.items ≡ numbers.old.items) }
{
    let Ok(at) = u32::try_from(numbers.len()) else {
        return Err(NoMemory);
    };
    numbers.push(number)?;
    Ok(at)
}

/// Keeps a number: with its token where it is short, or else with the others.
fn number_mark(numbers: &mut Vec<Number>, number: Number) -> Result<Mark, NoMemory>
    ensures numbers { Extends numbers.old.items numbers.new.items }
    ensures fits { (bytes : List ℕ) → IfOk result (λ mark. Fits bytes numbers.new.items mark) }
    ensures kept { (bytes : List ℕ) → IfOk result (λ mark. token_in bytes numbers.new.items mark ≡ t.Number number) }
{
    if let Ok(small) = u32::try_from(number.get()) {
        return Ok(Mark::Small(small));
    }
    let at = put_number(numbers, number)?;
    Ok(Mark::Number(at))
}

/// Keeps what a token holds.
fn mark_of(bytes: &mut Vec<u8>, numbers: &mut Vec<Number>, token: Token) -> Result<Mark, NoMemory>
    ensures bytes { Extends bytes.old.items bytes.new.items }
    ensures numbers { Extends numbers.old.items numbers.new.items }
    ensures fits { IfOk result (λ mark. Fits bytes.new.items numbers.new.items mark) }
    ensures kept { IfOk result (λ mark. token_in bytes.new.items numbers.new.items mark ≡ token) }
{
    match token {
        Token::Word(word) => Ok(Mark::Word(word)),
        Token::Name { name, quoted } => {
            let (start, len) = put(bytes, name.as_slice())?;
            Ok(Mark::Name { start, len, quoted })
        }
        Token::Number(number) => number_mark(numbers, number),
        Token::Text(text) => {
            let (start, len) = put(bytes, text.as_slice())?;
            Ok(Mark::Text { start, len })
        }
        Token::Parameter(number) => Ok(Mark::Parameter(number)),
        Token::Sign(sign) => Ok(Mark::Sign(sign)),
    }
}

impl Tokens {
    /// No tokens.
    pub fn new(alloc: Global) -> Self
        ensures { result ≡ [] }
    {
        Tokens {
            entries: Vec::new(alloc),
            bytes: Vec::new(alloc),
            numbers: Vec::new(alloc),
        }
    }

    /// No tokens, with room for so many.
    pub(crate) fn with_room(alloc: Global, room: usize) -> Result<Self, NoMemory>
        ensures { IfOk result (λ tokens. tokens ≡ []) }
    {
        Ok(Tokens {
            entries: Vec::with_capacity(alloc, room)?,
            bytes: Vec::new(alloc),
            numbers: Vec::new(alloc),
        })
    }

    /// Puts a token at the end. Without memory it is dropped, and the tokens stay.
    pub fn push(&mut self, placed: Placed) -> Result<(), NoMemory>
        ensures ok { OnOk result (self.new ≡ self.old ++ placed ∷ []) }
        ensures err { OnErr result (self.new ≡ self.old) }
    {
        let Placed { token, place } = placed;
        let mark = mark_of(&mut self.bytes, &mut self.numbers, token)?;
        self.entries.push(Entry { mark, place })?;
        Ok(())
    }

    /// The tokens, in order.
    pub fn as_slice(&self) -> TokenSlice<'_>
        ensures { result ≡ self.now }
    {
        TokenSlice::new(&self.entries, &self.bytes, &self.numbers)
    }
}
