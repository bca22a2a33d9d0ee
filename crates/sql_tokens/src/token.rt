use crate::keyword::Keyword;
use crate::number::Number;
use crate::sign::Sign;
use acra_base::{Bytes, Name};

/// A token of a text.
#[derive(Debug, Drop)]
pub enum Token {
    /// A reserved word, in letters of either case and without quotes.
    Word(Keyword),
    /// A name: in quotes as it stands there, or else in lower case and no reserved word.
    Name { name: Name, quoted: bool },
    /// A number below 2^127, without a sign.
    Number(Number),
    /// A string, its quotes undoubled: UTF-8 without a zero byte.
    Text(Bytes),
    /// A parameter's number, 1 to 20,480.
    Parameter(u16),
    /// Punctuation or an operator.
    Sign(Sign),
}

/// A token and where it stands.
#[derive(Debug, Drop)]
pub struct Placed {
    /// The token.
    pub token: Token,
    /// Its first byte, counted from the text's beginning.
    pub place: u32,
}
