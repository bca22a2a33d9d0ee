//! The tokens of the SQL profile: what a text is made of, before any grammar.
#![tactic(auto)]

mod class;
mod cursor;
mod keyword;
mod laws;
mod lexer;
mod number;
mod runs;
mod sign;
mod slice;
mod token;
mod tokens;

pub use keyword::Keyword;
pub use laws::one_lexing;
pub use lexer::{Lexed, lex, lex_from};
pub use number::Number;
pub use sign::Sign;
pub use slice::{TokenRef, TokenSlice};
pub use token::{Placed, Token};
pub use tokens::Tokens;
