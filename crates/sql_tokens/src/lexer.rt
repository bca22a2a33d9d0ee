ghost use Rattle.std.specs.Prelude.{◌≡◌, ◌<◌, ◌≤◌, ◌^◌, [], length, drop, IfOk, OnErr};
ghost use Rattle.sql_tokens.specs.Lexing.{Lexes, LexesOn, StandsBehind};

use crate::cursor::{Cursor, Front};
use crate::token::Placed;
use crate::tokens::Tokens;
use acra_base::NoMemory;
use std::alloc::Global;

/// The tokens of a text.
#[derive(Debug, Drop)]
pub struct Lexed {
    /// The tokens, in order: all, or those before the first bytes that are no token.
    pub tokens: Tokens,
    /// Where the first bytes that are no token begin.
    pub fault: Option<u32>,
}

/// Room is made at once for at most as many tokens.
const MOST_ROOM: usize = 5 << 17;

/// No tokens, with room for those of a text of so many bytes: five for eight bytes, as in a list of short values. They are
/// not moved then while the text is read.
fn room_for(alloc: Global, len: usize) -> Result<Tokens, NoMemory>
    ensures { IfOk result (λ tokens. tokens ≡ []) }
{
    Tokens::with_room(alloc, (len / 8 * 5).min(MOST_ROOM))
}

/// Reads the tokens of a text from a byte of it on, and puts them behind those that stand: where the first bytes that are no
/// token begin. Places are counted from the text's beginning. Without memory, tokens that were read by then stay.
pub fn lex_from(
    alloc: Global,
    text: &[u8],
    from: usize,
    tokens: &mut Tokens,
) -> Result<Option<u32>, NoMemory>
    requires short { length text.now < 2 ^ 32 }
    requires inside { from ≤ length text.now }
    ensures lexes { IfOk result (λ fault. LexesOn from (drop from text.now) tokens.old tokens.new fault) }
    ensures stay { OnErr result (StandsBehind tokens.old tokens.new) }
{
    let mut cursor = Cursor::new(&text[from..]);
    'pieces: loop {
        let place = (text.len() - cursor.len()) as u32;
        let Ok(front) = cursor.front(alloc) else {
            return Err(NoMemory);
        };
        match front {
            Front::End => return Ok(None),
            Front::Gap => {}
            Front::Token(token) => {
                let Ok(()) = tokens.push(Placed { token, place }) else {
                    return Err(NoMemory);
                };
            }
            Front::Bad => return Ok(Some(place)),
        }
    }
}

/// Reads the tokens of a text, in time linear in its length.
pub fn lex(alloc: Global, text: &[u8]) -> Result<Lexed, NoMemory>
    requires { length text.now < 2 ^ 32 }
    ensures { IfOk result (λ lexed. Lexes 0 text.now lexed.tokens lexed.fault) }
{
    let mut tokens = room_for(alloc, text.len())?;
    let fault = lex_from(alloc, text, 0, &mut tokens)?;
    Ok(Lexed { tokens, fault })
}
