//! The tokens of a pattern's text.
ghost use Rattle.std.specs.Prelude.{◌≡◌, ◌<◌, ◌^◌, length, IfOk, drop};
ghost use Rattle.sql_patterns.specs.Patterns.{HasTokens};

use crate::hole::{hole_at, push_hole};
use acra_base::NoMemory;
use sql_tokens::{Tokens, lex_from};
use std::alloc::Global;

/// The tokens of a text with holes; none where some bytes are neither a token nor the word of a hole.
pub(crate) fn read_tokens(alloc: Global, text: &[u8]) -> Result<Option<Tokens>, NoMemory>
    requires { length text.now < 2 ^ 32 }
    ensures { IfOk result (λ tokens. HasTokens text.now tokens) }
{
    let mut tokens = Tokens::new(alloc);
    let mut from = 0;
    'segments: loop {
        let Ok(fault) = lex_from(alloc, text, from, &mut tokens) else {
            return Err(NoMemory);
        };
        let Some(place) = fault else {
            return Ok(Some(tokens));
        };
        let Some(hole) = hole_at(text, place) else {
            return Ok(None);
        };
        let Ok(()) = push_hole(alloc, &mut tokens, hole, place) else {
            return Err(NoMemory);
        };
        from = place as usize + hole.len();
    }
}
