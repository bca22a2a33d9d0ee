ghost use Rattle.std.specs.Prelude.{◌≡◌, ◌<◌, ◌||◌, ℕ, IfOk, IsTrue, length, max, nat_eq, slice_index_or, true, false, ◌↔◌};
ghost use Rattle.std.specs.List.{list_all, list_any};
ghost use Rattle.sql_tokens.specs.Seen.{seen};
ghost use Rattle.sql_tree.specs.Shapes.{most};
ghost use Rattle.sql_tree.specs.Spelling.{IsGapless, tokens_of};
ghost use Rattle.sql_readers.specs.Passes.{number_of, numbers};

use acra_base::NoMemory;
use sql_tokens::{TokenRef, TokenSlice};
use std::alloc::Global;

/// What the numbers of parameters reach from and to.
struct Reach {
    /// Whether 0 is among them.
    zero: bool,
    /// The highest, or 0 where there is none.
    highest: u16,
}

// Whether 0 was found, or is the token's number.
fn finds_zero(found: bool, token: TokenRef<'_>) -> bool
    ensures { result ≡ (found || list_any (nat_eq 0) (number_of (seen token.entry))) }
{
    match token {
        TokenRef::Parameter(number) => found || number == 0,
        _ => found,
    }
}

// The token's number, if it is higher.
fn raised(highest: u16, token: TokenRef<'_>) -> u16
    ensures { result ≡ max highest (most (number_of (seen token.entry))) }
{
    match token {
        TokenRef::Parameter(number) => highest.max(number),
        _ => highest,
    }
}

fn reach_of(tokens: &TokenSlice<'_>) -> Reach
    ensures zero { result.zero ≡ list_any (nat_eq 0) (numbers (tokens_of tokens.now)) }
    ensures highest { result.highest ≡ most (numbers (tokens_of tokens.now)) }
{
    let mut zero = false;
    let mut highest = 0;
    let mut rest = tokens.again();
    'tokens: while let Some(token) = rest.first() {
        zero = finds_zero(zero, token);
        highest = raised(highest, token);
        rest = rest.rest();
    }
    Reach { zero, highest }
}

// Marks the token's number, if it has a mark.
fn mark(marks: &mut [bool], token: TokenRef<'_>)
    ensures { (k : ℕ) → k < length marks.old → slice_index_or marks.new k false ≡ (slice_index_or marks.old k false || list_any (nat_eq k) (number_of (seen token.entry))) }
{
    if let TokenRef::Parameter(number) = token {
        let at = usize::from(number);
        if at < marks.len() {
            marks[at] = true;
        }
    }
}

// Marks the number of each parameter.
fn mark_all(marks: &mut [bool], tokens: &TokenSlice<'_>)
    ensures { (k : ℕ) → k < length marks.old → slice_index_or marks.new k false ≡ (slice_index_or marks.old k false || list_any (nat_eq k) (numbers (tokens_of tokens.now))) }
{
    let mut rest = tokens.again();
    'tokens: while let Some(token) = rest.first() {
        mark(marks, token);
        rest = rest.rest();
    }
}

fn are_marked(marks: &[bool]) -> bool
    ensures { result ≡ list_all (λ m. m) marks.now }
{
    marks.iter().all(|mark| *mark)
}

/// Whether the numbers of the parameters are 1 to some number, without a gap.
pub fn are_gapless(alloc: Global, tokens: &TokenSlice<'_>) -> Result<bool, NoMemory>
    ensures { IfOk result (λ gapless. IsTrue gapless ↔ IsGapless (numbers (tokens_of tokens.now))) }
{
    let Reach { zero, highest } = reach_of(tokens);
    if zero {
        return Ok(false);
    }
    if highest == 0 {
        return Ok(true);
    }
    let mut marks = vec![in alloc; false; usize::from(highest) + 1]?;
    mark_all(&mut marks, tokens);
    Ok(are_marked(&marks[1..]))
}
