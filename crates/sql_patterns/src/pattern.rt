//! Patterns.
ghost use Rattle.std.specs.Prelude.{◌≡◌, ◌↔◌, true, false, IsTrue, IfOk, MatchOption};
ghost use Rattle.sql_tree.specs.Spelling.{tokens_of};
ghost use Rattle.sql_reading.specs.Cursor.{AreSmall};
ghost use Rattle.sql_tree.specs.declared.statement.Statement.{Statement as AStatement};
ghost use Rattle.sql_patterns.specs.Matching as matching;
ghost use Rattle.sql_patterns.specs.Standing.{are_names_plain};
ghost use Rattle.sql_patterns.specs.Patterns.{IsMade, IsPattern, IsRead};

use crate::lexing::read_tokens;
use crate::matching::statement_matches;
use crate::plain::are_names_plain;
use crate::standing::all_stand;
use acra_base::NoMemory;
use sql_parser::parse_tokens;
use sql_tokens::TokenSlice;
use sql_tree::Statement;
use std::alloc::Global;

/// The bytes of a pattern's text at most.
pub const MOST_TEXT: u32 = 1 << 20;

/// A pattern: a statement in which marks that no text spells stand for holes.
#[derive(Debug, Drop)]
pub struct Pattern {
    /// The statement: a value hole is the string of the byte 255, a column hole the name of that byte, and a where hole the
    /// condition that the name of the byte 254 is null.
    pub tree: Statement,
}

impl Pattern {
    /// Whether it matches a statement.
    pub fn matches(&self, statement: &Statement) -> bool
        ensures { result ≡ matching.statement_matches true self.now.tree statement.now }
    {
        statement_matches(&self.tree, statement, true)
    }
}

/// Whether two statements are equal.
pub fn are_equal(statement: &Statement, other: &Statement) -> bool
    ensures matched { result ≡ matching.statement_matches false statement.now other.now }
    ensures equal { IsTrue result ↔ (statement.now ≡ other.now) }
{
    statement_matches(statement, other, false)
}

fn plain_pattern(tree: Statement) -> Option<Pattern>
    ensures { MatchOption result (are_names_plain tree ≡ false) (λ pattern. (pattern.tree ≡ tree) × (are_names_plain tree ≡ true)) }
{
    if are_names_plain(&tree) {
        Some(Pattern { tree })
    } else {
        None
    }
}

/// The pattern that tokens spell.
fn pattern_of(alloc: Global, tokens: &TokenSlice<'_>) -> Result<Option<Pattern>, NoMemory>
    requires { AreSmall (tokens_of tokens.now) }
    ensures { IfOk result (λ pattern. IsMade tokens.now pattern) }
{
    if !all_stand(tokens) {
        return Ok(None);
    }
    match parse_tokens(alloc, tokens)? {
        Some(tree) => Ok(plain_pattern(tree)),
        None => Ok(None),
    }
}

/// Reads the text of a pattern, of at most 2^20 bytes: a text of the profile in which `%%VALUE%%` may stand for a value,
/// `%%COLUMN%%` for a column of what is selected, compared or ordered by, and `%%WHERE%%` for the whole condition behind WHERE.
pub fn read_pattern(alloc: Global, text: &[u8]) -> Result<Option<Pattern>, NoMemory>
    ensures { IfOk result (λ pattern. IsRead text.now pattern) }
{
    if text.len() > MOST_TEXT as usize {
        return Ok(None);
    }
    match read_tokens(alloc, text)? {
        Some(tokens) => pattern_of(alloc, &tokens.as_slice()),
        None => Ok(None),
    }
}

/// A text is one pattern at most.
pub fn one_pattern(text: &[u8])
    ensures { (a : AStatement) (b : AStatement) → IsPattern text.now a → IsPattern text.now b → a ≡ b }
{}
