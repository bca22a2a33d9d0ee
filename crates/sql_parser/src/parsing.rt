//! Reading a text.

ghost use Rattle.std.specs.Prelude.{◌≡◌, ◌≤◌, ◌<◌, ◌^◌, ◌-◌, ◌↔◌, length, drop, None, IfOk, IsTrue, true, IsNone, MatchOption, Err};
ghost use Rattle.sql_tree.specs.Spelling.{IsGapless, tokens_of};
ghost use Rattle.sql_reading.specs.Cursor.{AreSmall};
ghost use Rattle.sql_parser.specs.Judging as judging;
ghost use Rattle.sql_parser.specs.Judging.{WasRead, TokensGive, IsSpelled, is_deep};
ghost use Rattle.sql_outcomes.specs.Outcome.{Outcome, IsOutcome, IsTold, Tells, place_after};
ghost use Rattle.sql_outcomes.specs.Outside as outside;
ghost use Rattle.sql_readers.specs.Passes as passes;
ghost use Rattle.sql_readers.specs.Passes.{numbers};
ghost use Rattle.sql_outcomes.specs.declared.refusal.ParseFault.TheVariants as fault;
ghost use Rattle.sql_outcomes.specs.declared.refusal.SqlKind.TheVariants as kind;

use crate::outside::outside_place;
use acra_base::NoMemory;
use sql_checks::{are_gapless, is_too_deep, qualifiers_agree};
use sql_outcomes::{ParseFault, SqlKind, SqlRefusal};
use sql_reading::{Cursor, Reading, Stop, read_whole};
use sql_tokens::{TokenSlice, lex};
use sql_tree::Statement;
use std::alloc::Global;

// How many parentheses and NOTs may be open at once.
const MOST_OPEN: usize = 128;

fn refused(kind: SqlKind, place: u32) -> ParseFault
    ensures { result ≡ fault.Refused (record { place = place; kind = kind }) }
{
    ParseFault::Refused(SqlRefusal { place, kind })
}

/// Where the first of the tokens that are left stands, or what follows all tokens.
fn place_at(tokens: &TokenSlice<'_>, left: usize, bad: Option<u32>, end: u32) -> u32
    requires { left ≤ length tokens.now }
    ensures { result ≡ place_after (drop (length tokens.now - left) tokens.now) bad end }
{
    if let Some(place) = tokens.skip(tokens.len() - left).place() {
        return place;
    }
    match bad {
        Some(place) => place,
        None => end,
    }
}

fn side_conditions_hold(
    alloc: Global,
    tokens: &TokenSlice<'_>,
    statement: &Statement,
) -> Result<bool, NoMemory>
    ensures { IfOk result (λ holds. IsTrue holds ↔ ((passes.qualifiers_agree statement.now (tokens_of tokens.now) ≡ true) × IsGapless (numbers (tokens_of tokens.now)))) }
{
    if !qualifiers_agree(statement, tokens) {
        return Ok(false);
    }
    are_gapless(alloc, tokens)
}

fn goes_too_deep(reading: &Reading) -> bool
    ensures { result ≡ is_deep reading.now }
{
    reading.deepest > MOST_OPEN || is_too_deep(&reading.statement)
}

/// The refusal of a statement that was read, if it is to be refused.
fn refusal_of(holds: bool, deep: bool) -> Option<SqlKind>
    ensures { result ≡ judging.refusal_of holds deep }
{
    if !holds {
        return Some(SqlKind::Syntax);
    }
    if deep {
        return Some(SqlKind::TooDeep);
    }
    None
}

fn judged(kind: Option<SqlKind>, end: u32, statement: Statement) -> Result<Statement, ParseFault>
    ensures { result ≡ judging.judged kind end statement }
{
    match kind {
        Some(kind) => Err(refused(kind, end)),
        None => Ok(statement),
    }
}

/// What becomes of what was read from all tokens.
fn judge(
    alloc: Global,
    tokens: &TokenSlice<'_>,
    end: u32,
    reading: Reading,
) -> Result<Statement, ParseFault>
    requires read { WasRead tokens.now reading }
    requires inside { outside.outside_place tokens.now ≡ None }
    ensures { TokensGive tokens.now None end result }
{
    match side_conditions_hold(alloc, tokens, &reading.statement) {
        Ok(holds) => {
            let kind = refusal_of(holds, goes_too_deep(&reading));
            judged(kind, end, reading.into_statement())
        }
        Err(_) => Err(ParseFault::NoMemory),
    }
}

fn misspelled(tokens: &TokenSlice<'_>, left: usize, bad: Option<u32>, end: u32) -> ParseFault
    requires { left ≤ length tokens.now }
    ensures { result ≡ fault.Refused (record { place = place_after (drop (length tokens.now - left) tokens.now) bad end; kind = kind.Syntax }) }
{
    refused(SqlKind::Syntax, place_at(tokens, left, bad, end))
}

/// The refusal of tokens that are not all read, or behind which no token stands.
fn refusal_after(
    tokens: &TokenSlice<'_>,
    left: usize,
    bad: Option<u32>,
    end: u32,
) -> Option<ParseFault>
    requires { left ≤ length tokens.now }
    ensures { result ≡ judging.refusal_after tokens.now left bad end }
{
    if left > 0 {
        return Some(misspelled(tokens, left, bad, end));
    }
    match bad {
        Some(place) => Some(refused(SqlKind::Syntax, place)),
        None => None,
    }
}

fn judge_all(
    alloc: Global,
    tokens: &TokenSlice<'_>,
    refusal: Option<ParseFault>,
    end: u32,
    reading: Reading,
) -> Result<Statement, ParseFault>
    requires read { IsNone refusal → WasRead tokens.now reading }
    requires inside { outside.outside_place tokens.now ≡ None }
    ensures { MatchOption refusal (TokensGive tokens.now None end result) (λ fault. result ≡ Err fault) }
{
    match refusal {
        Some(fault) => Err(fault),
        None => judge(alloc, tokens, end, reading),
    }
}

#[tactic(none)]
fn read_tokens(
    alloc: Global,
    tokens: &TokenSlice<'_>,
    bad: Option<u32>,
    end: u32,
) -> Result<Statement, ParseFault>
    requires small { AreSmall (tokens_of tokens.now) }
    requires inside { outside.outside_place tokens.now ≡ None }
    ensures { TokensGive tokens.now bad end result }
{
    let mut cursor = Cursor::new(tokens);
    match read_whole(alloc, &mut cursor) {
        Ok(reading) => {
            let refusal = refusal_after(tokens, cursor.len(), bad, end);
            judge_all(alloc, tokens, refusal, end, reading)
        }
        Err(Stop::NoMemory) => Err(ParseFault::NoMemory),
        Err(Stop::Syntax) => Err(misspelled(tokens, cursor.len(), bad, end)),
    }
}

fn read_text(alloc: Global, text: &[u8], limit: u32) -> Result<Statement, ParseFault>
    ensures { IsTold text.now limit result }
{
    if text.len() > limit as usize {
        return Err(refused(SqlKind::TooLong, limit));
    }
    let Ok(lexed) = lex(alloc, text) else {
        return Err(ParseFault::NoMemory);
    };
    let tokens = lexed.tokens.as_slice();
    match outside_place(&tokens) {
        Some(place) => Err(refused(SqlKind::OutsideProfile, place)),
        None => read_tokens(alloc, &tokens, lexed.fault, text.len() as u32),
    }
}

/// Reads a text as a statement, in time linear in its length and without recursion, however deep it nests.
pub fn parse(alloc: Global, text: &[u8], limit: u32) -> Result<Statement, ParseFault>
    // The statement that the text spells, or the refusal.
    ensures told { IsTold text.now limit result }
    // There is no other.
    ensures only { (outcome : Outcome) → IsOutcome text.now limit outcome → Tells result outcome }
{
    read_text(alloc, text, limit)
}

/// The statement that tokens spell, if they spell one that a text may spell so: with at most 128 parentheses and NOTs open,
/// and nodes at most 64 deep.
pub fn parse_tokens(alloc: Global, tokens: &TokenSlice<'_>) -> Result<Option<Statement>, NoMemory>
    requires { AreSmall (tokens_of tokens.now) }
    ensures { IfOk result (λ statement. IsSpelled tokens.now statement) }
{
    match outside_place(tokens) {
        Some(_) => Ok(None),
        None => match read_tokens(alloc, tokens, None, 0) {
            Ok(statement) => Ok(Some(statement)),
            Err(ParseFault::Refused(_)) => Ok(None),
            Err(ParseFault::NoMemory) => Err(NoMemory),
        },
    }
}
