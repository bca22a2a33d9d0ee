//! The tokens that are left, one by one.

ghost use Rattle.std.specs.Prelude.{◌≡◌, ◌∷◌, [], length, ◌<◌, ◌^◌, IfOk, IfSome, ℕ, List, MatchOption, neg_ℤ, pos, is_some};
ghost use Rattle.sql_tokens.specs.declared.token.Token.{Token};
ghost use Rattle.sql_tokens.specs.Seen.{IsSound, seen};
ghost use Rattle.sql_tree.specs.Spelling.{tokens_of};
ghost use Rattle.sql_tree.specs.Parts.{Spelled};
ghost use Rattle.sql_tree.specs.Grammar.{Bound};
ghost use Rattle.sql_readers.specs.Readers.{begins};
ghost use Rattle.sql_reading.specs.Gives.{Gives};
ghost use Rattle.sql_readers.specs.Looks as looks;
ghost use Rattle.sql_readers.specs.Productions as productions;
ghost use Rattle.sql_reading.specs.Cursor.{Eats, EatsCall, AreSmall, IsSmall, rest_of, called};

use crate::stop::Stop;
use acra_base::{Bytes, Name};
use sql_tokens::{Keyword, Sign, TokenRef, TokenSlice};
use sql_tree::Op;
use std::alloc::Global;
use std::marker::Model;

/// The tokens that are left.
#[derive(Drop)]
pub struct Cursor<'a> {
    rest: TokenSlice<'a>,
}

impl<'a> Model for Cursor<'a> {
    ghost use Rattle.std.specs.Prelude.{List};
    ghost use Rattle.sql_tokens.specs.declared.token.Token.{Token};
    ghost use Rattle.sql_tree.specs.Spelling.{tokens_of};
    ghost use Rattle.sql_reading.specs.Cursor.{AreSmall};

    ghost Value = { List Token };

    ghost view = { λ c. tokens_of c.rest };

    ghost invariant = { λ c. AreSmall (tokens_of c.rest) };
}

fn is_word(token: TokenRef<'_>, word: Keyword) -> bool
    ensures { result ≡ looks.is_word word (seen token.entry) }
{
    match token {
        TokenRef::Word(found) => found as u8 == word as u8,
        _ => false,
    }
}

fn is_sign(token: TokenRef<'_>, sign: Sign) -> bool
    ensures { result ≡ looks.is_sign sign (seen token.entry) }
{
    match token {
        TokenRef::Sign(found) => found as u8 == sign as u8,
        _ => false,
    }
}

fn begins_statement(token: TokenRef<'_>) -> bool
    ensures { result ≡ productions.begins_body (seen token.entry) }
{
    if is_word(token, Keyword::Select) {
        return true;
    }
    if is_word(token, Keyword::Insert) {
        return true;
    }
    if is_word(token, Keyword::Update) {
        return true;
    }
    if is_word(token, Keyword::Delete) {
        return true;
    }
    is_word(token, Keyword::Set)
}

fn op_of(token: TokenRef<'_>) -> Option<Op>
    ensures { result ≡ looks.look_op (seen token.entry) }
{
    match token {
        TokenRef::Sign(Sign::Equal) => Some(Op::Eq),
        TokenRef::Sign(Sign::NotEqual) => Some(Op::Ne),
        TokenRef::Sign(Sign::Less) => Some(Op::Lt),
        TokenRef::Sign(Sign::AtMost) => Some(Op::Le),
        TokenRef::Sign(Sign::Greater) => Some(Op::Gt),
        TokenRef::Sign(Sign::AtLeast) => Some(Op::Ge),
        _ => None,
    }
}

fn is_called(token: TokenRef<'_>, word: &[u8]) -> bool
    ensures { result ≡ called word.now (seen token.entry) }
{
    match token {
        TokenRef::Name { name, quoted } => !quoted && name == word,
        _ => false,
    }
}

impl<'a> Cursor<'a> {
    /// At the first of these tokens.
    pub fn new(tokens: &TokenSlice<'a>) -> Cursor<'a>
        requires { AreSmall (tokens_of tokens.now) }
        ensures { result ≡ tokens_of tokens.now }
    {
        Cursor {
            rest: tokens.again(),
        }
    }

    /// How many tokens are left.
    pub fn len(&self) -> usize
        ensures { result ≡ length self.now }
    {
        self.rest.len()
    }

    fn first(&self) -> Option<TokenRef<'a>>
        ensures is { MatchOption result (self.now ≡ []) (λ found. self.now ≡ seen found ∷ rest_of self.now) }
        ensures sound { IfSome result IsSound }
        ensures small { IfSome result IsSmall }
    {
        self.rest.first()
    }

    fn skip(&mut self)
        ensures { self.new ≡ rest_of self.old }
    {
        self.rest = self.rest.rest();
    }

    /// Whether the first token is the word.
    pub(crate) fn is_word(&self, word: Keyword) -> bool
        ensures { result ≡ begins (looks.is_word word) self.now }
    {
        match self.first() {
            Some(token) => is_word(token, word),
            None => false,
        }
    }

    /// Whether the first token is the sign.
    pub(crate) fn is_sign(&self, sign: Sign) -> bool
        ensures { result ≡ begins (looks.is_sign sign) self.now }
    {
        match self.first() {
            Some(token) => is_sign(token, sign),
            None => false,
        }
    }

    /// Whether the first token is a name.
    pub(crate) fn is_name(&self) -> bool
        ensures { result ≡ begins looks.is_name self.now }
    {
        matches!(self.first(), Some(TokenRef::Name { .. }))
    }

    /// Whether the first token is a string.
    pub(crate) fn is_text(&self) -> bool
        ensures { result ≡ begins (λ t. is_some (looks.look_text t)) self.now }
    {
        matches!(self.first(), Some(TokenRef::Text(_)))
    }

    /// Whether the first token is a number.
    pub(crate) fn is_number(&self) -> bool
        ensures { result ≡ begins (λ t. is_some (looks.look_number t)) self.now }
    {
        matches!(self.first(), Some(TokenRef::Number(_)))
    }

    /// Whether the first token is the word of a statement.
    pub(crate) fn begins_statement(&self) -> bool
        ensures { result ≡ begins productions.begins_body self.now }
    {
        match self.first() {
            Some(token) => begins_statement(token),
            None => false,
        }
    }

    /// Goes past the first token where it is the word.
    pub(crate) fn eat_word(&mut self, word: Keyword) -> bool
        ensures { Eats (looks.look_word word) self.old result self.new }
    {
        if !self.is_word(word) {
            return false;
        }
        self.skip();
        true
    }

    /// Goes past the first token where it is the sign.
    pub(crate) fn eat_sign(&mut self, sign: Sign) -> bool
        ensures { Eats (looks.look_sign sign) self.old result self.new }
    {
        if !self.is_sign(sign) {
            return false;
        }
        self.skip();
        true
    }

    /// The name that comes.
    pub(crate) fn name(&mut self, alloc: Global) -> Result<Name, Stop>
        ensures { Gives (λ (s : Spelled). s.name) productions.name self.old result self.new }
    {
        let Some(token) = self.first() else {
            return Err(Stop::Syntax);
        };
        let TokenRef::Name { name, .. } = token else {
            return Err(Stop::Syntax);
        };
        let copy = Name::new(Bytes::copied(alloc, name)?);
        self.skip();
        Ok(copy)
    }

    /// The string that comes.
    pub(crate) fn text(&mut self, alloc: Global) -> Result<Bytes, Stop>
        ensures { Gives (λ (text : List ℕ). text) productions.text self.old result self.new }
    {
        let Some(token) = self.first() else {
            return Err(Stop::Syntax);
        };
        let TokenRef::Text(text) = token else {
            return Err(Stop::Syntax);
        };
        let copy = Bytes::copied(alloc, text)?;
        self.skip();
        Ok(copy)
    }

    /// The number that comes, without a sign.
    pub(crate) fn number(&mut self) -> Result<u128, Stop>
        ensures reads { Gives (λ (n : ℕ). n) productions.number self.old result self.new }
        ensures small { IfOk result (λ n. n < 2 ^ 127) }
    {
        let Some(TokenRef::Number(number)) = self.first() else {
            return Err(Stop::Syntax);
        };
        self.skip();
        Ok(number)
    }

    /// The parameter that comes.
    pub(crate) fn parameter(&mut self) -> Result<u16, Stop>
        ensures { Gives (λ (n : ℕ). n) productions.parameter self.old result self.new }
    {
        let Some(TokenRef::Parameter(number)) = self.first() else {
            return Err(Stop::Syntax);
        };
        self.skip();
        Ok(number)
    }

    /// The number that comes, which is below 2^63.
    pub(crate) fn bound(&mut self) -> Result<u64, Stop>
        ensures { Gives (λ (b : Bound). b.number) productions.bound self.old result self.new }
    {
        let Some(token) = self.first() else {
            return Err(Stop::Syntax);
        };
        let TokenRef::Number(number) = token else {
            return Err(Stop::Syntax);
        };
        if number >= 1 << 63 {
            return Err(Stop::Syntax);
        }
        self.skip();
        Ok(number as u64)
    }

    /// This very number.
    pub(crate) fn exactly(&mut self, wanted: u128) -> Result<(), Stop>
        ensures { Gives (λ x. x) (productions.exactly wanted) self.old result self.new }
    {
        let Some(TokenRef::Number(number)) = self.first() else {
            return Err(Stop::Syntax);
        };
        if number != wanted {
            return Err(Stop::Syntax);
        }
        self.skip();
        Ok(())
    }

    /// The word, which must come.
    pub(crate) fn word(&mut self, word: Keyword) -> Result<(), Stop>
        ensures { Gives (λ x. x) (productions.word_reader word) self.old result self.new }
    {
        if !self.eat_word(word) {
            return Err(Stop::Syntax);
        }
        Ok(())
    }

    /// The sign, which must come.
    pub(crate) fn sign(&mut self, sign: Sign) -> Result<(), Stop>
        ensures { Gives (λ x. x) (productions.sign_reader sign) self.old result self.new }
    {
        if !self.eat_sign(sign) {
            return Err(Stop::Syntax);
        }
        Ok(())
    }

    /// Whether the first token is an operator.
    pub(crate) fn is_op(&self) -> bool
        ensures { result ≡ begins looks.is_op self.now }
    {
        match self.first() {
            Some(token) => op_of(token).is_some(),
            None => false,
        }
    }

    /// The operator that comes.
    pub(crate) fn op(&mut self) -> Result<Op, Stop>
        ensures { Gives (λ op. op) productions.op self.old result self.new }
    {
        let Some(token) = self.first() else {
            return Err(Stop::Syntax);
        };
        let Some(op) = op_of(token) else {
            return Err(Stop::Syntax);
        };
        self.skip();
        Ok(op)
    }

    /// Goes past the first token where it is the word of a call, which it is only without quotes and before `(`.
    pub(crate) fn eat_call(&mut self, word: &[u8]) -> bool
        ensures { EatsCall word.now self.old result self.new }
    {
        let Some(token) = self.first() else {
            return false;
        };
        if !is_called(token, word) {
            return false;
        }
        let ahead = Cursor {
            rest: self.rest.rest(),
        };
        if !ahead.is_sign(Sign::Open) {
            return false;
        }
        self.skip();
        true
    }
}
