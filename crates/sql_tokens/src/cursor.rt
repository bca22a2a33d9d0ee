//! The text that is left, piece by piece.

ghost use Rattle.std.specs.Prelude.{◌≡◌, ◌≤◌, ◌<◌, ◌++◌, ◌∷◌, [], length, slice_index, drop, take, ◌==◌, ◌&&◌, nat_eq, true, IfOk, IfSome, IfNone, List, None, Some, Option};
ghost use Rattle.std.specs.List.{list_all};
ghost use Rattle.acra_base.specs.Names.{is_name};
ghost use Rattle.sql_tokens.specs.declared.class.Class.{Class};
ghost use Rattle.sql_tokens.specs.Classes as classes;
ghost use Rattle.sql_tokens.specs.Classes.{Stops};
ghost use Rattle.sql_tokens.specs.Comments.{after_comments};
ghost use Rattle.sql_tokens.specs.Signs.{joins};
ghost use Rattle.sql_tokens.specs.Runs.{run_test};
ghost use Rattle.sql_tokens.specs.Steps.{Reads, EatsQuote, TakesQuoted, IsUnclosed};
ghost use Rattle.sql_tokens.specs.Steps as steps;

use crate::class::{Class, class_of};
use crate::keyword::reserved_word;
use crate::number::Number;
use crate::runs::{Run, folded_word, is_text, number_of, parameter_of};
use crate::sign::{sign_of_one, sign_of_two};
use crate::token::Token;
use acra_base::{Bytes, Name, NoMemory};
use std::alloc::Global;
use std::marker::Model;

/// The longest name.
const LONGEST_NAME: usize = 63;

/// The text that is left.
#[derive(Drop)]
pub struct Cursor<'a> {
    rest: &'a [u8],
}

impl<'a> Model for Cursor<'a> {
    ghost use Rattle.std.specs.Prelude.{List, ℕ};

    ghost Value = { List ℕ };

    ghost view = { λ cursor. cursor.rest.now };
}

/// What the front of a text is.
#[derive(Drop)]
pub enum Front {
    /// Nothing is left.
    End,
    /// Bytes that separate tokens.
    Gap,
    /// A token.
    Token(Token),
    /// Bytes that are no token.
    Bad,
}

/// The token of a word in lower case.
fn word_token(word: Bytes) -> Token
    requires { is_name word ≡ true }
    ensures { result ≡ steps.word_token word }
{
    match reserved_word(word.as_slice()) {
        Some(found) => Token::Word(found),
        None => Token::Name {
            name: Name::new(word),
            quoted: false,
        },
    }
}

/// Whether two bytes are these.
fn are(first: u8, second: u8, one: u8, other: u8) -> bool
    ensures { result ≡ ((first == one) && (second == other)) }
{
    first == one && second == other
}

impl<'a> Cursor<'a> {
    /// All of the text.
    pub fn new(text: &'a [u8]) -> Self
        ensures { result ≡ text.now }
    {
        Cursor { rest: text }
    }

    /// How many bytes are left.
    pub fn len(&self) -> usize
        ensures { result ≡ length self.now }
    {
        self.rest.len()
    }

    fn take_run(&mut self, run: Run) -> &'a [u8]
        ensures whole { self.old ≡ result.now ++ self.new }
        ensures all { list_all (run_test run) result.now ≡ true }
        ensures stops { Stops (run_test run) self.new }
    {
        let (front, rest) = self.rest.split_at(run.len_in(self.rest));
        self.rest = rest;
        front
    }

    fn eat_quote(&mut self, quote: u8) -> bool
        ensures { EatsQuote quote self.old result self.new }
    {
        match self.rest {
            [first, rest @ ..] if *first == quote => {
                self.rest = rest;
                true
            }
            _ => false,
        }
    }

    fn word(&mut self, alloc: Global) -> Result<Front, NoMemory>
        requires some { 1 ≤ length self.old }
        requires starts { classes.class_of (slice_index self.old 0) ≡ Class.Word }
        ensures { IfOk result (λ front. Reads self.old front self.new) }
    {
        let word = self.take_run(Run::Word);
        if word.len() > LONGEST_NAME {
            return Ok(Front::Bad);
        }
        Ok(Front::Token(word_token(folded_word(alloc, word)?)))
    }

    fn number(&mut self) -> Front
        requires some { 1 ≤ length self.old }
        requires starts { classes.class_of (slice_index self.old 0) ≡ Class.Digit }
        ensures { Reads self.old result self.new }
    {
        let digits = self.take_run(Run::Digits);
        match number_of(digits) {
            Some(number) => Front::Token(Token::Number(Number::new(number))),
            None => Front::Bad,
        }
    }

    fn parameter(&mut self) -> Front
        requires some { 1 ≤ length self.old }
        requires starts { classes.class_of (slice_index self.old 0) ≡ Class.Parameter }
        ensures { Reads self.old result self.new }
    {
        self.eat_quote(b'$');
        let digits = self.take_run(Run::Digits);
        match parameter_of(digits) {
            Some(number) => Front::Token(Token::Parameter(number)),
            None => Front::Bad,
        }
    }

    fn quoted(&mut self, alloc: Global, quote: u8) -> Result<Option<Bytes>, NoMemory>
        requires some { 1 ≤ length self.old }
        requires starts { slice_index self.old 0 ≡ quote }
        ensures found { IfOk result (λ o. IfSome o (λ content. TakesQuoted quote self.old content self.new)) }
        ensures none { IfOk result (λ o. IfNone o (IsUnclosed quote self.old)) }
    {
        let mut content = Vec::new(alloc);
        self.eat_quote(quote);
        'pieces: loop {
            let piece = self.take_run(Run::Inside(quote));
            content.extend_from_slice(piece)?;
            if !self.eat_quote(quote) {
                return Ok(None);
            }
            if !self.eat_quote(quote) {
                return Ok(Some(Bytes::from_vec(content)));
            }
            content.push(quote)?;
        }
    }

    fn text(&mut self, alloc: Global) -> Result<Front, NoMemory>
        requires some { 1 ≤ length self.old }
        requires starts { classes.class_of (slice_index self.old 0) ≡ Class.Text }
        ensures { IfOk result (λ front. Reads self.old front self.new) }
    {
        let Some(content) = self.quoted(alloc, b'\'')? else {
            return Ok(Front::Bad);
        };
        if !is_text(content.as_slice()) {
            return Ok(Front::Bad);
        }
        Ok(Front::Token(Token::Text(content)))
    }

    fn name(&mut self, alloc: Global) -> Result<Front, NoMemory>
        requires some { 1 ≤ length self.old }
        requires starts { classes.class_of (slice_index self.old 0) ≡ Class.Name }
        ensures { IfOk result (λ front. Reads self.old front self.new) }
    {
        let Some(name) = self.quoted(alloc, b'"')? else {
            return Ok(Front::Bad);
        };
        if name.is_empty() {
            return Ok(Front::Bad);
        }
        if name.len() > LONGEST_NAME {
            return Ok(Front::Bad);
        }
        if !is_text(name.as_slice()) {
            return Ok(Front::Bad);
        }
        Ok(Front::Token(Token::Name {
            name: Name::new(name),
            quoted: true,
        }))
    }

    fn line(&mut self) -> Front
        ensures { Reads (45 ∷ 45 ∷ self.old) result self.new }
    {
        let inside = self.take_run(Run::Line);
        if is_text(inside) {
            Front::Gap
        } else {
            Front::Bad
        }
    }

    fn nested(&mut self) -> Front
        ensures { Reads (47 ∷ 42 ∷ self.old) result self.new }
    {
        let Some(len) = nested_len(self.rest) else {
            return Front::Bad;
        };
        let (inside, rest) = self.rest.split_at(len);
        if !is_text(inside) {
            return Front::Bad;
        }
        self.rest = rest;
        Front::Gap
    }

    fn sign(&mut self) -> Front
        requires some { 1 ≤ length self.old }
        requires starts { classes.class_of (slice_index self.old 0) ≡ Class.Mark }
        requires alone { Stops (joins (slice_index self.old 0)) (drop 1 self.old) }
        ensures { Reads self.old result self.new }
    {
        let [first, rest @ ..] = self.rest else {
            return Front::Bad;
        };
        match sign_of_one(*first) {
            Some(sign) => {
                self.rest = rest;
                Front::Token(Token::Sign(sign))
            }
            None => Front::Bad,
        }
    }

    fn mark(&mut self) -> Front
        requires some { 1 ≤ length self.old }
        requires starts { classes.class_of (slice_index self.old 0) ≡ Class.Mark }
        ensures { Reads self.old result self.new }
    {
        let [first, second, rest @ ..] = self.rest else {
            return self.sign();
        };
        if are(*first, *second, b'-', b'-') {
            self.rest = rest;
            return self.line();
        }
        if are(*first, *second, b'/', b'*') {
            self.rest = rest;
            return self.nested();
        }
        match sign_of_two(*first, *second) {
            Some(sign) => {
                self.rest = rest;
                Front::Token(Token::Sign(sign))
            }
            None => self.sign(),
        }
    }

    /// Reads the front of the text: a token, or what separates tokens.
    pub fn front(&mut self, alloc: Global) -> Result<Front, NoMemory>
        ensures reads { IfOk result (λ front. Reads self.old front self.new) }
        ensures some { IfOk result (λ front. front ≡ Front.Bad → 1 ≤ length self.old) }
    {
        let [first, rest @ ..] = self.rest else {
            return Ok(Front::End);
        };
        match class_of(*first) {
            Class::Space => {
                self.rest = rest;
                Ok(Front::Gap)
            }
            Class::Word => self.word(alloc),
            Class::Digit => Ok(self.number()),
            Class::Name => self.name(alloc),
            Class::Text => self.text(alloc),
            Class::Parameter => Ok(self.parameter()),
            Class::Mark => Ok(self.mark()),
        }
    }
}

/// How long a comment is behind its opening, its end included, where it is closed.
fn nested_len(text: &[u8]) -> Option<usize>
    ensures some { IfSome result (λ len. after_comments text.now 1 ≡ Some (drop len text.now)) }
    ensures within { IfSome result (λ len. len ≤ length text.now) }
    ensures none { IfNone result (after_comments text.now 1 ≡ None) }
{
    let mut depth = 1usize;
    let mut at = 0;
    'bytes: while at + 1 < text.len() {
        let first = text[at];
        let second = text[at + 1];
        if are(first, second, b'*', b'/') {
            at += 2;
            depth -= 1;
            if depth == 0 {
                return Some(at);
            }
            continue 'bytes;
        }
        if are(first, second, b'/', b'*') {
            at += 2;
            depth += 1;
            continue 'bytes;
        }
        at += 1;
    }
    None
}
