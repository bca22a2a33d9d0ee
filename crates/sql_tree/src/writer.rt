//! Writing tokens, with a space between two where the canonical text has one.

ghost use Rattle.std.specs.Prelude.{◌≡◌, ◌==◌, ◌++◌, codes, ◌∷◌, [], OnOk, ℕ, List, pos, nat_eq, true, false, if◌then◌else◌};
ghost use Rattle.sql_tokens.specs.Tokens.{doubled};
ghost use Rattle.sql_tree.specs.Canonical as canonical;
ghost use Rattle.sql_tree.specs.Shapes.{quoted, operand_shape};
ghost use Rattle.sql_tree.specs.declared.condition.Operand.TheVariants as operand;
ghost use Rattle.sql_tree.specs.Writing.{State, Wrote, WrotePiece, token_if};
ghost use Rattle.sql_tokens.specs.declared.token.Token.TheVariants as t;
ghost use Rattle.std.specs.Fmt.{signed_decimal};

use acra_base::{Bytes, Name, NoMemory};
use itoa::Buffer;
use sql_tokens::{Keyword, Sign};
use std::alloc::Global;
use std::marker::Model;

/// The text so far, and whether no space is to follow it.
#[derive(Drop)]
pub struct Writer {
    bytes: Vec<u8>,
    tight: bool,
}

impl Model for Writer {
    ghost use Rattle.sql_tree.specs.Writing.{State};

    ghost Value = { State };

    ghost view = { λ w. record { bytes = w.bytes.items; tight = w.tight } };
}

fn keyword_text(word: Keyword) -> &'static [u8]
    ensures { result.now ≡ canonical.keyword_text word }
{
    match word {
        Keyword::Select => b"SELECT",
        Keyword::From => b"FROM",
        Keyword::Where => b"WHERE",
        Keyword::And => b"AND",
        Keyword::Or => b"OR",
        Keyword::Not => b"NOT",
        Keyword::In => b"IN",
        Keyword::Is => b"IS",
        Keyword::Null => b"NULL",
        Keyword::Order => b"ORDER",
        Keyword::By => b"BY",
        Keyword::Asc => b"ASC",
        Keyword::Desc => b"DESC",
        Keyword::Limit => b"LIMIT",
        Keyword::Offset => b"OFFSET",
        Keyword::Insert => b"INSERT",
        Keyword::Into => b"INTO",
        Keyword::Values => b"VALUES",
        Keyword::Update => b"UPDATE",
        Keyword::Set => b"SET",
        Keyword::Delete => b"DELETE",
        Keyword::As => b"AS",
        Keyword::To => b"TO",
    }
}

fn sign_text(sign: Sign) -> &'static [u8]
    ensures { result.now ≡ canonical.sign_text sign }
{
    match sign {
        Sign::Open => b"(",
        Sign::Close => b")",
        Sign::Comma => b",",
        Sign::Semicolon => b";",
        Sign::Dot => b".",
        Sign::Star => b"*",
        Sign::Equal => b"=",
        Sign::NotEqual => b"<>",
        Sign::Less => b"<",
        Sign::AtMost => b"<=",
        Sign::Greater => b">",
        Sign::AtLeast => b">=",
        Sign::Plus => b"+",
        Sign::Minus => b"-",
    }
}

fn write_byte(byte: u8, quote: u8, out: &mut Vec<u8>) -> Result<(), NoMemory>
    ensures { OnOk result (out.new.items ≡ out.old.items ++ (if byte == quote then quote ∷ quote ∷ [] else byte ∷ [])) }
{
    if byte == quote {
        out.push(quote)?;
    }
    out.push(byte)?;
    Ok(())
}

fn write_doubled(text: &[u8], quote: u8, out: &mut Vec<u8>) -> Result<(), NoMemory>
    ensures { OnOk result (out.new.items ≡ out.old.items ++ doubled quote text.now) }
{
    'bytes: for byte in text {
        write_byte(*byte, quote, out)?;
    }
    Ok(())
}

impl Writer {
    /// No text, at whose beginning no space stands. It takes no memory.
    pub fn new(alloc: Global) -> Self
        ensures { result ≡ record { bytes = []; tight = true } }
    {
        Writer {
            bytes: Vec::new(alloc),
            tight: true,
        }
    }

    /// The text.
    pub fn as_slice(&self) -> &[u8]
        ensures { result.now ≡ self.now.bytes }
    {
        &self.bytes
    }

    fn space(&mut self, before: bool) -> Result<(), NoMemory>
        ensures { OnOk result (WrotePiece self.old [] before self.old.tight self.new) }
    {
        if self.tight || before {
            return Ok(());
        }
        self.bytes.push(b' ')?;
        Ok(())
    }

    fn piece(&mut self, bytes: &[u8], before: bool, after: bool) -> Result<(), NoMemory>
        ensures { OnOk result (WrotePiece self.old bytes.now before after self.new) }
    {
        self.space(before)?;
        self.bytes.extend_from_slice(bytes)?;
        self.tight = after;
        Ok(())
    }

    /// A keyword.
    pub fn word(&mut self, word: Keyword) -> Result<(), NoMemory>
        ensures { OnOk result (Wrote self.old (t.Word word ∷ []) self.new) }
    {
        self.piece(keyword_text(word), false, false)
    }

    /// A sign.
    pub fn sign(&mut self, sign: Sign) -> Result<(), NoMemory>
        ensures { OnOk result (Wrote self.old (t.Sign sign ∷ []) self.new) }
    {
        let before = matches!(sign, Sign::Close | Sign::Comma);
        let after = matches!(sign, Sign::Open | Sign::Minus);
        self.piece(sign_text(sign), before, after)
    }

    fn quoted(&mut self, quote: u8, text: &[u8]) -> Result<(), NoMemory>
        ensures { OnOk result (WrotePiece self.old (canonical.quotes quote text.now) false false self.new) }
    {
        self.space(false)?;
        self.bytes.push(quote)?;
        write_doubled(text, quote, &mut self.bytes)?;
        self.bytes.push(quote)?;
        self.tight = false;
        Ok(())
    }

    /// A name, in quotes.
    pub fn name(&mut self, name: &Name) -> Result<(), NoMemory>
        ensures { OnOk result (Wrote self.old (quoted name.now) self.new) }
    {
        self.quoted(b'"', name.as_slice())
    }

    /// A string.
    pub fn text(&mut self, text: &Bytes) -> Result<(), NoMemory>
        ensures { OnOk result (Wrote self.old (t.Text text.now ∷ []) self.new) }
    {
        self.quoted(b'\'', text.as_slice())
    }

    /// A number with its sign.
    pub fn signed(&mut self, number: i128) -> Result<(), NoMemory>
        ensures { OnOk result (Wrote self.old (operand_shape (operand.Number number)) self.new) }
    {
        let mut digits = Buffer::new();
        self.piece(digits.format(number).as_bytes(), false, false)
    }

    /// A number.
    pub fn number(&mut self, number: u64) -> Result<(), NoMemory>
        ensures { OnOk result (Wrote self.old (t.Number number ∷ []) self.new) }
    {
        let mut digits = Buffer::new();
        self.piece(digits.format(number).as_bytes(), false, false)
    }

    /// A parameter.
    pub fn parameter(&mut self, number: u16) -> Result<(), NoMemory>
        ensures { OnOk result (Wrote self.old (t.Parameter number ∷ []) self.new) }
    {
        self.piece(b"$", false, true)?;
        let mut digits = Buffer::new();
        self.piece(digits.format(number).as_bytes(), true, false)
    }

    /// The word COUNT before its parenthesis.
    pub fn count(&mut self) -> Result<(), NoMemory>
        ensures { OnOk result (Wrote self.old (t.Name (codes "count") false ∷ []) self.new) }
    {
        self.piece(b"COUNT", false, true)
    }

    /// The word SUBSTR before its parenthesis.
    pub fn substr(&mut self) -> Result<(), NoMemory>
        ensures { OnOk result (Wrote self.old (t.Name (codes "substr") false ∷ []) self.new) }
    {
        self.piece(b"substr", false, true)
    }
}
