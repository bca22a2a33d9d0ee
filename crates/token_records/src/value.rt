//! Values that have tokens.
ghost use Rattle.std.specs.Prelude.{◌≡◌, ◌↔◌, IsTrue, true};
ghost use Rattle.std.specs.Fmt.{signed_decimal};
ghost use Rattle.plain_values.specs.Values.{IsCanonical, is_integer};
ghost use Rattle.token_rule.specs.Rule.{IsTokenValue};

use acra_base::ValueKind;
use itoa::Buffer;
use plain_values::{is_plain_text, read_number};

/// The most bytes of a plaintext that has a token.
const MOST_VALUE: usize = 256;

/// Whether a text is the decimal spelling of this number.
fn is_decimal(number: i64, text: &[u8]) -> bool
    ensures { IsTrue result ↔ (text.now ≡ signed_decimal number) }
{
    let mut digits = Buffer::new();
    digits.format(number).as_bytes() == text
}

/// Whether a text is the decimal spelling of a number of an integer kind.
fn is_number(kind: ValueKind, plain: &[u8]) -> bool
    requires { is_integer kind ≡ true }
    ensures { IsTrue result ↔ IsCanonical kind plain.now }
{
    match read_number(kind, plain) {
        Ok(number) => is_decimal(number, plain),
        Err(_) => false,
    }
}

/// Whether a plaintext can have a token: it is canonical for its kind, and has at most 256 bytes. It takes no memory.
pub fn is_token_value(kind: ValueKind, plain: &[u8]) -> bool
    ensures { IsTrue result ↔ IsTokenValue kind plain.now }
{
    if plain.len() > MOST_VALUE {
        return false;
    }
    match kind {
        ValueKind::Int32 | ValueKind::Int64 => is_number(kind, plain),
        ValueKind::Str => is_plain_text(plain),
        ValueKind::Bytes => true,
    }
}
