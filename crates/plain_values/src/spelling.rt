//! Spelling canonical plaintext for a client.
ghost use Rattle.std.specs.Prelude.{◌≡◌, ◌++◌, OnOk, OnErr, true};
ghost use Rattle.std.specs.Str.Parse.{signed_digits_value};
ghost use Rattle.plain_values.specs.Values.{IsCanonical, is_integer, is_in_range, text_spelling, binary_spelling, spelling};

use crate::numbers::number_of;
use acra_base::{NoMemory, ValueKind};
use std::alloc::Global;

/// The number that a canonical plaintext of an integer kind spells.
fn canonical_number(kind: ValueKind, plain: &[u8]) -> i64
    requires canonical { IsCanonical kind plain.now }
    requires integer { is_integer kind ≡ true }
    ensures value { result ≡ signed_digits_value 10 plain.now }
    ensures within { is_in_range kind result ≡ true }
{
    match number_of(plain) {
        Some(number) => number,
        None => unreachable!(),
    }
}

fn spell_text(
    alloc: Global,
    kind: ValueKind,
    plain: &[u8],
    out: &mut Vec<u8>,
) -> Result<(), NoMemory>
    ensures ok { OnOk result (out.new.items ≡ out.old.items ++ text_spelling kind plain.now) }
    ensures err { OnErr result (out.new.items ≡ out.old.items) }
{
    if kind != ValueKind::Bytes {
        out.extend_from_slice(plain)?;
        return Ok(());
    }
    let mut text = Vec::from_slice(alloc, b"\\x")?;
    text.extend_from_slice(hex::encode(alloc, plain)?.as_bytes())?;
    out.extend_from_slice(&text)?;
    Ok(())
}

fn spell_binary(kind: ValueKind, plain: &[u8], out: &mut Vec<u8>) -> Result<(), NoMemory>
    requires { IsCanonical kind plain.now }
    ensures ok { OnOk result (out.new.items ≡ out.old.items ++ binary_spelling kind plain.now) }
    ensures err { OnErr result (out.new.items ≡ out.old.items) }
{
    match kind {
        ValueKind::Str | ValueKind::Bytes => out.extend_from_slice(plain)?,
        ValueKind::Int32 => {
            let number = canonical_number(kind, plain) as i32;
            out.extend_from_slice(&number.to_be_bytes())?
        }
        ValueKind::Int64 => {
            let number = canonical_number(kind, plain);
            out.extend_from_slice(&number.to_be_bytes())?
        }
    }
    Ok(())
}

/// Appends the spelling of a canonical plaintext for a client.
///
/// - Text form: integers in decimal, str as it is, bytes as `\x` and lower-case digits.
/// - Binary form: integers big-endian in two's complement, in 4 or 8 bytes as the kind has; the
///   others as they are.
///
/// Without memory `out` stays as it was.
pub fn spell(
    alloc: Global,
    kind: ValueKind,
    plain: &[u8],
    binary: bool,
    out: &mut Vec<u8>,
) -> Result<(), NoMemory>
    requires { IsCanonical kind plain.now }
    ensures ok { OnOk result (out.new.items ≡ out.old.items ++ spelling kind plain.now binary) }
    ensures err { OnErr result (out.new.items ≡ out.old.items) }
{
    if binary {
        spell_binary(kind, plain, out)
    } else {
        spell_text(alloc, kind, plain, out)
    }
}
