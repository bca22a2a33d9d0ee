//! Reading values to their canonical plaintext.
ghost use Rattle.plain_values.specs.Values.{canonical, canonical_binary, binary_reading, integer_reading, text_reading, bytes_reading, hex_reading, number_reading, within_bound, bounded, reading, plain};
ghost use Rattle.std.specs.Prelude.{◌≡◌, IfOk};
ghost use Rattle.std.specs.Fmt.{signed_decimal};
ghost use Rattle.std.specs.Str.Parse.{signed_digits_value};
ghost use Rattle.hex.specs.Hex.{decode_of};
ghost use Rattle.plain_values.specs.Answers.{Answers, IsNumber};

use crate::numbers::{binary_size, is_in_range, is_text_type, number_of, signed_of};
use crate::refusal::ValueRefusal;
use crate::texts::{has_backslash, is_hex_form, is_integer_text, is_plain_text, trim_spaces};
use acra_base::ValueKind;
use hex::FromHexError;
use std::alloc::Global;

/// The most bytes of a canonical plaintext: 2^18.
pub const MOST_PLAIN: usize = 262144;

fn append_plain(plain: &[u8], out: &mut Vec<u8>) -> Result<(), ValueRefusal>
    ensures { Answers (within_bound plain.now) out.old.items out.new.items result }
{
    if plain.len() > MOST_PLAIN {
        return Err(ValueRefusal::TooLong);
    }
    out.extend_from_slice(plain)?;
    Ok(())
}

fn append_short_text(text: &[u8], out: &mut Vec<u8>) -> Result<(), ValueRefusal>
    ensures { Answers (bounded (text_reading text.now)) out.old.items out.new.items result }
{
    if !is_plain_text(text) {
        return Err(ValueRefusal::Bad);
    }
    append_plain(text, out)
}

fn append_text(text: &[u8], out: &mut Vec<u8>) -> Result<(), ValueRefusal>
    ensures { Answers (text_reading text.now) out.old.items out.new.items result }
{
    if !is_plain_text(text) {
        return Err(ValueRefusal::Bad);
    }
    out.extend_from_slice(text)?;
    Ok(())
}

fn number_in_range(kind: ValueKind, number: i64) -> Result<i64, ValueRefusal>
    ensures read { IsNumber (number_reading kind number) result }
    ensures means { IfOk result (λ n. signed_digits_value 10 (signed_decimal n) ≡ n) }
{
    if !is_in_range(kind, number) {
        return Err(ValueRefusal::Range);
    }
    Ok(number)
}

fn append_decimal(alloc: Global, number: i64, out: &mut Vec<u8>) -> Result<(), ValueRefusal>
    ensures { Answers (plain (signed_decimal number)) out.old.items out.new.items result }
{
    let text = number.to_string(alloc)?;
    out.extend_from_slice(text.as_bytes())?;
    Ok(())
}

fn append_number(
    alloc: Global,
    kind: ValueKind,
    number: i64,
    out: &mut Vec<u8>,
) -> Result<(), ValueRefusal>
    ensures { Answers (number_reading kind number) out.old.items out.new.items result }
{
    match number_in_range(kind, number) {
        Ok(number) => append_decimal(alloc, number, out),
        Err(refusal) => Err(refusal),
    }
}

/// The number that a text spells, as an integer of this kind. Another form is Bad, and a number outside
/// the kind's range is Range. It takes no memory.
pub fn read_number(kind: ValueKind, text: &[u8]) -> Result<i64, ValueRefusal>
    ensures read { IsNumber (integer_reading kind text.now) result }
    ensures means { IfOk result (λ n. signed_digits_value 10 (signed_decimal n) ≡ n) }
{
    let text = trim_spaces(text);
    if !is_integer_text(text) {
        return Err(ValueRefusal::Bad);
    }
    match number_of(text) {
        Some(number) => number_in_range(kind, number),
        None => Err(ValueRefusal::Range),
    }
}

fn append_integer(
    alloc: Global,
    kind: ValueKind,
    text: &[u8],
    out: &mut Vec<u8>,
) -> Result<(), ValueRefusal>
    ensures { Answers (integer_reading kind text.now) out.old.items out.new.items result }
{
    match read_number(kind, text) {
        Ok(whole) => append_decimal(alloc, whole, out),
        Err(refusal) => Err(refusal),
    }
}

fn append_hex(alloc: Global, digits: &[u8], out: &mut Vec<u8>) -> Result<(), ValueRefusal>
    ensures { Answers (hex_reading (decode_of digits.now)) out.old.items out.new.items result }
{
    match hex::decode(alloc, digits) {
        Ok(bytes) => {
            out.extend_from_slice(&bytes)?;
            Ok(())
        }
        Err(FromHexError::OutOfMemory) => Err(ValueRefusal::NoMemory),
        Err(_) => Err(ValueRefusal::Bad),
    }
}

fn append_bytes(alloc: Global, text: &[u8], out: &mut Vec<u8>) -> Result<(), ValueRefusal>
    ensures { Answers (bytes_reading text.now) out.old.items out.new.items result }
{
    if is_hex_form(text) {
        append_hex(alloc, &text[2..], out)
    } else if has_backslash(text) {
        Err(ValueRefusal::Bad)
    } else {
        out.extend_from_slice(text)?;
        Ok(())
    }
}

fn append_short_bytes(alloc: Global, text: &[u8], out: &mut Vec<u8>) -> Result<(), ValueRefusal>
    ensures { Answers (bounded (bytes_reading text.now)) out.old.items out.new.items result }
{
    let mut plain = Vec::new(alloc);
    match append_bytes(alloc, text, &mut plain) {
        Ok(()) => append_plain(&plain, out),
        Err(refusal) => Err(refusal),
    }
}

/// Appends the plaintext of a value in text form, as `canonical_text` does, whatever its length: it is
/// never TooLong.
pub fn read_text(
    alloc: Global,
    kind: ValueKind,
    text: &[u8],
    out: &mut Vec<u8>,
) -> Result<(), ValueRefusal>
    ensures { Answers (reading kind text.now) out.old.items out.new.items result }
{
    match kind {
        ValueKind::Str => append_text(text, out),
        ValueKind::Bytes => append_bytes(alloc, text, out),
        ValueKind::Int32 | ValueKind::Int64 => append_integer(alloc, kind, text, out),
    }
}

/// Appends the canonical plaintext of a value in text form (PostgreSQL manual, "Numeric Types" and
/// "Binary Data Types", hex format). It is at most 2^18 bytes.
///
/// - Integers: spaces (0x20) at both ends fall away; then an optional sign and digits. Canonical is
///   decimal without leading zeros or `+`, and `-0` is `0`.
/// - Str: the bytes, where they are UTF-8 without a zero byte.
/// - Bytes: after `\x` pairs of hexadecimal digits of either case; without `\x` the bytes as they
///   are, where no backslash stands in them.
///
/// Refused, with `out` as it was: what is of another form is Bad, a number outside the kind's range
/// is Range, a longer canonical form is TooLong, and there may be no memory.
pub fn canonical_text(
    alloc: Global,
    kind: ValueKind,
    text: &[u8],
    out: &mut Vec<u8>,
) -> Result<(), ValueRefusal>
    ensures { Answers (canonical kind text.now) out.old.items out.new.items result }
{
    match kind {
        ValueKind::Str => append_short_text(text, out),
        ValueKind::Bytes => append_short_bytes(alloc, text, out),
        ValueKind::Int32 | ValueKind::Int64 => append_integer(alloc, kind, text, out),
    }
}

fn append_binary(
    alloc: Global,
    kind: ValueKind,
    declared: u32,
    bytes: &[u8],
    out: &mut Vec<u8>,
) -> Result<(), ValueRefusal>
    ensures { Answers (binary_reading kind declared bytes.now) out.old.items out.new.items result }
{
    if is_text_type(declared) {
        return append_integer(alloc, kind, bytes, out);
    }
    if bytes.len() != binary_size(kind, declared) {
        return Err(ValueRefusal::Bad);
    }
    append_number(alloc, kind, signed_of(bytes), out)
}

/// Appends the canonical plaintext of a value in binary form, under the type that the client
/// declared by its OID, 0 for none.
///
/// - Integers: under 17 (bytea), 25 (text) and 1043 (varchar) the bytes are read as text. Else they
///   are big-endian two's complement: 4 bytes under 23 (int4), 8 under 20 (int8), and else as many as
///   the kind has.
/// - Str: the bytes are read as text, under every type.
/// - Bytes: the bytes as they are, under every type.
///
/// Refused as by `canonical_text`; another length is Bad.
pub fn canonical_binary(
    alloc: Global,
    kind: ValueKind,
    declared: u32,
    bytes: &[u8],
    out: &mut Vec<u8>,
) -> Result<(), ValueRefusal>
    ensures { Answers (canonical_binary kind declared bytes.now) out.old.items out.new.items result }
{
    match kind {
        ValueKind::Str => append_short_text(bytes, out),
        ValueKind::Bytes => append_plain(bytes, out),
        ValueKind::Int32 | ValueKind::Int64 => append_binary(alloc, kind, declared, bytes, out),
    }
}
