//! Integers and their texts.
ghost use Rattle.std.specs.Prelude.{◌≡◌, ◌⊎◌, length, MatchOption, true, false};
ghost use Rattle.std.specs.Str.Parse.{signed_digits_value};
ghost use Rattle.plain_values.specs.Values.{is_integer_text, is_in_range, is_text_type, binary_size, signed_of};
ghost use Rattle.acra_base.specs.declared.kind.ValueKind.TheVariants.{Int64};

use acra_base::ValueKind;

/// The number that an integer's text spells; none outside 64 bits.
pub(crate) fn number_of(text: &[u8]) -> Option<i64>
    requires { is_integer_text text.now ≡ true }
    ensures { MatchOption result (is_in_range Int64 (signed_digits_value 10 text.now) ≡ false) (λ z. z ≡ signed_digits_value 10 text.now) }
{
    match std::str::from_utf8(text) {
        Ok(text) => match text.parse::<i64>() {
            Ok(number) => Some(number),
            Err(_) => None,
        },
        Err(_) => unreachable!(),
    }
}

/// Whether a number lies in the kind's range.
pub(crate) fn is_in_range(kind: ValueKind, number: i64) -> bool
    ensures { result ≡ is_in_range kind number }
{
    kind != ValueKind::Int32 || (-0x8000_0000 <= number && number <= 0x7fff_ffff)
}

/// Whether a value of the declared type comes as a text: bytea, text or varchar.
pub(crate) fn is_text_type(declared: u32) -> bool
    ensures { result ≡ is_text_type declared }
{
    declared == 17 || declared == 25 || declared == 1043
}

/// The number of bytes of a binary integer of the declared type.
pub(crate) fn binary_size(kind: ValueKind, declared: u32) -> usize
    ensures { result ≡ binary_size kind declared }
{
    if declared == 23 {
        4
    } else if declared == 20 || kind != ValueKind::Int32 {
        8
    } else {
        4
    }
}

/// The number of 4 or 8 bytes in big-endian two's complement.
pub(crate) fn signed_of(bytes: &[u8]) -> i64
    requires { (length bytes.now ≡ 4) ⊎ (length bytes.now ≡ 8) }
    ensures { result ≡ signed_of bytes.now }
{
    match bytes {
        [a, b, c, d] => i32::from_be_bytes([*a, *b, *c, *d]) as i64,
        [a, b, c, d, e, f, g, h] => i64::from_be_bytes([*a, *b, *c, *d, *e, *f, *g, *h]),
        _ => unreachable!(),
    }
}
