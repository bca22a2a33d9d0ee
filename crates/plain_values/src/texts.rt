//! Tests of bytes.
ghost use Rattle.std.specs.Prelude.{◌≡◌, ◌==◌, reverse, not};
ghost use Rattle.std.specs.List.{list_all, list_any};
ghost use Rattle.std.specs.Str.{all_ascii_digits, is_utf8};
ghost use Rattle.std.specs.Str.Parse.{without_leading_sign};
ghost use Rattle.plain_values.specs.Values.{skip_spaces, trim_spaces, is_integer_text, is_plain_text, is_hex_form};

/// The text without spaces at its front.
fn skip_spaces(text: &[u8]) -> &[u8]
    ensures { result.now ≡ skip_spaces text.now }
{
    let mut rest = text;
    'each: while let [b' ', after @ ..] = rest {
        rest = after;
    }
    rest
}

/// The text without spaces at its end.
fn cut_spaces(text: &[u8]) -> &[u8]
    ensures { result.now ≡ reverse (skip_spaces (reverse text.now)) }
{
    let mut rest = text;
    'each: while let [before @ .., b' '] = rest {
        rest = before;
    }
    rest
}

/// The text without spaces at both ends.
pub(crate) fn trim_spaces(text: &[u8]) -> &[u8]
    ensures { result.now ≡ trim_spaces text.now }
{
    cut_spaces(skip_spaces(text))
}

fn are_digits(text: &[u8]) -> bool
    ensures { result ≡ all_ascii_digits text.now }
{
    'each: for byte in text {
        if !byte.is_ascii_digit() {
            return false;
        }
    }
    true
}

fn without_sign(text: &[u8]) -> &[u8]
    ensures { result.now ≡ without_leading_sign text.now }
{
    match text {
        [b'-' | b'+', rest @ ..] => rest,
        _ => text,
    }
}

/// Whether a text is an optional sign and digits.
pub(crate) fn is_integer_text(text: &[u8]) -> bool
    ensures { result ≡ is_integer_text text.now }
{
    let digits = without_sign(text);
    !digits.is_empty() && are_digits(digits)
}

fn has_no_zero(text: &[u8]) -> bool
    ensures { result ≡ list_all (λ b. not (b == 0)) text.now }
{
    'each: for byte in text {
        if *byte == 0 {
            return false;
        }
    }
    true
}

fn is_utf8(text: &[u8]) -> bool
    ensures { result ≡ is_utf8 text.now }
{
    match std::str::from_utf8(text) {
        Ok(_) => true,
        Err(_) => false,
    }
}

/// Whether some bytes are UTF-8 without a zero byte.
pub fn is_plain_text(text: &[u8]) -> bool
    ensures { result ≡ is_plain_text text.now }
{
    is_utf8(text) && has_no_zero(text)
}

/// Whether a backslash stands in a text.
pub(crate) fn has_backslash(text: &[u8]) -> bool
    ensures { result ≡ list_any (λ b. b == 92) text.now }
{
    'each: for byte in text {
        if *byte == b'\\' {
            return true;
        }
    }
    false
}

/// Whether a text begins with `\x`.
pub(crate) fn is_hex_form(text: &[u8]) -> bool
    ensures { result ≡ is_hex_form text.now }
{
    match text {
        [b'\\', b'x', ..] => true,
        _ => false,
    }
}
