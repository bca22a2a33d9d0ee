ghost use Rattle.std.specs.Prelude.{◌≡◌};
ghost use Rattle.sql_tokens.specs.Classes as classes;

/// What a byte begins.
#[derive(Clone, Copy, Debug, PartialEq, Eq)]
pub enum Class {
    /// What separates tokens.
    Space,
    /// A word without quotes.
    Word,
    /// A number.
    Digit,
    /// A name in quotes.
    Name,
    /// A string.
    Text,
    /// A parameter.
    Parameter,
    /// A sign or a comment, or nothing.
    Mark,
}

/// What the byte begins.
pub fn class_of(byte: u8) -> Class
    ensures { result ≡ classes.class_of byte }
{
    match byte {
        b' ' | b'\t' | b'\n' | b'\r' | b'\x0c' => Class::Space,
        b'a'..=b'z' | b'A'..=b'Z' | b'_' => Class::Word,
        b'0'..=b'9' => Class::Digit,
        b'"' => Class::Name,
        b'\'' => Class::Text,
        b'$' => Class::Parameter,
        _ => Class::Mark,
    }
}
