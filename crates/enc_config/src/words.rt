//! The words of a policy.
ghost use Rattle.std.specs.Prelude.{◌≡◌, bytes_eq};
ghost use Rattle.std.specs.List.{list_all};
ghost use Rattle.acra_base.specs.Names.{is_name};
ghost use Rattle.plain_values.specs.Values.{is_integer};
ghost use Rattle.enc_config.specs.Words.{kind_word, type_word, is_among, has_twice, kind_or, kind_from};

use acra_base::{Bytes, ValueKind};
use json_rules::is_name;

/// Whether some bytes are those of a word.
pub(crate) fn is_word(text: &[u8], word: &str) -> bool
    ensures { result ≡ bytes_eq text.now word.now }
{
    text == word.as_bytes()
}

/// The kind that a word of `data_type` or `token_type` names.
pub(crate) fn kind_word(word: &[u8]) -> Option<ValueKind>
    ensures { result ≡ kind_word word.now }
{
    if is_word(word, "str") {
        Some(ValueKind::Str)
    } else if is_word(word, "bytes") {
        Some(ValueKind::Bytes)
    } else if is_word(word, "int32") {
        Some(ValueKind::Int32)
    } else if is_word(word, "int64") {
        Some(ValueKind::Int64)
    } else {
        None
    }
}

/// The kind that a word of `types` names.
pub(crate) fn type_word(word: &[u8]) -> Option<ValueKind>
    ensures { result ≡ type_word word.now }
{
    if is_word(word, "text") {
        Some(ValueKind::Str)
    } else if is_word(word, "bytea") {
        Some(ValueKind::Bytes)
    } else if is_word(word, "int4") {
        Some(ValueKind::Int32)
    } else if is_word(word, "int8") {
        Some(ValueKind::Int64)
    } else {
        None
    }
}

pub(crate) fn is_integer(kind: ValueKind) -> bool
    ensures { result ≡ is_integer kind }
{
    matches!(kind, ValueKind::Int32 | ValueKind::Int64)
}

/// Whether each text is a name.
pub(crate) fn are_names(texts: &[Bytes]) -> bool
    ensures { result ≡ list_all is_name texts.now }
{
    'each: for text in texts {
        if !is_name(text.as_slice()) {
            return false;
        }
    }
    true
}

/// Whether a name is one of these.
pub(crate) fn is_among(name: &[u8], names: &[Bytes]) -> bool
    ensures { result ≡ is_among name.now names.now }
{
    'each: for other in names {
        if name == other.as_slice() {
            return true;
        }
    }
    false
}

/// Whether a name stands twice.
pub(crate) fn has_twice(names: &[Bytes]) -> bool
    ensures { result ≡ has_twice names.now }
{
    'each: for at in 0..names.len() {
        if is_among(names[at].as_slice(), &names[at + 1..]) {
            return true;
        }
    }
    false
}

fn kind_or(word: &Option<Bytes>, other: ValueKind) -> ValueKind
    ensures { result ≡ kind_or word.now other }
{
    match word {
        Some(word) => kind_word(word.as_slice()).unwrap_or(other),
        None => other,
    }
}

/// The kind of an entry's values: that of `data_type`, else of `token_type`, else bytes.
pub(crate) fn kind_from(data_type: &Option<Bytes>, token_type: &Option<Bytes>) -> ValueKind
    ensures { result ≡ kind_from data_type.now token_type.now }
{
    kind_or(data_type, kind_or(token_type, ValueKind::Bytes))
}
