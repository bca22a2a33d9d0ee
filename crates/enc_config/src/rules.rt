//! The rules of a policy, each a test of what the text says.
ghost use Rattle.std.specs.Prelude.{◌≡◌, bytes_eq, is_some, not, true, false, nat_le};
ghost use Rattle.std.specs.List.{list_all, list_any};
ghost use Rattle.std.specs.Option.{option_map_or};
ghost use Rattle.acra_base.specs.Names.{is_name};
ghost use Rattle.enc_config.specs.Words.{type_word};
ghost use Rattle.enc_config.specs.Rules.{kind_of, is_mask, is_side, is_masking, has_bad_mask, is_response, shows_default, has_bad_response, has_bad_default, is_other, is_no_kind, differ, is_too_large, has_bad_name, stands_twice, is_plain, has_no_plain_column, has_bad_type, has_bad_word, are_two, has_two_shapes, has_bad_token, has_token, schema_breaks, entry_breaks};

use crate::texts::{EntryText, SchemaText, TypeText};
use crate::words::{
    are_names, has_twice, is_among, is_integer, is_word, kind_from, kind_word, type_word,
};
use acra_base::{Bytes, ValueKind};
use json_rules::is_name;
use plain_values::is_plain_text;

pub(crate) fn kind_of(entry: &EntryText) -> ValueKind
    ensures { result ≡ kind_of entry.now }
{
    kind_from(&entry.data_type, &entry.token_type)
}

fn is_other(word: &str, text: &Option<Bytes>) -> bool
    ensures { result ≡ is_other word.now text.now }
{
    match text {
        Some(text) => !is_word(text.as_slice(), word),
        None => false,
    }
}

fn is_no_kind(text: &Option<Bytes>) -> bool
    ensures { result ≡ is_no_kind text.now }
{
    match text {
        Some(text) => kind_word(text.as_slice()).is_none(),
        None => false,
    }
}

fn differ(first: &Option<Bytes>, second: &Option<Bytes>) -> bool
    ensures { result ≡ differ first.now second.now }
{
    match (first, second) {
        (Some(first), Some(second)) => first.as_slice() != second.as_slice(),
        _ => false,
    }
}

fn is_too_large(schema: &SchemaText) -> bool
    ensures { result ≡ is_too_large schema.now }
{
    schema.columns.as_slice().len() > 256 || schema.entries.as_slice().len() > 256
}

fn is_key_name(key: &Option<Bytes>) -> bool
    ensures { result ≡ option_map_or is_name key.now true }
{
    match key {
        Some(key) => is_name(key.as_slice()),
        None => true,
    }
}

fn has_bad_name(schema: &SchemaText) -> bool
    ensures { result ≡ has_bad_name schema.now }
{
    !(is_name(schema.table.as_slice())
        && are_names(schema.columns.as_slice())
        && is_key_name(&schema.key))
}

fn has_table(table: &[u8], schemas: &[SchemaText]) -> bool
    ensures { result ≡ list_any (λ d. bytes_eq table.now d.table) schemas.now }
{
    'each: for schema in schemas {
        if table == schema.table.as_slice() {
            return true;
        }
    }
    false
}

fn has_entry(column: &[u8], entries: &[EntryText]) -> bool
    ensures { result ≡ list_any (λ e. bytes_eq column.now e.column) entries.now }
{
    'each: for entry in entries {
        if column == entry.column.as_slice() {
            return true;
        }
    }
    false
}

fn stands_twice(earlier: &[SchemaText], schema: &SchemaText) -> bool
    ensures { result ≡ stands_twice earlier.now schema.now }
{
    has_table(schema.table.as_slice(), earlier) || has_twice(schema.columns.as_slice())
}

/// Whether a name is that of a column that no entry protects.
fn is_plain(schema: &SchemaText, column: &[u8]) -> bool
    ensures { result ≡ is_plain schema.now column.now }
{
    is_among(column, schema.columns.as_slice()) && !has_entry(column, schema.entries.as_slice())
}

fn are_plain(schema: &SchemaText, types: &[TypeText]) -> bool
    ensures { result ≡ list_all (λ t. is_plain schema.now t.column) types.now }
{
    'each: for text in types {
        if !is_plain(schema, text.column.as_slice()) {
            return false;
        }
    }
    true
}

fn is_key_plain(schema: &SchemaText) -> bool
    ensures { result ≡ option_map_or (is_plain schema.now) schema.now.key true }
{
    match &schema.key {
        Some(key) => is_plain(schema, key.as_slice()),
        None => true,
    }
}

fn has_no_plain_column(schema: &SchemaText) -> bool
    ensures { result ≡ has_no_plain_column schema.now }
{
    !(are_plain(schema, schema.types.as_slice()) && is_key_plain(schema))
}

fn has_bad_type(schema: &SchemaText) -> bool
    ensures { result ≡ has_bad_type schema.now }
{
    'each: for text in schema.types.as_slice() {
        if type_word(text.word.as_slice()).is_none() {
            return true;
        }
    }
    false
}

fn has_bad_word(entry: &EntryText) -> bool
    ensures { result ≡ has_bad_word entry.now }
{
    is_no_kind(&entry.data_type)
        || is_no_kind(&entry.token_type)
        || is_other("acrablock", &entry.crypto_envelope)
        || differ(&entry.data_type, &entry.token_type)
}

fn are_two(first: bool, second: bool, third: bool) -> bool
    ensures { result ≡ are_two first second third }
{
    (first && second) || (first && third) || (second && third)
}

fn has_two_shapes(entry: &EntryText) -> bool
    ensures { result ≡ has_two_shapes entry.now }
{
    are_two(
        entry.searchable.unwrap_or(false),
        entry.masking.is_some(),
        entry.token_type.is_some(),
    )
}

fn is_masked_by(mask: &Option<Bytes>) -> bool
    ensures { result ≡ option_map_or is_mask mask.now false }
{
    match mask {
        Some(mask) => mask.as_slice().len() <= 64 && is_plain_text(mask.as_slice()),
        None => false,
    }
}

fn is_short(length: Option<u64>) -> bool
    ensures { result ≡ option_map_or (λ n. nat_le n 262144) length false }
{
    match length {
        Some(length) => length <= 262144,
        None => false,
    }
}

fn is_sided(side: &Option<Bytes>) -> bool
    ensures { result ≡ option_map_or is_side side.now false }
{
    match side {
        Some(side) => is_word(side.as_slice(), "left") || is_word(side.as_slice(), "right"),
        None => false,
    }
}

fn is_masking(entry: &EntryText) -> bool
    ensures { result ≡ is_masking entry.now }
{
    is_masked_by(&entry.masking)
        && is_short(entry.plaintext_length)
        && is_sided(&entry.plaintext_side)
        && !is_integer(kind_of(entry))
}

fn has_bad_mask(entry: &EntryText) -> bool
    ensures { result ≡ has_bad_mask entry.now }
{
    (entry.masking.is_some() || entry.plaintext_length.is_some() || entry.plaintext_side.is_some())
        && !is_masking(entry)
}

fn is_response(text: &Option<Bytes>) -> bool
    ensures { result ≡ option_map_or is_response text.now true }
{
    match text {
        Some(text) => {
            is_word(text.as_slice(), "ciphertext") || is_word(text.as_slice(), "default_value")
        }
        None => true,
    }
}

/// Whether strangers are shown the default value.
pub(crate) fn shows_default(entry: &EntryText) -> bool
    ensures { result ≡ shows_default entry.now }
{
    match &entry.response_on_fail {
        Some(text) => is_word(text.as_slice(), "default_value"),
        None => false,
    }
}

fn has_bad_response(entry: &EntryText) -> bool
    ensures { result ≡ has_bad_response entry.now }
{
    !is_response(&entry.response_on_fail)
        || (shows_default(entry) && entry.default_data_value.is_none())
        || (entry.default_data_value.is_some() && !shows_default(entry))
}

fn has_bad_default(entry: &EntryText) -> bool
    ensures { result ≡ has_bad_default entry.now }
{
    entry.default_data_value.is_some() && entry.default_plain.is_none()
}

fn has_bad_token(entry: &EntryText) -> bool
    ensures { result ≡ has_bad_token entry.now }
{
    let names_token = entry.consistent_tokenization.is_some() || entry.tokenized.is_some();
    (names_token && entry.token_type.is_none())
        || !entry.tokenized.unwrap_or(true)
        || (entry.response_on_fail.is_some()
            && (entry.masking.is_some() || entry.token_type.is_some()))
}

/// Tokens are barred until they are served.
fn has_token(entry: &EntryText) -> bool
    ensures { result ≡ has_token entry.now }
{
    entry.token_type.is_some()
}

/// Whether a schema breaks the rule of this number; `earlier` are the schemas before it.
pub(crate) fn schema_breaks(rule: u8, earlier: &[SchemaText], schema: &SchemaText) -> bool
    ensures { result ≡ schema_breaks rule earlier.now schema.now }
{
    match rule {
        2 => is_too_large(schema),
        3 => !schema.is_well_typed,
        4 => has_bad_name(schema),
        5 => stands_twice(earlier, schema),
        6 => has_no_plain_column(schema),
        8 => has_bad_type(schema),
        _ => false,
    }
}

/// Whether an entry of a schema breaks the rule of this number; `earlier` are the entries before it.
pub(crate) fn entry_breaks(
    rule: u8,
    schema: &SchemaText,
    earlier: &[EntryText],
    entry: &EntryText,
) -> bool
    ensures { result ≡ entry_breaks rule schema.now earlier.now entry.now }
{
    match rule {
        3 => !entry.is_well_typed,
        5 => has_entry(entry.column.as_slice(), earlier),
        6 => !is_among(entry.column.as_slice(), schema.columns.as_slice()),
        8 => has_bad_word(entry),
        9 => has_two_shapes(entry),
        10 => has_bad_mask(entry),
        11 => has_bad_token(entry),
        12 => has_bad_response(entry),
        13 => has_bad_default(entry),
        14 => has_token(entry),
        _ => false,
    }
}
