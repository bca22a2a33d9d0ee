//! What the text of a policy says, before any rule but the first is tested.
ghost use Rattle.std.specs.Prelude.{◌≡◌, IfOk, MatchResult, map, option_map, unwrap_or, is_some, codes};
ghost use Rattle.serde_json.specs.View.{view, members_view};
ghost use Rattle.serde_json.specs.Data.{no_members};
ghost use Rattle.serde_json.specs.Find.{as_object};
ghost use Rattle.json_rules.specs.Members.{all_members, items_at, members_at};
ghost use Rattle.std.specs.List.{list_all};
ghost use Rattle.enc_config.specs.Texts.{is_sealing_member, is_showing_member, is_text_member, is_flag_member, is_entry_member, is_entry, entry_text, is_text_array, is_text_object, is_schema_member, is_schema, type_texts, schema_text, schemas_of};

use crate::defaults::default_plain;
use crate::words::kind_from;
use acra_base::{Bytes, NoMemory, Sequence};
use json_rules::{
    all_members_texts, all_texts, count_at, flag_at, items_at, objects_at, plain_text, read_json,
    text_at, texts_at,
};
use serde_json::{Map, Value};
use std::alloc::Global;

/// A column that isn't protected, and the word of its type.
#[derive(Drop)]
pub(crate) struct TypeText {
    pub(crate) column: Bytes,
    pub(crate) word: Bytes,
}

/// What an entry of `encrypted` says, member by member.
#[derive(Drop)]
pub(crate) struct EntryText {
    /// Each member is listed and has its JSON type, and none is missing.
    pub(crate) is_well_typed: bool,
    pub(crate) column: Bytes,
    pub(crate) client_id: Option<Bytes>,
    pub(crate) data_type: Option<Bytes>,
    pub(crate) searchable: Option<bool>,
    pub(crate) masking: Option<Bytes>,
    pub(crate) plaintext_length: Option<u64>,
    pub(crate) plaintext_side: Option<Bytes>,
    pub(crate) token_type: Option<Bytes>,
    pub(crate) tokenized: Option<bool>,
    pub(crate) consistent_tokenization: Option<bool>,
    pub(crate) response_on_fail: Option<Bytes>,
    pub(crate) default_data_value: Option<Bytes>,
    /// The plaintext of the default value; none where it is no value of the kind, or too long.
    pub(crate) default_plain: Option<Bytes>,
    pub(crate) crypto_envelope: Option<Bytes>,
}

/// What a schema says, member by member.
#[derive(Drop)]
pub(crate) struct SchemaText {
    /// Each member but the entries is listed and has its JSON type, and none is missing.
    pub(crate) is_well_typed: bool,
    pub(crate) table: Bytes,
    pub(crate) columns: Sequence<Bytes>,
    pub(crate) entries: Sequence<EntryText>,
    pub(crate) types: Sequence<TypeText>,
    pub(crate) key: Option<Bytes>,
}

fn is_sealing_member(name: &str) -> bool
    ensures { result ≡ is_sealing_member name.now }
{
    name == "column"
        || name == "client_id"
        || name == "data_type"
        || name == "token_type"
        || name == "crypto_envelope"
}

fn is_showing_member(name: &str) -> bool
    ensures { result ≡ is_showing_member name.now }
{
    name == "masking"
        || name == "plaintext_side"
        || name == "response_on_fail"
        || name == "default_data_value"
}

fn is_text_member(name: &str) -> bool
    ensures { result ≡ is_text_member name.now }
{
    is_sealing_member(name) || is_showing_member(name)
}

fn is_flag_member(name: &str) -> bool
    ensures { result ≡ is_flag_member name.now }
{
    name == "searchable" || name == "tokenized" || name == "consistent_tokenization"
}

fn is_entry_member(name: &str, value: &Value) -> bool
    ensures { result ≡ is_entry_member name.now (view value.now) }
{
    if is_text_member(name) {
        value.is_string()
    } else if is_flag_member(name) {
        value.is_boolean()
    } else {
        name == "plaintext_length" && value.is_u64()
    }
}

fn are_entry_members(members: &Map<String, Value>) -> bool
    ensures { result ≡ all_members is_entry_member (members_view members.now.entries) }
{
    'each: for (name, value) in members.iter() {
        if !is_entry_member(name.as_str(), value) {
            return false;
        }
    }
    true
}

fn is_entry(value: &Value) -> bool
    ensures { result ≡ is_entry (view value.now) }
{
    match value.as_object() {
        Some(members) => are_entry_members(members) && value.get("column").is_some(),
        None => false,
    }
}

fn entry_text(alloc: Global, value: &Value) -> Result<EntryText, NoMemory>
    ensures { IfOk result (λ e. e ≡ entry_text (view value.now)) }
{
    let data_type = text_at(alloc, value, "data_type")?;
    let token_type = text_at(alloc, value, "token_type")?;
    let default_data_value = text_at(alloc, value, "default_data_value")?;
    let default_plain = default_plain(
        alloc,
        kind_from(&data_type, &token_type),
        &default_data_value,
    )?;
    Ok(EntryText {
        is_well_typed: is_entry(value),
        column: match text_at(alloc, value, "column")? {
            Some(column) => column,
            None => Bytes::new(alloc),
        },
        client_id: text_at(alloc, value, "client_id")?,
        data_type,
        searchable: flag_at(value, "searchable"),
        masking: text_at(alloc, value, "masking")?,
        plaintext_length: count_at(value, "plaintext_length"),
        plaintext_side: text_at(alloc, value, "plaintext_side")?,
        token_type,
        tokenized: flag_at(value, "tokenized"),
        consistent_tokenization: flag_at(value, "consistent_tokenization"),
        response_on_fail: text_at(alloc, value, "response_on_fail")?,
        default_data_value,
        default_plain,
        crypto_envelope: text_at(alloc, value, "crypto_envelope")?,
    })
}

fn is_text_array(value: &Value) -> bool
    ensures { result ≡ is_text_array (view value.now) }
{
    match value.as_array() {
        Some(items) => all_texts(items),
        None => false,
    }
}

fn is_text_object(value: &Value) -> bool
    ensures { result ≡ is_text_object (view value.now) }
{
    match value.as_object() {
        Some(members) => all_members_texts(members),
        None => false,
    }
}

fn is_schema_member(name: &str, value: &Value) -> bool
    ensures { result ≡ is_schema_member name.now (view value.now) }
{
    if name == "table" || name == "key" {
        value.is_string()
    } else if name == "columns" {
        is_text_array(value)
    } else if name == "encrypted" {
        value.is_array()
    } else {
        name == "types" && is_text_object(value)
    }
}

fn are_schema_members(members: &Map<String, Value>) -> bool
    ensures { result ≡ all_members is_schema_member (members_view members.now.entries) }
{
    'each: for (name, value) in members.iter() {
        if !is_schema_member(name.as_str(), value) {
            return false;
        }
    }
    true
}

fn is_schema(value: &Value) -> bool
    ensures { result ≡ is_schema (view value.now) }
{
    match value.as_object() {
        Some(members) => {
            are_schema_members(members)
                && value.get("table").is_some()
                && value.get("columns").is_some()
        }
        None => false,
    }
}

fn words_of(alloc: Global, members: &Map<String, Value>) -> Result<Sequence<TypeText>, NoMemory>
    ensures { IfOk result (λ t. t ≡ type_texts (members_view members.now.entries)) }
{
    let mut texts = Vec::new(alloc);
    'each: for (name, word) in members.iter() {
        texts.push(TypeText {
            column: Bytes::copied(alloc, name.as_str().as_bytes())?,
            word: plain_text(alloc, word)?,
        })?;
    }
    Ok(Sequence::from_vec(texts))
}

fn type_texts(alloc: Global, value: &Value) -> Result<Sequence<TypeText>, NoMemory>
    ensures { IfOk result (λ t. t ≡ type_texts (members_at (codes "types") (view value.now))) }
{
    match value.get("types").and_then(Value::as_object) {
        Some(members) => words_of(alloc, members),
        None => Ok(Sequence::new(alloc)),
    }
}

fn entry_texts(alloc: Global, value: &Value) -> Result<Sequence<EntryText>, NoMemory>
    ensures { IfOk result (λ t. t ≡ map entry_text (items_at (codes "encrypted") (view value.now))) }
{
    let items = items_at(value, "encrypted");
    let mut texts = Vec::new(alloc);
    'each: for item in items {
        texts.push(entry_text(alloc, item)?)?;
    }
    Ok(Sequence::from_vec(texts))
}

fn schema_text(alloc: Global, value: &Value) -> Result<SchemaText, NoMemory>
    ensures { IfOk result (λ s. s ≡ schema_text (view value.now)) }
{
    Ok(SchemaText {
        is_well_typed: is_schema(value),
        table: match text_at(alloc, value, "table")? {
            Some(table) => table,
            None => Bytes::new(alloc),
        },
        columns: texts_at(alloc, value, "columns")?,
        entries: entry_texts(alloc, value)?,
        types: type_texts(alloc, value)?,
        key: text_at(alloc, value, "key")?,
    })
}

fn schema_texts(alloc: Global, items: &[Value]) -> Result<Sequence<SchemaText>, NoMemory>
    ensures { IfOk result (λ t. t ≡ map schema_text (map view items.now)) }
{
    let mut texts = Vec::new(alloc);
    'each: for item in items {
        texts.push(schema_text(alloc, item)?)?;
    }
    Ok(Sequence::from_vec(texts))
}

/// What the schemas of a text say; none where the text is not JSON or its top is another.
pub(crate) fn read_texts(
    alloc: Global,
    text: &[u8],
) -> Result<Option<Sequence<SchemaText>>, NoMemory>
    ensures { IfOk result (λ o. o ≡ schemas_of text.now) }
{
    let Some(value) = read_json(alloc, text)? else {
        return Ok(None);
    };
    match objects_at(&value, "schemas") {
        Some(items) => Ok(Some(schema_texts(alloc, items)?)),
        None => Ok(None),
    }
}
