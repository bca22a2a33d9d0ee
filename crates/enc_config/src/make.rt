//! The policy that a text's schemas come to.
ghost use Rattle.std.specs.Prelude.{◌≡◌, ◌≤◌, ◌<◌, ℕ, IfOk, IfSome, IsSome, true, false, map, unwrap_or, bytes_eq, length, option_map, []};
ghost use Rattle.std.specs.List.{find, position_from, list_any, HoldsAt};
ghost use Rattle.acra_base.specs.Names.{is_name};
ghost use Rattle.enc_config.specs.Rules.{has_bad_mask};
ghost use Rattle.enc_config.specs.Policies.{owner_of, is_left, unmasked_shape, shape_of, strangers_of, entry_rule, type_of, plain_rule, column_rule, column_of, key_of, table_of, policy_of, IsSound};

use crate::policy::{Column, ColumnRule, Policy, Shape, Strangers, Table};
use crate::rules::{kind_of, shows_default};
use crate::texts::{EntryText, SchemaText, TypeText};
use crate::words::{is_word, type_word};
use acra_base::{Bytes, ClientId, Name, NoMemory, Sequence, ValueKind};
use std::alloc::Global;

fn owner_of(text: &Option<Bytes>) -> Option<ClientId>
    ensures { result ≡ owner_of text.now }
{
    match text {
        Some(text) => match ClientId::read(text.as_slice()) {
            Ok(owner) => Some(owner),
            Err(_) => None,
        },
        None => None,
    }
}

fn is_left(side: &Option<Bytes>) -> bool
    ensures { result ≡ is_left side.now }
{
    match side {
        Some(side) => is_word(side.as_slice(), "left"),
        None => false,
    }
}

fn unmasked_shape(entry: &EntryText) -> Shape
    ensures { result ≡ unmasked_shape entry.now }
{
    if entry.token_type.is_some() {
        Shape::Token {
            consistent: entry.consistent_tokenization.unwrap_or(false),
        }
    } else if entry.searchable.unwrap_or(false) {
        Shape::Searchable
    } else {
        Shape::Sealed
    }
}

/// How many bytes or characters a masked entry shows.
fn shown_length(entry: &EntryText) -> u32
    requires unbroken { has_bad_mask entry.now ≡ false }
    requires masked { IsSome entry.now.masking }
    ensures { result ≡ unwrap_or entry.now.plaintext_length 0 }
{
    match entry.plaintext_length {
        Some(length) => length as u32,
        None => 0,
    }
}

fn shape_of(alloc: Global, entry: &EntryText) -> Result<Shape, NoMemory>
    requires { has_bad_mask entry.now ≡ false }
    ensures { IfOk result (λ s. s ≡ shape_of entry.now) }
{
    match &entry.masking {
        Some(mask) => Ok(Shape::Masked {
            left: is_left(&entry.plaintext_side),
            length: shown_length(entry),
            mask: Bytes::copied(alloc, mask.as_slice())?,
        }),
        None => Ok(unmasked_shape(entry)),
    }
}

fn default_of(alloc: Global, entry: &EntryText) -> Result<Bytes, NoMemory>
    ensures { IfOk result (λ t. t ≡ unwrap_or entry.now.default_plain []) }
{
    match &entry.default_plain {
        Some(plain) => Bytes::copied(alloc, plain.as_slice()),
        None => Ok(Bytes::new(alloc)),
    }
}

fn strangers_of(alloc: Global, entry: &EntryText) -> Result<Strangers, NoMemory>
    ensures { IfOk result (λ s. s ≡ strangers_of entry.now) }
{
    if entry.masking.is_some() {
        Ok(Strangers::Mask)
    } else if entry.token_type.is_some() {
        Ok(Strangers::Token)
    } else if shows_default(entry) {
        Ok(Strangers::Default(default_of(alloc, entry)?))
    } else {
        Ok(Strangers::Stored)
    }
}

fn entry_rule(alloc: Global, entry: &EntryText) -> Result<ColumnRule, NoMemory>
    requires { has_bad_mask entry.now ≡ false }
    ensures { IfOk result (λ r. r ≡ entry_rule entry.now) }
{
    Ok(ColumnRule {
        owner: owner_of(&entry.client_id),
        shape: shape_of(alloc, entry)?,
        value: kind_of(entry),
        strangers: strangers_of(alloc, entry)?,
    })
}

fn type_of(types: &[TypeText], column: &[u8]) -> ValueKind
    ensures { result ≡ type_of types.now column.now }
{
    'each: for text in types {
        if column == text.column.as_slice() {
            return type_word(text.word.as_slice()).unwrap_or(ValueKind::Str);
        }
    }
    ValueKind::Str
}

fn plain_rule(schema: &SchemaText, column: &[u8]) -> ColumnRule
    ensures { result ≡ plain_rule schema.now column.now }
{
    ColumnRule {
        owner: None,
        shape: Shape::Plain,
        value: type_of(schema.types.as_slice(), column),
        strangers: Strangers::Stored,
    }
}

/// The entry of a column.
fn entry_of<'a>(entries: &'a [EntryText], column: &[u8]) -> Option<&'a EntryText>
    ensures { option_map (λ e. e.now) result ≡ find (λ e. bytes_eq column.now e.column) entries.now }
{
    'each: for entry in entries {
        if column == entry.column.as_slice() {
            return Some(entry);
        }
    }
    None
}

fn column_rule(alloc: Global, schema: &SchemaText, column: &[u8]) -> Result<ColumnRule, NoMemory>
    requires { list_any has_bad_mask schema.now.entries ≡ false }
    ensures { IfOk result (λ r. r ≡ column_rule schema.now column.now) }
{
    match entry_of(schema.entries.as_slice(), column) {
        Some(entry) => entry_rule(alloc, entry),
        None => Ok(plain_rule(schema, column)),
    }
}

fn column_of(alloc: Global, schema: &SchemaText, name: &Bytes) -> Result<Column, NoMemory>
    requires masks { list_any has_bad_mask schema.now.entries ≡ false }
    requires name { is_name name.now ≡ true }
    ensures { IfOk result (λ c. c ≡ column_of schema.now name.now) }
{
    Ok(Column {
        name: Name::new(Bytes::copied(alloc, name.as_slice())?),
        rule: column_rule(alloc, schema, name.as_slice())?,
    })
}

fn columns_of(alloc: Global, schema: &SchemaText) -> Result<Sequence<Column>, NoMemory>
    requires { IsSound schema.now }
    ensures { IfOk result (λ c. c ≡ map (column_of schema.now) schema.now.columns) }
{
    let names = schema.columns.as_slice();
    let mut columns = Vec::new(alloc);
    'each: for name in names {
        columns.push(column_of(alloc, schema, name)?)?;
    }
    Ok(Sequence::from_vec(columns))
}

fn place_of_name(name: &[u8], names: &[Bytes]) -> Option<usize>
    ensures place { result ≡ position_from (bytes_eq name.now) 0 names.now }
    ensures within { IfSome result (λ i. i < length names.now) }
{
    'each: for place in 0..names.len() {
        if name == names[place].as_slice() {
            return Some(place);
        }
    }
    None
}

fn key_of(key: &Option<Bytes>, columns: &[Bytes]) -> Option<u16>
    requires { length columns.now ≤ 256 }
    ensures { result ≡ key_of key.now columns.now }
{
    match key {
        Some(key) => match place_of_name(key.as_slice(), columns) {
            Some(place) => Some(place as u16),
            None => None,
        },
        None => None,
    }
}

fn table_of(alloc: Global, schema: &SchemaText) -> Result<Table, NoMemory>
    requires { IsSound schema.now }
    ensures { IfOk result (λ t. t ≡ table_of schema.now) }
{
    Ok(Table {
        name: Name::new(Bytes::copied(alloc, schema.table.as_slice())?),
        columns: columns_of(alloc, schema)?,
        key: key_of(&schema.key, schema.columns.as_slice()),
    })
}

/// The policy of schemas that break no rule.
pub(crate) fn policy_of(alloc: Global, schemas: &[SchemaText]) -> Result<Policy, NoMemory>
    requires sizes { length schemas.now ≤ 256 }
    requires each { (i : ℕ) → i < length schemas.now → HoldsAt IsSound schemas.now i }
    ensures { IfOk result (λ p. p ≡ policy_of schemas.now) }
{
    let mut tables = Vec::new(alloc);
    'each: for place in 0..schemas.len() {
        tables.push(table_of(alloc, &schemas[place])?)?;
    }
    Ok(Policy::new(Sequence::from_vec(tables)))
}
