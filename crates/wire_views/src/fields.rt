//! Fields that are passed over.
ghost use Rattle.std.specs.Prelude.{◌≡◌, ◌<◌, ◌==◌, length, IfSome};
ghost use Rattle.std.specs.List.{position};
ghost use Rattle.byte_reader.specs.Fields.{str_at};
ghost use Rattle.pg_wire.specs.Bodies as bodies;
ghost use Rattle.wire_views.specs.Passing.{past, Passes, field_past, each_past, counted_past, ended_past, listed_past};

use crate::cells::{cell_at, u16_at, u32_at};

/// A field of a body.
#[derive(Clone, Copy, Debug, PartialEq, Eq)]
pub(crate) enum Field {
    /// A text and its zero byte.
    Text,
    /// A number of four bytes.
    Word,
    /// A number of two bytes, 0 or 1.
    Format,
    /// A cell, with its length.
    Cell,
    /// Two texts.
    Pair,
    /// A column of a RowDescription.
    Column,
    /// A code and a text.
    Error,
    /// A state of ReadyForQuery.
    State,
    /// A prepared statement or a portal.
    Target,
}

fn zero_at(bytes: &[u8]) -> Option<usize>
    ensures place { result ≡ position (λ b. b == 0) bytes.now }
    ensures inside { IfSome result (λ place. place < length bytes.now) }
{
    bytes.iter().position(|byte| *byte == 0)
}

#[tactic(auto, unfolding(byte_reader::specs::Fields::str_at))]
fn text_past(bytes: &[u8]) -> Result<&[u8], usize>
    ensures { Passes (λ x. x.now) result (past (str_at bytes.now)) }
{
    match zero_at(bytes) {
        Some(place) => Ok(&bytes[place + 1..]),
        None => Err(bytes.len()),
    }
}

#[tactic(auto, unfolding(pg_wire::specs::Bodies::format_at))]
fn format_past(bytes: &[u8]) -> Result<&[u8], usize>
    ensures { Passes (λ x. x.now) result (past (bodies.format_at bytes.now)) }
{
    let (format, rest) = u16_at(bytes)?;
    if format < 2 {
        Ok(rest)
    } else {
        Err(bytes.len())
    }
}

fn word_past(bytes: &[u8]) -> Result<&[u8], usize>
    ensures { Passes (λ x. x.now) result (field_past Field.Word bytes.now) }
{
    let (_, rest) = u32_at(bytes)?;
    Ok(rest)
}

fn cell_past(bytes: &[u8]) -> Result<&[u8], usize>
    ensures { Passes (λ x. x.now) result (past (bodies.cell_at bytes.now)) }
{
    let (_, rest) = cell_at(bytes)?;
    Ok(rest)
}

#[tactic(auto, unfolding(pg_wire::specs::Bodies::pair_at))]
fn pair_past(bytes: &[u8]) -> Result<&[u8], usize>
    ensures { Passes (λ x. x.now) result (past (bodies.pair_at bytes.now)) }
{
    text_past(text_past(bytes)?)
}

#[tactic(auto, unfolding(pg_wire::specs::Bodies::field_at))]
fn column_past(bytes: &[u8]) -> Result<&[u8], usize>
    ensures { Passes (λ x. x.now) result (past (bodies.field_at bytes.now)) }
{
    let rest = text_past(bytes)?;
    let (_, rest) = u32_at(rest)?;
    let (_, rest) = u16_at(rest)?;
    let (_, rest) = u32_at(rest)?;
    let (_, rest) = u16_at(rest)?;
    let (_, rest) = u32_at(rest)?;
    format_past(rest)
}

#[tactic(auto, unfolding(pg_wire::specs::Bodies::error_at))]
fn error_past(bytes: &[u8]) -> Result<&[u8], usize>
    ensures { Passes (λ x. x.now) result (past (bodies.error_at bytes.now)) }
{
    match bytes {
        [] => Err(0),
        [_, rest @ ..] => text_past(rest),
    }
}

#[tactic(auto, unfolding(pg_wire::specs::Bodies::state_at))]
fn state_past(bytes: &[u8]) -> Result<&[u8], usize>
    ensures { Passes (λ x. x.now) result (past (bodies.state_at bytes.now)) }
{
    match bytes {
        [] => Err(0),
        [state, rest @ ..] => {
            if *state == b'I' || *state == b'T' || *state == b'E' {
                Ok(rest)
            } else {
                Err(bytes.len())
            }
        }
    }
}

#[tactic(auto, unfolding(pg_wire::specs::Bodies::target_at))]
fn target_past(bytes: &[u8]) -> Result<&[u8], usize>
    ensures { Passes (λ x. x.now) result (past (bodies.target_at bytes.now)) }
{
    match bytes {
        [] => Err(0),
        [target, rest @ ..] => {
            if *target == b'S' || *target == b'P' {
                Ok(rest)
            } else {
                Err(bytes.len())
            }
        }
    }
}

/// What follows a field.
pub(crate) fn field_past(field: Field, bytes: &[u8]) -> Result<&[u8], usize>
    ensures { Passes (λ x. x.now) result (field_past field bytes.now) }
{
    match field {
        Field::Text => text_past(bytes),
        Field::Word => word_past(bytes),
        Field::Format => format_past(bytes),
        Field::Cell => cell_past(bytes),
        Field::Pair => pair_past(bytes),
        Field::Column => column_past(bytes),
        Field::Error => error_past(bytes),
        Field::State => state_past(bytes),
        Field::Target => target_past(bytes),
    }
}

/// What follows so many fields.
fn each_past(field: Field, count: u16, bytes: &[u8]) -> Result<&[u8], usize>
    ensures { Passes (λ x. x.now) result (each_past (field_past field) count bytes.now) }
{
    let mut rest = bytes;
    'fields: for _ in 0..count {
        match field_past(field, rest) {
            Ok(after) => rest = after,
            Err(left) => return Err(left),
        }
    }
    Ok(rest)
}

/// What follows a count and as many fields.
pub(crate) fn counted_past(field: Field, bytes: &[u8]) -> Result<&[u8], usize>
    ensures { Passes (λ x. x.now) result (counted_past (field_past field) bytes.now) }
{
    let (count, rest) = u16_at(bytes)?;
    each_past(field, count, rest)
}

/// What follows fields up to a zero byte in a field's place.
pub(crate) fn listed_past(field: Field, bytes: &[u8]) -> Result<&[u8], usize>
    ensures { Passes (λ x. x.now) result (listed_past (field_past field) bytes.now) }
{
    let mut rest = bytes;
    'fields: for _ in 0..bytes.len() {
        let [first, behind @ ..] = rest else {
            return Err(0);
        };
        if *first == 0 {
            return Ok(behind);
        }
        match field_past(field, rest) {
            Ok(after) => rest = after,
            Err(left) => return Err(left),
        }
    }
    Err(rest.len())
}
