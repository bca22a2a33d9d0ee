//! What stands before a record's seal.
ghost use Rattle.std.specs.Prelude.{◌≡◌, nat_lt};
ghost use Rattle.byte_reader.specs.Readers.{Gives};
ghost use Rattle.token_rule.specs.Rule.{number_count};
ghost use Rattle.token_records.specs.Reading.{kind_of, mark_of, kind_at, mark_at, token_at, front_behind, front_at, shown};

use acra_base::ValueKind;
use byte_reader::{Unread, array_of, be_u64_of, byte_of, le_u64_of, slice_of};

/// The fields before a record's seal.
#[derive(Clone, Copy)]
pub(crate) struct Front<'a> {
    pub kind: ValueKind,
    pub consistent: bool,
    pub owner: &'a [u8],
    pub serial: u64,
    pub token: u64,
    pub nonce: [u8; 12],
}

fn kind_of(byte: u8) -> Option<ValueKind>
    ensures { result ≡ kind_of byte }
{
    match byte {
        0 => Some(ValueKind::Int32),
        1 => Some(ValueKind::Int64),
        2 => Some(ValueKind::Str),
        3 => Some(ValueKind::Bytes),
        _ => None,
    }
}

fn mark_of(byte: u8) -> Option<bool>
    ensures { result ≡ mark_of byte }
{
    match byte {
        0 => Some(false),
        1 => Some(true),
        _ => None,
    }
}

fn kind_at(bytes: &[u8]) -> Result<(ValueKind, &[u8]), Unread>
    ensures { Gives (λ x. (x.0, x.1.now)) result (kind_at bytes.now) }
{
    let (byte, rest) = byte_of(bytes)?;
    match kind_of(byte) {
        Some(kind) => Ok((kind, rest)),
        None => Err(Unread::At { left: bytes.len() }),
    }
}

fn mark_at(bytes: &[u8]) -> Result<(bool, &[u8]), Unread>
    ensures { Gives (λ x. (x.0, x.1.now)) result (mark_at bytes.now) }
{
    let (byte, rest) = byte_of(bytes)?;
    match mark_of(byte) {
        Some(mark) => Ok((mark, rest)),
        None => Err(Unread::At { left: bytes.len() }),
    }
}

/// Whether a token of the kind can be this number.
fn is_token(kind: ValueKind, token: u64) -> bool
    ensures { result ≡ nat_lt token (number_count kind) }
{
    match kind {
        ValueKind::Int32 => token < 1 << 32,
        ValueKind::Int64 | ValueKind::Str | ValueKind::Bytes => true,
    }
}

fn token_at(kind: ValueKind, bytes: &[u8]) -> Result<(u64, &[u8]), Unread>
    ensures { Gives (λ x. (x.0, x.1.now)) result (token_at kind bytes.now) }
{
    let (token, rest) = be_u64_of(bytes)?;
    if !is_token(kind, token) {
        return Err(Unread::At { left: bytes.len() });
    }
    Ok((token, rest))
}

/// Reads what stands behind the kind and the mark.
fn front_behind(
    kind: ValueKind,
    consistent: bool,
    bytes: &[u8],
) -> Result<(Front<'_>, &[u8]), Unread>
    ensures { Gives (λ x. (shown x.0, x.1.now)) result (front_behind kind consistent bytes.now) }
{
    let (count, rest) = byte_of(bytes)?;
    let (owner, rest) = slice_of(count as usize, rest)?;
    let (serial, rest) = le_u64_of(rest)?;
    let (token, rest) = token_at(kind, rest)?;
    let (nonce, rest) = array_of(rest)?;
    let front = Front {
        kind,
        consistent,
        owner,
        serial,
        token,
        nonce,
    };
    Ok((front, rest))
}

/// Reads what stands before the seal.
#[tactic(auto, unfolding(crate::specs::Reading::front_at))]
pub(crate) fn front_of(bytes: &[u8]) -> Result<(Front<'_>, &[u8]), Unread>
    ensures { Gives (λ x. (shown x.0, x.1.now)) result (front_at bytes.now) }
{
    let (kind, rest) = kind_at(bytes)?;
    let (consistent, rest) = mark_at(rest)?;
    front_behind(kind, consistent, rest)
}
