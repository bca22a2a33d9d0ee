//! Whether a body spells a message of its kind, without building it.
ghost use Rattle.std.specs.Prelude.{◌≡◌, ◌+◌, ◌≤◌, ℕ, length, IfOk, IfErr, Ok, Err};
ghost use Rattle.pg_wire.specs.Bodies as bodies;
ghost use Rattle.wire_views.specs.Passing as passing;
ghost use Rattle.wire_views.specs.Passing.{past, Passes, ChecksBack, ChecksFront};

use crate::cells::u32_at;
use crate::fields::{Field, counted_past, field_past, listed_past};
use thiserror::Error;

/// A body spells no message of its kind.
#[derive(Clone, Copy, Debug, PartialEq, Eq, Error)]
#[error("bad message body at byte {offset}")]
pub struct BadBody {
    /// Where the first field stands that can't be read, or the first byte too many, from the body's first byte.
    pub offset: usize,
}

// The codes of startup packets: protocol 3.0, and the requests.
const PROTOCOL: u32 = 196_608;

const SSL_REQUEST: u32 = 80_877_103;

const GSS_REQUEST: u32 = 80_877_104;

const CANCEL: u32 = 80_877_102;

/// What follows a server's message of this kind.
fn back_past(kind: u8, body: &[u8]) -> Result<&[u8], usize>
    ensures { Passes (λ x. x.now) result (past (bodies.back_at kind body.now)) }
{
    match kind {
        b'R' => auth_past(body),
        b'S' => field_past(Field::Pair, body),
        b'K' => key_data_past(body),
        b'Z' => field_past(Field::State, body),
        b'T' => counted_past(Field::Column, body),
        b'D' => counted_past(Field::Cell, body),
        b'C' => field_past(Field::Text, body),
        b'E' => listed_past(Field::Error, body),
        b'N' => listed_past(Field::Error, body),
        b't' => counted_past(Field::Word, body),
        b'I' | b'1' | b'2' | b'3' | b'n' | b's' => Ok(body),
        _ => Err(body.len()),
    }
}

#[tactic(auto, unfolding(pg_wire::specs::Bodies::auth_at))]
fn auth_past(bytes: &[u8]) -> Result<&[u8], usize>
    ensures { Passes (λ x. x.now) result (past (bodies.auth_at bytes.now)) }
{
    let (_, _) = u32_at(bytes)?;
    Ok(&[])
}

#[tactic(auto, unfolding(pg_wire::specs::Bodies::key_data_at))]
fn key_data_past(bytes: &[u8]) -> Result<&[u8], usize>
    ensures { Passes (λ x. x.now) result (past (bodies.key_data_at bytes.now)) }
{
    let (_, rest) = u32_at(bytes)?;
    let (_, rest) = u32_at(rest)?;
    Ok(rest)
}

/// How many bytes are left where a server's message can't be read.
fn back_left(kind: u8, body: &[u8]) -> Result<(), usize>
    ensures done { IfOk result (λ _. ChecksBack kind body.now (Ok tt)) }
    ensures bad { IfErr result (λ left. (left ≤ length body.now) × (bodies.back_read kind body.now ≡ Err left)) }
{
    match back_past(kind, body) {
        Ok(rest) => {
            if rest.is_empty() {
                Ok(())
            } else {
                Err(rest.len())
            }
        }
        Err(left) => Err(left),
    }
}

/// Whether a body spells a server's message of this kind: exactly where `read_back` reads one, and with the same offset where
/// it doesn't. It takes no memory.
pub fn check_back(kind: u8, body: &[u8]) -> Result<(), BadBody>
    ensures done { IfOk result (λ _. ChecksBack kind body.now (Ok tt)) }
    ensures bad { IfErr result (λ bad. ChecksBack kind body.now (Err bad.offset)) }
{
    match back_left(kind, body) {
        Ok(()) => Ok(()),
        Err(left) => Err(BadBody {
            offset: body.len() - left,
        }),
    }
}

fn parse_past(bytes: &[u8]) -> Result<&[u8], usize>
    ensures { Passes (λ x. x.now) result (passing.parse_past bytes.now) }
{
    let rest = field_past(Field::Text, bytes)?;
    let rest = field_past(Field::Text, rest)?;
    counted_past(Field::Word, rest)
}

fn bind_past(bytes: &[u8]) -> Result<&[u8], usize>
    ensures { Passes (λ x. x.now) result (passing.bind_past bytes.now) }
{
    let rest = field_past(Field::Text, bytes)?;
    let rest = field_past(Field::Text, rest)?;
    let rest = counted_past(Field::Format, rest)?;
    let rest = counted_past(Field::Cell, rest)?;
    counted_past(Field::Format, rest)
}

/// What follows two fields.
fn targeted_past(bytes: &[u8]) -> Result<&[u8], usize>
    ensures { Passes (λ x. x.now) result (passing.targeted_past bytes.now) }
{
    let rest = field_past(Field::Target, bytes)?;
    field_past(Field::Text, rest)
}

fn execute_past(bytes: &[u8]) -> Result<&[u8], usize>
    ensures { Passes (λ x. x.now) result (passing.execute_past bytes.now) }
{
    let rest = field_past(Field::Text, bytes)?;
    field_past(Field::Word, rest)
}

fn cancel_past(bytes: &[u8]) -> Result<&[u8], usize>
    ensures { Passes (λ x. x.now) result (passing.cancel_past bytes.now) }
{
    let rest = field_past(Field::Word, bytes)?;
    field_past(Field::Word, rest)
}

/// What follows what stands behind the code of a startup packet, or how long the packet's body is where the code is none.
fn coded_past(len: usize, code: u32, rest: &[u8]) -> Result<&[u8], usize>
    ensures { Passes (λ x. x.now) result (passing.coded_past len (code, rest.now)) }
{
    if code == PROTOCOL {
        return listed_past(Field::Pair, rest);
    }
    if code == SSL_REQUEST || code == GSS_REQUEST {
        return Ok(rest);
    }
    if code == CANCEL {
        return cancel_past(rest);
    }
    Err(len)
}

fn startup_past(bytes: &[u8]) -> Result<&[u8], usize>
    ensures { Passes (λ x. x.now) result (passing.startup_past bytes.now) }
{
    let (code, rest) = u32_at(bytes)?;
    coded_past(bytes.len(), code, rest)
}

/// What follows a client's message of this kind, 0 for a startup packet.
fn front_past(kind: u8, body: &[u8]) -> Result<&[u8], usize>
    ensures { Passes (λ x. x.now) result (past (bodies.front_at kind body.now)) }
{
    match kind {
        0 => startup_past(body),
        b'Q' => field_past(Field::Text, body),
        b'P' => parse_past(body),
        b'B' => bind_past(body),
        b'D' => targeted_past(body),
        b'E' => execute_past(body),
        b'C' => targeted_past(body),
        b'p' => Ok(&[]),
        b'S' | b'H' | b'X' => Ok(body),
        _ => Err(body.len()),
    }
}

/// How many bytes are left where a client's message can't be read.
fn front_left(kind: u8, body: &[u8]) -> Result<(), usize>
    ensures done { IfOk result (λ _. ChecksFront kind body.now (Ok tt)) }
    ensures bad { IfErr result (λ left. (left ≤ length body.now) × (bodies.front_read kind body.now ≡ Err left)) }
{
    match front_past(kind, body) {
        Ok(rest) => {
            if rest.is_empty() {
                Ok(())
            } else {
                Err(rest.len())
            }
        }
        Err(left) => Err(left),
    }
}

/// Whether a body spells a client's message of this kind, 0 for a startup packet: exactly where `read_front` reads one, and with
/// the same offset where it doesn't. It takes no memory.
pub fn check_front(kind: u8, body: &[u8]) -> Result<(), BadBody>
    ensures done { IfOk result (λ _. ChecksFront kind body.now (Ok tt)) }
    ensures bad { IfErr result (λ bad. ChecksFront kind body.now (Err bad.offset)) }
{
    match front_left(kind, body) {
        Ok(()) => Ok(()),
        Err(left) => Err(BadBody {
            offset: body.len() - left,
        }),
    }
}
