ghost use Rattle.std.specs.Prelude.{◌≡◌, ◌≤◌, ◌<◌, ◌^◌, ◌&&◌, ℕ, true, false, length, take};
ghost use Rattle.std.specs.Int.{w32, from_be_bytes};
ghost use Rattle.pg_wire.specs.declared.frame.Side.{Side};
ghost use Rattle.pg_wire.specs.Frames.{types_of, is_type, asks_encryption};
ghost use Rattle.pg_wire.specs.Heads.{IsCounted, IsHead};

use crate::frame::{FrameFault, Side};
use crate::front::{GSS_REQUEST, TLS_REQUEST};

/// The most that a startup packet's length may tell.
const STARTUP_LIMIT: u32 = 10_000;

/// What stands at the front of a stream.
#[derive(Drop)]
pub enum Head<'a> {
    /// A frame, and what follows it.
    Whole {
        kind: u8,
        body: &'a [u8],
        rest: &'a [u8],
    },
    /// The front of a frame, or nothing.
    Unfinished,
    /// No frame, however the stream goes on.
    Fault(FrameFault),
}

/// The number that the first four bytes tell.
fn first_u32(bytes: &[u8]) -> u32
    requires { 4 ≤ length bytes.now }
    ensures { result ≡ from_be_bytes w32 (take 4 bytes.now) }
{
    let (front, _) = bytes.split_at(4);
    u32::from_be_bytes([front[0], front[1], front[2], front[3]])
}

/// The type bytes of a side.
fn types_of(side: Side) -> &'static [u8]
    ensures { result.now ≡ types_of side }
{
    match side {
        Side::Client => b"QPBDCESHXp",
        Side::Backend => b"RSKZTDCENtI123ns",
    }
}

/// Whether the type byte is one of the side.
fn is_type(side: Side, kind: u8) -> bool
    ensures { result ≡ is_type side kind }
{
    types_of(side).iter().any(|byte| kind == *byte)
}

/// Whether the body of a startup packet asks for encryption.
fn asks_encryption(body: &[u8]) -> bool
    requires { 4 ≤ length body.now }
    ensures { result ≡ asks_encryption body.now }
{
    let code = first_u32(body);
    code == TLS_REQUEST || code == GSS_REQUEST
}

/// Whether a startup packet is awaited behind a frame, by whether one was before it.
pub fn still_opening(opening: bool, body: &[u8]) -> bool
    requires { opening ≡ true → 4 ≤ length body.now }
    ensures { result ≡ (opening && asks_encryption body.now) }
{
    opening && asks_encryption(body)
}

/// A length, at least `least` and at most `most`, and a body of this length, of a frame of this type.
fn counted_head(kind: u8, least: u32, most: u32, bytes: &[u8]) -> Head<'_>
    requires { 4 ≤ least }
    ensures { IsCounted kind least most bytes.now result }
{
    if bytes.len() < 4 {
        return Head::Unfinished;
    }
    let size = first_u32(bytes);
    if size < least {
        return Head::Fault(FrameFault::BadLength(size));
    }
    if size > most {
        return Head::Fault(FrameFault::TooLong(size));
    }
    if bytes.len() < size as usize {
        return Head::Unfinished;
    }
    let (_, counted) = bytes.split_at(4);
    let (body, rest) = counted.split_at(size as usize - 4);
    Head::Whole { kind, body, rest }
}

/// What stands at the front where a message is awaited.
fn message_head(side: Side, limit: u32, bytes: &[u8]) -> Head<'_>
    ensures { IsHead side limit false bytes.now result }
{
    match bytes {
        [] => Head::Unfinished,
        [kind, counted @ ..] => {
            if !is_type(side, *kind) {
                return Head::Fault(FrameFault::UnknownType(*kind));
            }
            counted_head(*kind, 4, limit, counted)
        }
    }
}

/// What stands at the front of a stream.
pub fn head_of(side: Side, limit: u32, opening: bool, bytes: &[u8]) -> Head<'_>
    ensures { IsHead side limit opening bytes.now result }
{
    if opening {
        counted_head(0, 8, STARTUP_LIMIT, bytes)
    } else {
        message_head(side, limit, bytes)
    }
}
