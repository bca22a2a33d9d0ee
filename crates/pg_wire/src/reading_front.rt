ghost use Rattle.std.specs.Prelude.{◌≡◌, ℕ, List, IfOk};
ghost use Rattle.pg_wire.specs.Bodies.{front_at, front_read};
ghost use Rattle.byte_reader.specs.Readers.{Gives};
ghost use Rattle.pg_wire.specs.Reading.{SpellsFront, ReadsAs, ReadsExactly};
ghost use Rattle.pg_wire.specs.Places.{FaultAt, IsFrontFault};
ghost use Rattle.pg_wire.specs.declared.front.Front.{Front};

use crate::frame::{Frame, ReadBody};
use crate::front::Front;
use crate::startup::startup_of;
use crate::statements::{bind_of, close_of, describe_of, execute_of, parse_of};
use acra_base::Bytes;
use byte_reader::{Unread, text_of};
use std::alloc::Global;

/// Reads a client's message of this type at the front.
fn front_of(alloc: Global, kind: u8, body: &[u8]) -> Result<(Front, &[u8]), Unread>
    ensures { Gives (λ x. (x.0, x.1.now)) result (front_at kind body.now) }
{
    match kind {
        0 => startup_of(alloc, body),
        b'Q' => {
            let (text, rest) = text_of(alloc, body)?;
            Ok((Front::Query(text), rest))
        }
        b'P' => parse_of(alloc, body),
        b'B' => bind_of(alloc, body),
        b'D' => describe_of(alloc, body),
        b'E' => execute_of(alloc, body),
        b'C' => close_of(alloc, body),
        b'S' => Ok((Front::Sync, body)),
        b'H' => Ok((Front::Flush, body)),
        b'p' => Ok((Front::Password(Bytes::copied(alloc, body)?), &[])),
        b'X' => Ok((Front::Terminate, body)),
        _ => Err(Unread::At { left: body.len() }),
    }
}

/// Reads a client's message of this type, all of the body.
#[tactic(auto, unfolding(crate::specs::Bodies::front_read))]
fn whole_front(alloc: Global, kind: u8, body: &[u8]) -> Result<Front, Unread>
    ensures { Gives (λ m. m) result (front_read kind body.now) }
{
    let (message, rest) = front_of(alloc, kind, body)?;
    if !rest.is_empty() {
        return Err(Unread::At { left: rest.len() });
    }
    Ok(message)
}

/// The message, or the place in the body of what can't be read.
fn exact_front(alloc: Global, kind: u8, body: &[u8]) -> Result<Front, ReadBody>
    ensures found { IfOk result (λ m. SpellsFront kind body.now m) }
    ensures only { (m : Front) → SpellsFront kind body.now m → ReadsAs result m }
    ensures exact { ReadsExactly body.now result (front_read kind body.now) }
    ensures place { FaultAt result (IsFrontFault kind body.now) }
{
    match whole_front(alloc, kind, body) {
        Ok(message) => Ok(message),
        Err(Unread::At { left }) => Err(ReadBody::BodyFault {
            offset: body.len() - left,
        }),
        Err(Unread::NoMemory) => Err(ReadBody::NoMemory),
    }
}

/// The client's message that a frame spells.
pub fn read_front(alloc: Global, frame: &Frame) -> Result<Front, ReadBody>
    ensures found { IfOk result (λ m. SpellsFront frame.now.kind frame.now.body m) }
    ensures only { (m : Front) → SpellsFront frame.now.kind frame.now.body m → ReadsAs result m }
    ensures exact { ReadsExactly frame.now.body result (front_read frame.now.kind frame.now.body) }
    ensures place { FaultAt result (IsFrontFault frame.now.kind frame.now.body) }
{
    exact_front(alloc, frame.kind, frame.body.as_slice())
}
