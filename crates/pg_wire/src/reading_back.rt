ghost use Rattle.std.specs.Prelude.{◌≡◌, ℕ, List, IfOk};
ghost use Rattle.pg_wire.specs.Bodies.{state_at, auth_at, key_data_at, back_at, back_read};
ghost use Rattle.byte_reader.specs.Readers.{Gives};
ghost use Rattle.pg_wire.specs.Reading.{SpellsBack, ReadsAs, ReadsExactly};
ghost use Rattle.pg_wire.specs.Places.{FaultAt, IsBackFault};
ghost use Rattle.pg_wire.specs.declared.back.Back.{Back};

use crate::back::Back;
use crate::columns::row_of;
use crate::counted::{counted_cells_of, counted_oids_of};
use crate::frame::{Frame, ReadBody};
use crate::lists::{error_fields_of, pair_of};
use acra_base::Bytes;
use byte_reader::{Unread, be_u32_of, text_of};
use std::alloc::Global;

/// Reads a state of ReadyForQuery.
#[tactic(auto, unfolding(crate::specs::Bodies::state_at))]
fn state_of(bytes: &[u8]) -> Result<(u8, &[u8]), Unread>
    ensures { Gives (λ x. (x.0, x.1.now)) result (state_at bytes.now) }
{
    match bytes {
        [] => Err(Unread::At { left: 0 }),
        [state, rest @ ..] => {
            if *state == b'I' || *state == b'T' || *state == b'E' {
                Ok((*state, rest))
            } else {
                Err(Unread::At { left: bytes.len() })
            }
        }
    }
}

/// Reads an Authentication.
#[tactic(auto, unfolding(crate::specs::Bodies::auth_at))]
fn auth_of(alloc: Global, bytes: &[u8]) -> Result<(Back, &[u8]), Unread>
    ensures { Gives (λ x. (x.0, x.1.now)) result (auth_at bytes.now) }
{
    let (code, rest) = be_u32_of(bytes)?;
    let rest = Bytes::copied(alloc, rest)?;
    Ok((Back::Auth { code, rest }, &[]))
}

/// Reads a BackendKeyData.
#[tactic(auto, unfolding(crate::specs::Bodies::key_data_at))]
fn key_data_of(bytes: &[u8]) -> Result<(Back, &[u8]), Unread>
    ensures { Gives (λ x. (x.0, x.1.now)) result (key_data_at bytes.now) }
{
    let (process, rest) = be_u32_of(bytes)?;
    let (key, rest) = be_u32_of(rest)?;
    Ok((Back::KeyData { process, key }, rest))
}

/// Reads a server's message of this type at the front.
fn back_of(alloc: Global, kind: u8, body: &[u8]) -> Result<(Back, &[u8]), Unread>
    ensures { Gives (λ x. (x.0, x.1.now)) result (back_at kind body.now) }
{
    match kind {
        b'R' => auth_of(alloc, body),
        b'S' => {
            let (pair, rest) = pair_of(alloc, body)?;
            Ok((Back::Status(pair), rest))
        }
        b'K' => key_data_of(body),
        b'Z' => {
            let (state, rest) = state_of(body)?;
            Ok((Back::Ready(state), rest))
        }
        b'T' => {
            let (fields, rest) = row_of(alloc, body)?;
            Ok((Back::Row(fields), rest))
        }
        b'D' => {
            let (cells, rest) = counted_cells_of(alloc, body)?;
            Ok((Back::Cells(cells), rest))
        }
        b'C' => {
            let (tag, rest) = text_of(alloc, body)?;
            Ok((Back::Complete(tag), rest))
        }
        b'E' => {
            let (fields, rest) = error_fields_of(alloc, body)?;
            Ok((Back::Error(fields), rest))
        }
        b'I' => Ok((Back::EmptyQuery, body)),
        b'N' => {
            let (fields, rest) = error_fields_of(alloc, body)?;
            Ok((Back::Notice(fields), rest))
        }
        b'1' => Ok((Back::ParseDone, body)),
        b'2' => Ok((Back::BindDone, body)),
        b'3' => Ok((Back::CloseDone, body)),
        b'n' => Ok((Back::NoData, body)),
        b't' => {
            let (types, rest) = counted_oids_of(alloc, body)?;
            Ok((Back::Params(types), rest))
        }
        b's' => Ok((Back::Suspended, body)),
        _ => Err(Unread::At { left: body.len() }),
    }
}

/// Reads a server's message of this type, all of the body.
#[tactic(auto, unfolding(crate::specs::Bodies::back_read))]
fn whole_back(alloc: Global, kind: u8, body: &[u8]) -> Result<Back, Unread>
    ensures { Gives (λ m. m) result (back_read kind body.now) }
{
    let (message, rest) = back_of(alloc, kind, body)?;
    if !rest.is_empty() {
        return Err(Unread::At { left: rest.len() });
    }
    Ok(message)
}

/// The message, or the place in the body of what can't be read.
fn exact_back(alloc: Global, kind: u8, body: &[u8]) -> Result<Back, ReadBody>
    ensures found { IfOk result (λ m. SpellsBack kind body.now m) }
    ensures only { (m : Back) → SpellsBack kind body.now m → ReadsAs result m }
    ensures exact { ReadsExactly body.now result (back_read kind body.now) }
    ensures place { FaultAt result (IsBackFault kind body.now) }
{
    match whole_back(alloc, kind, body) {
        Ok(message) => Ok(message),
        Err(Unread::At { left }) => Err(ReadBody::BodyFault {
            offset: body.len() - left,
        }),
        Err(Unread::NoMemory) => Err(ReadBody::NoMemory),
    }
}

/// The server's message that a frame spells.
pub fn read_back(alloc: Global, frame: &Frame) -> Result<Back, ReadBody>
    ensures found { IfOk result (λ m. SpellsBack frame.now.kind frame.now.body m) }
    ensures only { (m : Back) → SpellsBack frame.now.kind frame.now.body m → ReadsAs result m }
    ensures exact { ReadsExactly frame.now.body result (back_read frame.now.kind frame.now.body) }
    ensures place { FaultAt result (IsBackFault frame.now.kind frame.now.body) }
{
    exact_back(alloc, frame.kind, frame.body.as_slice())
}
