ghost use Rattle.std.specs.Prelude.{◌≡◌, ◌++◌, ◌+◌, ◌<◌, ◌^◌, length, OnOk, OnErr, IfOk};
ghost use Rattle.pg_wire.specs.Frames.{frame_bytes};
ghost use Rattle.pg_wire.specs.Fronts.{IsFront, front_kind, front_body, front_frame};
ghost use Rattle.pg_wire.specs.Backs.{IsBack, back_kind, back_body, back_frame};

use crate::back::Back;
use crate::front::Front;
use crate::put::put_u32;
use crate::put_back::put_back;
use crate::put_front::put_front;
use acra_base::NoMemory;
use std::alloc::Global;

/// The type byte of a server's message.
fn kind_of_back(message: &Back) -> u8
    ensures { result ≡ back_kind message.now }
{
    match message {
        Back::Auth { .. } => b'R',
        Back::Status(_) => b'S',
        Back::KeyData { .. } => b'K',
        Back::Ready(_) => b'Z',
        Back::Row(_) => b'T',
        Back::Cells(_) => b'D',
        Back::Complete(_) => b'C',
        Back::EmptyQuery => b'I',
        Back::Error(_) => b'E',
        Back::Notice(_) => b'N',
        Back::ParseDone => b'1',
        Back::BindDone => b'2',
        Back::CloseDone => b'3',
        Back::NoData => b'n',
        Back::Params(_) => b't',
        Back::Suspended => b's',
    }
}

/// The body of a server's message.
fn body_of_back(alloc: Global, message: &Back) -> Result<Vec<u8>, NoMemory>
    requires { IsBack message.now }
    ensures { IfOk result (λ body. body.items ≡ back_body message.now) }
{
    let mut body = Vec::new(alloc);
    put_back(message, &mut body)?;
    Ok(body)
}

/// The type byte of a client's message, 0 for a startup packet.
fn kind_of_front(message: &Front) -> u8
    ensures { result ≡ front_kind message.now }
{
    match message {
        Front::Startup { .. } | Front::SslRequest | Front::GssRequest | Front::Cancel { .. } => 0,
        Front::Query(_) => b'Q',
        Front::Parse { .. } => b'P',
        Front::Bind { .. } => b'B',
        Front::Describe { .. } => b'D',
        Front::Execute { .. } => b'E',
        Front::Close { .. } => b'C',
        Front::Sync => b'S',
        Front::Flush => b'H',
        Front::Password(_) => b'p',
        Front::Terminate => b'X',
    }
}

/// The body of a client's message.
fn body_of_front(alloc: Global, message: &Front) -> Result<Vec<u8>, NoMemory>
    requires { IsFront message.now }
    ensures { IfOk result (λ body. body.items ≡ front_body message.now) }
{
    let mut body = Vec::new(alloc);
    put_front(message, &mut body)?;
    Ok(body)
}

/// A frame of this type and body.
fn frame_of(alloc: Global, kind: u8, body: &[u8]) -> Result<Vec<u8>, NoMemory>
    requires { length body.now + 4 < 2 ^ 30 }
    ensures { IfOk result (λ frame. frame.items ≡ frame_bytes kind body.now) }
{
    let mut frame = Vec::with_capacity(alloc, body.len() + 5)?;
    if kind != 0 {
        frame.push(kind)?;
    }
    put_u32(body.len() as u32 + 4, &mut frame)?;
    frame.extend_from_slice(body)?;
    Ok(frame)
}

/// Puts a server's message at the end of `out`. Without memory `out` stays.
pub fn write_back(message: &Back, out: &mut Vec<u8>) -> Result<(), NoMemory>
    requires spelled { IsBack message.now }
    requires short { length (back_body message.now) + 4 < 2 ^ 30 }
    ensures ok { OnOk result (out.new.items ≡ out.old.items ++ back_frame message.now) }
    ensures err { OnErr result (out.new.items ≡ out.old.items) }
{
    let alloc = *out.allocator();
    let body = body_of_back(alloc, message)?;
    let frame = frame_of(alloc, kind_of_back(message), &body)?;
    out.extend_from_slice(&frame)?;
    Ok(())
}

/// Puts a client's message at the end of `out`. Without memory `out` stays.
pub fn write_front(message: &Front, out: &mut Vec<u8>) -> Result<(), NoMemory>
    requires spelled { IsFront message.now }
    requires short { length (front_body message.now) + 4 < 2 ^ 30 }
    ensures ok { OnOk result (out.new.items ≡ out.old.items ++ front_frame message.now) }
    ensures err { OnErr result (out.new.items ≡ out.old.items) }
{
    let alloc = *out.allocator();
    let body = body_of_front(alloc, message)?;
    let frame = frame_of(alloc, kind_of_front(message), &body)?;
    out.extend_from_slice(&frame)?;
    Ok(())
}
