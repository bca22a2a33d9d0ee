ghost use Rattle.std.specs.Prelude.{◌≡◌, ℕ, List};
ghost use Rattle.pg_wire.specs.Bodies.{startup_at};
ghost use Rattle.byte_reader.specs.Readers.{Gives};

use crate::front::{CANCEL_REQUEST, Front, GSS_REQUEST, PROTOCOL, TLS_REQUEST};
use crate::lists::pairs_of;
use byte_reader::{Unread, be_u32_of};
use std::alloc::Global;

/// Reads a startup packet, by its code.
#[tactic(auto, unfolding(crate::specs::Bodies::startup_at))]
pub fn startup_of(alloc: Global, bytes: &[u8]) -> Result<(Front, &[u8]), Unread>
    ensures { Gives (λ x. (x.0, x.1.now)) result (startup_at bytes.now) }
{
    let (code, rest) = be_u32_of(bytes)?;
    match code {
        PROTOCOL => {
            let (params, rest) = pairs_of(alloc, rest)?;
            Ok((Front::Startup { params }, rest))
        }
        TLS_REQUEST => Ok((Front::SslRequest, rest)),
        GSS_REQUEST => Ok((Front::GssRequest, rest)),
        CANCEL_REQUEST => {
            let (process, rest) = be_u32_of(rest)?;
            let (key, rest) = be_u32_of(rest)?;
            Ok((Front::Cancel { process, key }, rest))
        }
        _ => Err(Unread::At { left: bytes.len() }),
    }
}
