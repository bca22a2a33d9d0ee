ghost use Rattle.std.specs.Prelude.{◌≡◌};
ghost use Rattle.pg_wire.specs.declared.frame.NextFault.TheVariants.{NoMemory as next_no_memory};

use acra_base::{Bytes, NoMemory};
use thiserror::Error;

/// Whose messages a stream holds.
#[derive(Clone, Copy, Debug, PartialEq, Eq)]
pub enum Side {
    /// What a client sends: startup packets first, then messages with a type byte.
    Client,
    /// What a server sends: messages with a type byte.
    Backend,
}

/// One message of a stream, as it is framed.
#[derive(Debug, Drop)]
pub struct Frame {
    /// Where its first byte stands in the stream, from 0.
    pub offset: u64,
    /// The type byte, 0 for a startup packet.
    pub kind: u8,
    /// What follows the length.
    pub body: Bytes,
}

/// One message of a stream, where it lies in the framer's memory.
#[derive(Clone, Copy, Debug)]
pub struct FrameView<'a> {
    /// Where its first byte stands in the stream, from 0.
    pub offset: u64,
    /// The type byte, 0 for a startup packet.
    pub kind: u8,
    /// What follows the length.
    pub body: &'a [u8],
    /// All of it, as it came: the type byte, where there is one, the length, and the body.
    pub bytes: &'a [u8],
}

/// The bytes from this offset on begin no frame.
#[derive(Clone, Copy, Debug, PartialEq, Eq, Error)]
#[error("at byte {offset}: {fault}")]
pub struct BadFrame {
    /// Where the first byte that is left stands in the stream, from 0.
    pub offset: u64,
    /// What is wrong with it.
    pub fault: FrameFault,
}

/// Why no frame begins here, in the order in which the faults are looked for.
#[derive(Clone, Copy, Debug, PartialEq, Eq, Error)]
pub enum FrameFault {
    /// The type byte is none of the side.
    #[error("unknown message type {0}")]
    UnknownType(u8),
    /// The length is below 4, or below 8 for a startup packet.
    #[error("bad message length {0}")]
    BadLength(u32),
    /// The length is above the limit, or above 10,000 for a startup packet.
    #[error("message length {0} is too long")]
    TooLong(u32),
}

/// Why no frame is given.
#[derive(Clone, Copy, Debug, PartialEq, Eq, Error)]
pub enum NextFault {
    /// The bytes from this offset on begin no frame.
    #[error("at byte {offset}: {fault}")]
    Frame { offset: u64, fault: FrameFault },
    /// There was no memory for the body.
    #[error("out of memory")]
    NoMemory,
}

impl From<NoMemory> for NextFault {
    ghost from_gives = { λ _ e. e ≡ next_no_memory };

    fn from(_: NoMemory) -> NextFault {
        NextFault::NoMemory
    }
}

/// Why a body is not read.
#[derive(Clone, Copy, Debug, PartialEq, Eq, Error)]
pub enum ReadBody {
    /// The body spells no message. The offset, from the body's first byte, is that of the first field
    /// that can't be read, or of the first byte too many.
    #[error("bad message body at byte {offset}")]
    BodyFault { offset: usize },
    /// There was no memory for the message.
    #[error("out of memory")]
    NoMemory,
}

/// What is wrong with a message.
#[derive(Clone, Copy, Debug, PartialEq, Eq, Error)]
pub enum MessageFault {
    /// It is no frame.
    #[error("{0}")]
    Frame(FrameFault),
    /// Its body spells no message.
    #[error("bad message body")]
    Body,
    /// It may not stand here.
    #[error("message out of its place")]
    Place,
    /// It makes the batch too long.
    #[error("batch too long")]
    Batch,
    /// It disagrees with the statement that it answers.
    #[error("unexpected shape of a result")]
    Shape,
}
