use pg_wire::MessageFault;
use thiserror::Error;

/// How a run of the lab ends.
#[derive(Clone, Copy, Debug, PartialEq, Eq, Error)]
pub enum Status {
    /// The input was read to its end at a message's end, or to Terminate.
    #[error("Done")]
    Done,
    /// The words are not `session CLIENT SEED`.
    #[error("Usage: acra_lab session CLIENT SEED")]
    Usage,
    /// The message at this offset is no frame or spells no message, or may not stand there.
    #[error("BadClient: the client's message at byte {offset}: {kind}")]
    BadClient { offset: u64, kind: MessageFault },
    /// The input ended at this offset, inside a message.
    #[error("ClientCut: the input ended at byte {offset}, inside a message")]
    ClientCut { offset: u64 },
    /// A read of the input failed.
    #[error("ReadFault: reading the input failed")]
    ReadFault,
    /// A write of the output failed.
    #[error("WriteFault: writing the output failed")]
    WriteFault,
    /// There was no memory.
    #[error("NoMemory: out of memory")]
    NoMemory,
    /// 2^48 bytes were read.
    #[error("Spent: the input is 2^48 bytes or more")]
    Spent,
}

impl Status {
    ghost use Rattle.std.specs.Prelude.{◌≡◌};
    ghost use Rattle.lab_session.specs.Codes.{code_of};

    /// The exit status of the program.
    pub fn code(&self) -> u8
        ensures { result ≡ code_of self.now }
    {
        match self {
            Status::Done => 0,
            Status::Usage => 1,
            Status::BadClient { .. } | Status::ClientCut { .. } => 3,
            Status::ReadFault => 4,
            Status::WriteFault => 5,
            Status::NoMemory => 6,
            Status::Spent => 8,
        }
    }
}
