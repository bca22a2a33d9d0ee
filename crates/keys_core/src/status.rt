use std::fmt;
use thiserror::Error;

/// A file that is read.
#[derive(Clone, Copy, Debug, PartialEq, Eq)]
pub enum KeyFile {
    Master,
    Ring,
}

impl fmt::Display for KeyFile {
    fn fmt<W: fmt::Write>(&self, f: &mut fmt::Formatter<W>) -> fmt::Result {
        f.write_str(match self {
            KeyFile::Master => "master",
            KeyFile::Ring => "keystore",
        })
    }
}

/// Why a ring's file gives no ring.
#[derive(Clone, Copy, Debug, PartialEq, Eq, Error)]
pub enum RingTrouble {
    /// It is longer than 2^24 bytes.
    #[error("it is longer than 16777216 bytes")]
    TooLong,
    /// It begins otherwise, or the master key doesn't open it.
    #[error("it does not open with this master key")]
    NotSealed,
    /// What is in it is no ring: at this place of the sealed body stands the first field that can't be so.
    #[error("its content is no ring, at byte {place}")]
    BadForm { place: usize },
}

/// Why what is asked isn't done.
#[derive(Clone, Copy, Debug, PartialEq, Eq, Error)]
pub enum Refusal {
    /// The client is in the ring.
    #[error("exists")]
    Exists,
    /// The ring has 256 clients, or no id is left.
    #[error("too-many")]
    TooMany,
    /// The client has no such key, or isn't in the ring.
    #[error("no-such-key")]
    NoSuchKey,
    /// The key is current or drains.
    #[error("not-swept")]
    NotSwept,
}

/// How a run of the key tool ends.
#[derive(Clone, Copy, Debug, PartialEq, Eq, Error)]
pub enum KeysStatus {
    /// What was asked is done.
    #[error("Done")]
    Done,
    /// The words ask nothing.
    #[error("Usage: acra_keys DIR generate ID | list | destroy ID KEY | check")]
    Usage,
    /// The master file isn't 64 hexadecimal digits and an optional newline.
    #[error("BadMaster: master: it is not 64 hexadecimal digits")]
    BadMaster,
    /// The ring's file gives no ring.
    #[error("RingRefused: keystore: {why}")]
    RingRefused { why: RingTrouble },
    /// What is asked can't be done with this ring. The refusal is printed.
    #[error("Refused: {why}")]
    Refused { why: Refusal },
    /// A read of this file failed.
    #[error("ReadFault: {file}: reading it failed")]
    ReadFault { file: KeyFile },
    /// A write of the output failed. The ring is kept.
    #[error("WriteFault: writing the output failed")]
    WriteFault,
    /// There was no memory. Nothing is kept.
    #[error("NoMemory: out of memory")]
    NoMemory,
    /// The ring couldn't be kept.
    #[error("KeeperFault: keystore: writing it failed")]
    KeeperFault,
    /// A draw of random bytes failed. Nothing is kept.
    #[error("RandomFault: drawing random bytes failed")]
    RandomFault,
}

impl KeysStatus {
    ghost use Rattle.std.specs.Prelude.{◌≡◌};
    ghost use Rattle.keys_core.specs.Codes.{code_of};

    /// The exit status of the program.
    pub fn code(&self) -> u8
        ensures { result ≡ code_of self.now }
    {
        match self {
            KeysStatus::Done => 0,
            KeysStatus::Usage => 1,
            KeysStatus::BadMaster | KeysStatus::RingRefused { .. } => 2,
            KeysStatus::Refused { .. } => 3,
            KeysStatus::ReadFault { .. } => 4,
            KeysStatus::WriteFault => 5,
            KeysStatus::NoMemory => 6,
            KeysStatus::KeeperFault => 7,
            KeysStatus::RandomFault => 8,
        }
    }
}
