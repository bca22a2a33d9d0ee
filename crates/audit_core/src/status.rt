use thiserror::Error;

/// A file of the folder.
#[derive(Clone, Copy, Debug, PartialEq, Eq, Error)]
pub enum FolderFile {
    /// The master key.
    #[error("master")]
    Master,
    /// The ring, sealed under the master key.
    #[error("keystore")]
    Keystore,
    /// The audit log.
    #[error("audit")]
    Audit,
}

/// How a run ends.
#[derive(Clone, Copy, Debug, PartialEq, Eq, Error)]
pub enum AuditStatus {
    /// The log is valid.
    #[error("Done")]
    Done,
    /// The words are not a folder.
    #[error("Usage: acra_audit DIR")]
    Usage,
    /// The master file is not 64 hexadecimal digits and maybe a newline.
    #[error("BadMaster: master is not 64 hexadecimal digits")]
    BadMaster,
    /// The keystore file is longer than 2^24 bytes, or the master key opens no ring in it.
    #[error("RingRefused: keystore is no ring under this master key")]
    RingRefused,
    /// The line with this number is the first that doesn't recompute.
    #[error("Broken: line {line} of audit doesn't recompute")]
    Broken { line: u64 },
    /// More than 512 bytes without a newline stand where this line begins.
    #[error("LineTooLong: line {line} of audit is longer than 512 bytes")]
    LineTooLong { line: u64 },
    /// A read of this file failed.
    #[error("ReadFault: reading {file} failed")]
    ReadFault { file: FolderFile },
    /// A write of the output failed.
    #[error("WriteFault: writing the output failed")]
    WriteFault,
    /// There was no memory.
    #[error("NoMemory: out of memory")]
    NoMemory,
    /// 2^48 bytes of the log were read.
    #[error("Spent: audit has 2^48 bytes or more")]
    Spent,
}

impl AuditStatus {
    ghost use Rattle.std.specs.Prelude.{◌≡◌};
    ghost use Rattle.audit_core.specs.Codes.{code_of};

    /// The exit status of the program.
    pub fn code(&self) -> u8
        ensures { result ≡ code_of self.now }
    {
        match self {
            AuditStatus::Done => 0,
            AuditStatus::Usage => 1,
            AuditStatus::BadMaster | AuditStatus::RingRefused => 2,
            AuditStatus::Broken { .. } | AuditStatus::LineTooLong { .. } => 3,
            AuditStatus::ReadFault { .. } => 4,
            AuditStatus::WriteFault => 5,
            AuditStatus::NoMemory => 6,
            AuditStatus::Spent => 8,
        }
    }
}
