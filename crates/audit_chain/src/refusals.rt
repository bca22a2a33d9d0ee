use thiserror::Error;

/// Why a line isn't appended.
#[derive(Clone, Copy, Debug, PartialEq, Eq, Error)]
pub enum AppendRefusal {
    /// A line closed the log, or the keeper failed before.
    #[error("the audit log is closed")]
    Closed,
    /// The keeper failed. Nothing more can be appended.
    #[error("keeping a line of the audit log failed")]
    KeeperFault,
    /// There was no memory.
    #[error("out of memory")]
    NoMemory,
}

/// Why a log can't be gone on with.
#[derive(Clone, Copy, Debug, PartialEq, Eq, Error)]
pub enum ResumeFault {
    /// This line is the first that doesn't recompute.
    #[error("line {line} of the audit log is broken")]
    Broken { line: u64 },
    /// Its last line closes it.
    #[error("the audit log is closed")]
    IsClosed,
    /// More than 512 bytes without a newline stand where this line begins.
    #[error("line {line} of the audit log is longer than 512 bytes")]
    LineTooLong { line: u64 },
    /// 2^48 bytes were read.
    #[error("the audit log has 2^48 bytes or more")]
    Spent,
    /// A read failed.
    #[error("reading the audit log failed")]
    ReadFault,
    /// There was no memory.
    #[error("out of memory")]
    NoMemory,
}
