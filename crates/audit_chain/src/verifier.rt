ghost use Rattle.std.specs.Prelude.{◌≡◌, ◌≤◌, ◌^◌, IsErrOf};
ghost use Rattle.acra_devices.specs.Causes.{Rose};
ghost use Rattle.audit_chain.specs.Verdicts.{WhereRead, Took, Leaves, Found, IsDue};

use crate::reading::read_log;
use crate::stop::Stop;
use acra_devices::Source;
use std::alloc::Global;
use thiserror::Error;

/// What a log is.
#[derive(Clone, Copy, Debug, PartialEq, Eq)]
pub enum AuditVerdict {
    /// Each line recomputes. There are so many, and the last one closes the log or not.
    Valid { lines: u64, closed: bool },
    /// The line with this number is the first that doesn't recompute.
    Broken { line: u64 },
}

/// Why there is no verdict.
#[derive(Clone, Copy, Debug, PartialEq, Eq, Error)]
pub enum VerifyFault {
    /// More than 512 bytes without a newline stand where this line begins.
    #[error("line {line} of the log is longer than 512 bytes")]
    LineTooLong { line: u64 },
    /// 2^48 bytes were read.
    #[error("the log has 2^48 bytes or more")]
    Spent,
    /// A read failed.
    #[error("reading the log failed")]
    ReadFault,
    /// There was no memory.
    #[error("out of memory")]
    NoMemory,
}

/// What the log is whose first key this is.
pub fn verify<S: Source>(
    alloc: Global,
    source: &mut S,
    key: &[u8; 32],
) -> Result<AuditVerdict, VerifyFault>
    ensures found { WhereRead (S.left source.old) (S.left source.new) (Found key.now result) }
    ensures exact { WhereRead (S.left source.old) (S.left source.new) (IsDue key.now result) }
    ensures took { Took (S.left source.old) (S.left source.new) (2 ^ 48) }
    ensures whole { Leaves result (S.left source.new) }
    ensures later { S.read_faults source.old ≤ S.read_faults source.new }
    ensures stayed { (IsErrOf result VerifyFault.ReadFault → ⊥) → S.read_faults source.new ≡ S.read_faults source.old }
    ensures read_fault { IsErrOf result VerifyFault.ReadFault → Rose (S.read_faults source.old) (S.read_faults source.new) }
{
    match read_log(alloc, source, key) {
        Ok(chain) => Ok(AuditVerdict::Valid {
            lines: chain.number(),
            closed: chain.is_ended(),
        }),
        Err(Stop::Broken { line }) => Ok(AuditVerdict::Broken { line }),
        Err(Stop::LineTooLong { line }) => Err(VerifyFault::LineTooLong { line }),
        Err(Stop::Spent) => Err(VerifyFault::Spent),
        Err(Stop::ReadFault) => Err(VerifyFault::ReadFault),
        Err(Stop::NoMemory) => Err(VerifyFault::NoMemory),
    }
}
