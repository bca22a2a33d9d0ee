ghost use Rattle.std.specs.Prelude.{◌≡◌};
ghost use Rattle.audit_chain.specs.declared.stop.Stop.TheVariants.{NoMemory as StopNoMemory};

use acra_base::NoMemory;

/// Why a log isn't read to its end.
#[derive(Clone, Copy, Debug, PartialEq, Eq)]
pub enum Stop {
    /// The line with this number doesn't recompute.
    Broken { line: u64 },
    /// The line with this number is longer than 512 bytes.
    LineTooLong { line: u64 },
    /// 2^48 bytes were read.
    Spent,
    /// A read of the log failed.
    ReadFault,
    /// There was no memory.
    NoMemory,
}

impl From<NoMemory> for Stop {
    ghost from_gives = { λ _ e. e ≡ StopNoMemory };

    fn from(_: NoMemory) -> Self {
        Stop::NoMemory
    }
}
