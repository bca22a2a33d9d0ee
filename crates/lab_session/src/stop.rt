ghost use Rattle.std.specs.Prelude.{◌≡◌};
ghost use Rattle.lab_session.specs.declared.stop.Stop.TheVariants.{NoMemory as StopNoMemory};

use acra_base::NoMemory;

/// Why a session stops.
#[derive(Clone, Copy, Debug, PartialEq, Eq)]
pub enum Stop {
    /// There was no memory.
    NoMemory,
    /// A read of the input failed.
    ReadFault,
    /// A write of the output failed.
    WriteFault,
}

impl From<NoMemory> for Stop {
    ghost from_gives = { λ _ e. e ≡ StopNoMemory };

    fn from(_: NoMemory) -> Self {
        Stop::NoMemory
    }
}
