ghost use Rattle.std.specs.Prelude.{◌≡◌};
ghost use Rattle.byte_reader.specs.declared.unread.Unread.TheVariants.{NoMemory as no_memory};

use acra_base::NoMemory;
use std::alloc::AllocFailed;

/// Why a field is not read.
#[derive(Clone, Copy, Debug, PartialEq, Eq)]
pub enum Unread {
    /// No such field stands where this many bytes are left.
    At { left: usize },
    /// There was no memory for it.
    NoMemory,
}

impl From<NoMemory> for Unread {
    ghost from_gives = { λ _ e. e ≡ no_memory };

    fn from(_: NoMemory) -> Unread {
        Unread::NoMemory
    }
}

impl<T: Drop> From<AllocFailed<T>> for Unread {
    ghost from_gives = { λ _ e. e ≡ no_memory };

    fn from(_: AllocFailed<T>) -> Unread {
        Unread::NoMemory
    }
}
