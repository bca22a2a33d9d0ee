use acra_base::NoMemory;
use std::alloc::{AllocError, AllocFailed};
use table_machine::LabFault;

/// Why parts of a statement are not bound.
#[derive(Debug, Drop)]
pub enum BindRefusal {
    /// A value is not read: the fault of the statement.
    Fault(LabFault),
    /// There was no memory.
    NoMemory,
}

impl From<NoMemory> for BindRefusal {
    ghost use Rattle.std.specs.Prelude.{◌≡◌};
    ghost use Rattle.table_binder.specs.declared.refusal.BindRefusal.TheVariants as why;

    ghost from_gives = { λ _ e. e ≡ why.NoMemory };

    fn from(_: NoMemory) -> Self {
        BindRefusal::NoMemory
    }
}

impl From<AllocError> for BindRefusal {
    ghost use Rattle.std.specs.Prelude.{◌≡◌};
    ghost use Rattle.table_binder.specs.declared.refusal.BindRefusal.TheVariants as why;

    ghost from_gives = { λ _ e. e ≡ why.NoMemory };

    fn from(_: AllocError) -> Self {
        BindRefusal::NoMemory
    }
}

impl<T: Drop> From<AllocFailed<T>> for BindRefusal {
    ghost use Rattle.std.specs.Prelude.{◌≡◌};
    ghost use Rattle.table_binder.specs.declared.refusal.BindRefusal.TheVariants as why;

    ghost from_gives = { λ _ e. e ≡ why.NoMemory };

    fn from(_: AllocFailed<T>) -> Self {
        BindRefusal::NoMemory
    }
}
