//! Why a value is refused.
use std::alloc::AllocError;
use thiserror::Error;

/// Why a value is refused. Bad comes before Range, and Range before TooLong.
#[derive(Clone, Copy, Debug, PartialEq, Eq, Error)]
pub enum ValueRefusal {
    /// It isn't of the kind's form.
    #[error("not a value of its kind")]
    Bad,
    /// It is a number outside the kind's range.
    #[error("number out of range")]
    Range,
    /// Its canonical form is above 2^18 bytes.
    #[error("value too long")]
    TooLong,
    /// There was no memory for the canonical form.
    #[error("out of memory")]
    NoMemory,
}

impl From<AllocError> for ValueRefusal {
    ghost use Rattle.plain_values.specs.declared.refusal.ValueRefusal.TheVariants.{NoMemory};
    ghost use Rattle.std.specs.Prelude.{◌≡◌};

    ghost from_gives = { λ _ e. e ≡ NoMemory };

    fn from(_fault: AllocError) -> ValueRefusal {
        ValueRefusal::NoMemory
    }
}
