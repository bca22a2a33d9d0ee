use acra_base::NoMemory;
use thiserror::Error;

/// Why there is no token for a value.
#[derive(Clone, Copy, Debug, PartialEq, Eq, Error)]
pub enum TokenRefusal {
    /// The store has as many tokens as it may.
    #[error("token store full")]
    Full,
    /// The record could not be kept. The store is as it was.
    #[error("keeping the token's record failed")]
    KeeperFault,
    /// There was no memory. The store is as it was, and nothing was kept.
    #[error("out of memory")]
    NoMemory,
}

impl From<NoMemory> for TokenRefusal {
    ghost use Rattle.std.specs.Prelude.{◌≡◌};
    ghost use Rattle.token_store.specs.declared.refusals.TokenRefusal.TheVariants as refusals;

    ghost from_gives = { λ _ e. e ≡ refusals.NoMemory };

    fn from(_: NoMemory) -> TokenRefusal {
        TokenRefusal::NoMemory
    }
}

/// Why records give no store.
#[derive(Clone, Copy, Debug, PartialEq, Eq, Error)]
pub enum LoadRefusal {
    /// The record with this index, counted from 0, isn't the one that the rule gives behind those before it, or
    /// has the limit as its index.
    #[error("record {index} is not the one that follows")]
    BadRecord { index: usize },
    /// There was no memory for the tokens.
    #[error("out of memory")]
    NoMemory,
}

impl From<NoMemory> for LoadRefusal {
    ghost use Rattle.std.specs.Prelude.{◌≡◌};
    ghost use Rattle.token_store.specs.declared.refusals.LoadRefusal.TheVariants as refusals;

    ghost from_gives = { λ _ e. e ≡ refusals.NoMemory };

    fn from(_: NoMemory) -> LoadRefusal {
        LoadRefusal::NoMemory
    }
}
