ghost use Rattle.std.specs.Prelude.{◌≡◌};

use std::marker::Model;
use token_rule::TokenWant;

/// A token, and what it stands for.
#[derive(Drop)]
pub struct Entry {
    want: TokenWant,
    token: u64,
}

impl Model for Entry {
    ghost use Rattle.token_rule.specs.Entries.{Entry as Made};

    ghost Value = { Made };

    ghost view = { λ e. record { want = e.want; token = e.token } };
}

impl Entry {
    /// This token of this value.
    pub(crate) fn new(want: TokenWant, token: u64) -> Entry
        ensures { result ≡ record { want = want; token = token } }
    {
        Entry { want, token }
    }

    /// The value that the token stands for.
    pub fn want(&self) -> &TokenWant
        ensures { result.now ≡ self.now.want }
    {
        &self.want
    }

    /// The token.
    pub fn token(&self) -> u64
        ensures { result ≡ self.now.token }
    {
        self.token
    }
}
