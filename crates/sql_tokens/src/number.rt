ghost use Rattle.std.specs.Prelude.{◌≡◌};

use std::marker::Model;

/// A number below 2^128, in two halves: a `u128` would have each token begin at a multiple of 16 bytes.
#[derive(Debug, Drop)]
pub struct Number {
    high: u64,
    low: u64,
}

impl Model for Number {
    ghost use Rattle.std.specs.Prelude.{ℕ, ◌+◌, ◌*◌, ◌^◌};

    ghost Value = { ℕ };

    ghost view = { λ n. n.high * 2 ^ 64 + n.low };
}

impl Number {
    /// This number.
    pub fn new(number: u128) -> Self
        ensures { result ≡ number }
    {
        Number {
            high: (number >> 64) as u64,
            low: (number % (1 << 64)) as u64,
        }
    }

    /// The number.
    pub fn get(&self) -> u128
        ensures { result ≡ self.now }
    {
        (self.high as u128) * (1 << 64) + self.low as u128
    }
}
