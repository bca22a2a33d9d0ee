ghost use Rattle.std.specs.Prelude.{◌≡◌};

use sql_tokens::Number;
use std::marker::Model;

/// A whole number of the range of `i128`, in two halves: an `i128` would have each operand begin at a multiple of 16 bytes.
#[derive(Debug, Drop)]
pub struct Whole {
    bits: Number,
}

impl Model for Whole {
    ghost use Rattle.std.specs.Prelude.{ℤ};
    ghost use Rattle.std.specs.Int.{w128, cast_signed};

    ghost Value = { ℤ };

    ghost view = { λ w. cast_signed w128 w.bits };
}

impl Whole {
    /// This number.
    pub fn new(number: i128) -> Self
        ensures { result ≡ number }
    {
        Whole {
            bits: Number::new(number.cast_unsigned()),
        }
    }

    /// The number.
    pub fn get(&self) -> i128
        ensures { result ≡ self.now }
    {
        self.bits.get().cast_signed()
    }
}
