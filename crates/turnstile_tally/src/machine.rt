ghost use Rattle.std.specs.Prelude.{◌≡◌};
ghost use Rattle.turnstile_tally.specs.Counting.{count, other};

use acra_base::Machine;

/// Who calls.
#[derive(Clone, Copy)]
pub enum Side {
    Left,
    Right,
}

/// How many calls each side has made. A count stops at its last value.
#[derive(Clone, Copy)]
pub struct Tally {
    pub left: u64,
    pub right: u64,
}

impl Side {
    /// The side that this one isn't.
    pub fn other(self) -> Side
        ensures { result ≡ other self }
    {
        match self {
            Side::Left => Side::Right,
            Side::Right => Side::Left,
        }
    }
}

impl Tally {
    /// A tally before any call.
    pub fn new() -> Tally
        ensures { result ≡ record { left = 0; right = 0 } }
    {
        Tally { left: 0, right: 0 }
    }

    /// How many calls this side has made.
    pub fn count(&self, side: Side) -> u64
        ensures { result ≡ count self.now side }
    {
        match side {
            Side::Left => self.left,
            Side::Right => self.right,
        }
    }
}

impl Machine for Tally {
    ghost use Rattle.turnstile_tally.specs.Counting.{Counts};

    type Call = Side;

    type Reply = Tally;

    ghost steps = { Counts };

    fn step(&mut self, side: &Side) -> Tally {
        match side {
            Side::Left => self.left = self.left.saturating_add(1),
            Side::Right => self.right = self.right.saturating_add(1),
        }
        *self
    }
}
