ghost use Rattle.std.specs.Prelude.{◌≡◌};
ghost use Rattle.json_rules.specs.Order.{Fits16, part_number, entry_number};

/// Stands for no part and for no entry.
pub const NO_PLACE: u16 = 65535;

/// Where a text breaks a rule: the text as a whole, an entry of one of its parts, or a part. Indices count from 0.
#[derive(Clone, Copy, Debug, PartialEq, Eq)]
pub enum Place {
    /// The text as a whole.
    Text,
    /// An entry of a part.
    Entry { part: usize, entry: usize },
    /// A part.
    Part { part: usize },
}

impl Place {
    /// The part's index, `NO_PLACE` where there is none.
    pub fn part_number(self) -> u16
        requires { Fits16 self }
        ensures { result ≡ part_number self }
    {
        match self {
            Place::Text => NO_PLACE,
            Place::Entry { part, .. } => part as u16,
            Place::Part { part } => part as u16,
        }
    }

    /// The entry's index, `NO_PLACE` where there is none.
    pub fn entry_number(self) -> u16
        requires { Fits16 self }
        ensures { result ≡ entry_number self }
    {
        match self {
            Place::Entry { entry, .. } => entry as u16,
            _ => NO_PLACE,
        }
    }
}

/// A rule that is broken, and where.
#[derive(Clone, Copy, Debug, PartialEq, Eq)]
pub struct Broken {
    /// The rule's number.
    pub rule: u8,
    /// The place.
    pub place: Place,
}
