//! What a condition's reading keeps of the text so far.

ghost use Rattle.std.specs.Prelude.{◌≡◌, ◌+◌, ◌-◌, ◌<◌, ◌^◌, max, nat_le, OnOk};

use acra_base::NoMemory;
use sql_tree::Cond;
use sqlite_items::Items;

/// As many parentheses and NOTs are open at once, at most, in a condition that is kept.
pub(crate) const MOST_OPEN: usize = 128;

/// What was read between two parentheses, or of the whole condition.
#[derive(Debug, Drop)]
pub(crate) struct Level {
    /// The parts of the OR so far.
    pub(crate) ors: Items<Cond>,
    /// The parts of the AND so far.
    pub(crate) ands: Items<Cond>,
    /// How many NOTs stand before the next part.
    pub(crate) nots: usize,
}

/// How many parentheses and NOTs are open.
#[derive(Clone, Copy, Debug)]
pub(crate) struct Depth {
    /// How many are open now.
    pub(crate) count: usize,
    /// How many were open at once, at most.
    pub(crate) deepest: usize,
}

impl Depth {
    /// One more opens. There is no memory for more than can be counted.
    pub(crate) fn enter(&mut self) -> Result<(), NoMemory>
        ensures count { OnOk result (self.new.count ≡ self.old.count + 1) }
        ensures deepest { OnOk result (self.new.deepest ≡ max self.old.deepest (self.old.count + 1)) }
        ensures fits { OnOk result (self.new.count < 2 ^ 64) }
    {
        let Some(count) = self.count.checked_add(1) else {
            return Err(NoMemory);
        };
        self.count = count;
        self.deepest = self.deepest.max(count);
        Ok(())
    }

    /// So many end.
    pub(crate) fn leave(&mut self, ended: usize)
        ensures count { self.new.count ≡ self.old.count - ended }
        ensures deepest { self.new.deepest ≡ self.old.deepest }
    {
        self.count = self.count.saturating_sub(ended);
    }

    /// Whether the condition is kept.
    pub(crate) fn is_kept(&self) -> bool
        ensures { result ≡ nat_le self.now.deepest 128 }
    {
        self.deepest <= MOST_OPEN
    }
}

/// What comes after a part.
#[derive(Debug, Drop)]
pub(crate) enum Next {
    /// Another part, of this level.
    Part(Level),
    /// Nothing: the condition is read.
    Done(Cond),
}
