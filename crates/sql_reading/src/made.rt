ghost use Rattle.std.specs.Prelude.{◌≡◌};

use sql_tree::{Cond, Statement};

/// A condition that was read.
#[derive(Debug, Drop)]
pub(crate) struct Nested {
    /// The condition, or an empty `And` where more than 128 are open at once.
    pub(crate) cond: Cond,
    /// How many parentheses and NOTs are open at once, at most.
    pub(crate) deepest: usize,
}

/// What stands behind WHERE, where a statement has it.
#[derive(Debug, Drop)]
pub(crate) struct Filter {
    /// The condition, as in `Nested`.
    pub(crate) cond: Option<Cond>,
    /// How many parentheses and NOTs are open at once, at most.
    pub(crate) deepest: usize,
}

/// A statement that was read.
#[derive(Debug, Drop)]
pub struct Reading {
    /// The statement, with its condition as in `Nested`.
    pub statement: Statement,
    /// How many parentheses and NOTs are open at once, at most.
    pub deepest: usize,
}

impl Reading {
    /// The statement alone.
    pub fn into_statement(self) -> Statement
        ensures { result ≡ self.statement }
    {
        self.statement
    }
}
