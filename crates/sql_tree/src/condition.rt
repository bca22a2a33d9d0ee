use crate::whole::Whole;
use acra_base::{Bytes, Name, Sequence};
use sqlite_items::{Boxed, Items};

/// A comparison.
#[derive(Clone, Copy, Debug, PartialEq, Eq)]
pub enum Op {
    /// `=`
    Eq,
    /// `<>`
    Ne,
    /// `<`
    Lt,
    /// `<=`
    Le,
    /// `>`
    Gt,
    /// `>=`
    Ge,
}

/// What stands in a statement for a value.
#[derive(Debug, Drop)]
pub enum Operand {
    /// A column.
    Column(Name),
    /// The first 33 bytes of a column, written `substr("c", 1, 33)`.
    Prefix33(Name),
    /// A string, its quotes undoubled: UTF-8 without a zero byte.
    Text(Bytes),
    /// A whole number.
    Number(Whole),
    /// `NULL`
    NullValue,
    /// A parameter's number, from 1 on.
    Parameter(u16),
}

/// A condition.
#[derive(Debug, Drop)]
pub enum Cond {
    /// Two conditions or more, all of which are wanted.
    And(Items<Cond>),
    /// Two conditions or more, of which one is wanted.
    Or(Items<Cond>),
    /// What is not wanted.
    Not(Boxed<Cond>),
    /// A comparison, of which one side at least is a column.
    Compare {
        left: Operand,
        op: Op,
        right: Operand,
    },
    /// `left IN (list)`
    Within {
        left: Operand,
        list: Sequence<Operand>,
    },
    /// `column IS NULL`
    Null {
        column: Name,
    },
}
