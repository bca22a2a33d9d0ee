//! What of a pattern's parts matches what of a statement's.
ghost use Rattle.std.specs.Prelude.{◌≡◌, Bool, bytes_eq};
ghost use Rattle.sql_patterns.specs.Matching as matching;
ghost use Rattle.sql_patterns.specs.Matching.{all_match, both_match};

use crate::hole::{is_column_mark, is_value_mark};
use acra_base::{Name, Sequence};
use sql_tree::{Item, Items, Op, Operand, OrderKey, SetPair};

/// What matches what.
pub(crate) trait Matched {
    ghost matched: { Bool → Self → Self → Bool };

    /// Whether it matches another, with holes or without.
    fn is_match(&self, other: &Self, holes: bool) -> bool
        ensures { result ≡ matched holes self.now other.now };
}

/// Whether lists are equally long and match item by item.
pub(crate) fn all_match<T: Matched>(patterns: &[T], parts: &[T], holes: bool) -> bool
    ensures { result ≡ all_match (T.matched holes) patterns.now parts.now }
{
    if patterns.len() != parts.len() {
        return false;
    }
    'each: for index in 0..patterns.len() {
        if !patterns[index].is_match(&parts[index], holes) {
            return false;
        }
    }
    true
}

/// Whether both are there and match, or neither is there.
pub(crate) fn both_match<T: Matched>(pattern: &Option<T>, part: &Option<T>, holes: bool) -> bool
    ensures { result ≡ both_match (T.matched holes) pattern.now part.now }
{
    match (pattern, part) {
        (Some(pattern), Some(part)) => pattern.is_match(part, holes),
        (None, None) => true,
        _ => false,
    }
}

pub(crate) fn column_matches(pattern: &[u8], column: &[u8], holes: bool) -> bool
    ensures { result ≡ matching.column_matches holes pattern.now column.now }
{
    (holes && is_column_mark(pattern)) || pattern == column
}

pub(crate) fn op_number(op: Op) -> u8
    ensures { result ≡ matching.op_number op }
{
    match op {
        Op::Eq => 0,
        Op::Ne => 1,
        Op::Lt => 2,
        Op::Le => 3,
        Op::Gt => 4,
        Op::Ge => 5,
    }
}

pub(crate) fn op_matches(pattern: Op, op: Op) -> bool
    ensures { result ≡ matching.op_matches pattern op }
{
    op_number(pattern) == op_number(op)
}

fn is_value(operand: &Operand) -> bool
    ensures { result ≡ matching.is_value operand.now }
{
    match operand {
        Operand::Column(_) => false,
        Operand::Prefix33(_) => false,
        Operand::Text(_) => true,
        Operand::Number(_) => true,
        Operand::NullValue => true,
        Operand::Parameter(_) => true,
    }
}

fn is_text(text: &[u8], operand: &Operand) -> bool
    ensures { result ≡ matching.is_text text.now operand.now }
{
    match operand {
        Operand::Text(other) => text == other.as_slice(),
        _ => false,
    }
}

impl Matched for Operand {
    ghost use Rattle.sql_patterns.specs.Matching.{operand_matches};

    ghost matched = { operand_matches };

    fn is_match(&self, other: &Operand, holes: bool) -> bool {
        match self {
            Operand::Column(column) => match other {
                Operand::Column(other) => column_matches(
                    column.as_slice(),
                    other.as_slice(),
                    holes,
                ),
                _ => false,
            },
            Operand::Prefix33(column) => match other {
                Operand::Prefix33(other) => column_matches(
                    column.as_slice(),
                    other.as_slice(),
                    holes,
                ),
                _ => false,
            },
            Operand::Text(text) => {
                (holes && is_value_mark(text.as_slice()) && is_value(other))
                    || is_text(text.as_slice(), other)
            }
            Operand::Number(number) => match other {
                Operand::Number(other) => number.get() == other.get(),
                _ => false,
            },
            Operand::NullValue => matches!(other, Operand::NullValue),
            Operand::Parameter(number) => match other {
                Operand::Parameter(other) => number == other,
                _ => false,
            },
        }
    }
}

impl Matched for Name {
    ghost use Rattle.std.specs.Prelude.{bytes_eq};

    ghost matched = { λ holes. bytes_eq };

    fn is_match(&self, other: &Name, _holes: bool) -> bool {
        self.as_slice() == other.as_slice()
    }
}

impl Matched for u64 {
    ghost use Rattle.sql_patterns.specs.Matching.{number_matches};

    ghost matched = { λ holes. number_matches };

    fn is_match(&self, other: &u64, _holes: bool) -> bool {
        self == other
    }
}

impl Matched for Item {
    ghost use Rattle.sql_patterns.specs.Matching.{item_matches};

    ghost matched = { item_matches };

    fn is_match(&self, other: &Item, holes: bool) -> bool {
        column_matches(self.column.as_slice(), other.column.as_slice(), holes)
            && both_match(&self.label, &other.label, holes)
    }
}

impl Matched for Items {
    ghost use Rattle.sql_patterns.specs.Matching.{items_match};

    ghost matched = { items_match };

    fn is_match(&self, other: &Items, holes: bool) -> bool {
        match self {
            Items::All => matches!(other, Items::All),
            Items::Count { label } => match other {
                Items::Count { label: other } => both_match(label, other, holes),
                _ => false,
            },
            Items::Columns(columns) => match other {
                Items::Columns(others) => all_match(columns.as_slice(), others.as_slice(), holes),
                _ => false,
            },
        }
    }
}

fn flag_matches(pattern: bool, flag: bool) -> bool
    ensures { result ≡ matching.flag_matches pattern flag }
{
    if pattern { flag } else { !flag }
}

impl Matched for OrderKey {
    ghost use Rattle.sql_patterns.specs.Matching.{key_matches};

    ghost matched = { key_matches };

    fn is_match(&self, other: &OrderKey, holes: bool) -> bool {
        column_matches(self.column.as_slice(), other.column.as_slice(), holes)
            && flag_matches(self.descending, other.descending)
    }
}

impl Matched for SetPair {
    ghost use Rattle.sql_patterns.specs.Matching.{pair_matches};

    ghost matched = { pair_matches };

    fn is_match(&self, other: &SetPair, holes: bool) -> bool {
        self.column.is_match(&other.column, holes) && self.value.is_match(&other.value, holes)
    }
}

impl Matched for Sequence<Operand> {
    ghost use Rattle.sql_patterns.specs.Matching.{row_matches};

    ghost matched = { row_matches };

    fn is_match(&self, other: &Sequence<Operand>, holes: bool) -> bool {
        all_match(self.as_slice(), other.as_slice(), holes)
    }
}

impl Matched for Sequence<Name> {
    ghost use Rattle.sql_patterns.specs.Matching.{names_match};

    ghost matched = { λ holes. names_match };

    fn is_match(&self, other: &Sequence<Name>, holes: bool) -> bool {
        all_match(self.as_slice(), other.as_slice(), holes)
    }
}
