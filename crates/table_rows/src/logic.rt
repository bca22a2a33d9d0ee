//! Three-valued logic, in which `None` is unknown.

ghost use Rattle.std.specs.Prelude.{◌≡◌};
ghost use Rattle.table_machine.specs.Logic as spec;

use sql_tree::Op;
use std::cmp::Ordering;

/// Whether a comparison holds of two cells in this order.
pub(crate) fn holds(op: Op, order: Ordering) -> bool
    ensures { result ≡ spec.holds op order }
{
    match op {
        Op::Eq => order == Ordering::Equal,
        Op::Ne => order != Ordering::Equal,
        Op::Lt => order == Ordering::Less,
        Op::Le => order != Ordering::Greater,
        Op::Gt => order == Ordering::Greater,
        Op::Ge => order != Ordering::Less,
    }
}

pub(crate) fn and(a: Option<bool>, b: Option<bool>) -> Option<bool>
    ensures { result ≡ spec.and a b }
{
    match (a, b) {
        (Some(false), _) | (_, Some(false)) => Some(false),
        (Some(true), Some(true)) => Some(true),
        _ => None,
    }
}

pub(crate) fn or(a: Option<bool>, b: Option<bool>) -> Option<bool>
    ensures { result ≡ spec.or a b }
{
    match (a, b) {
        (Some(true), _) | (_, Some(true)) => Some(true),
        (Some(false), Some(false)) => Some(false),
        _ => None,
    }
}

pub(crate) fn negated(a: Option<bool>) -> Option<bool>
    ensures { result ≡ spec.negated a }
{
    match a {
        None => None,
        Some(b) => Some(!b),
    }
}
