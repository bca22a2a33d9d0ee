//! Conditions that match.
ghost use Rattle.std.specs.Prelude.{◌≡◌};
ghost use Rattle.sql_tree.specs.declared.condition.Cond.TheVariants as ACond;
ghost use Rattle.sql_patterns.specs.Matching as matching;
ghost use Rattle.sql_patterns.specs.Matching.{all_match, cond_matches};

use crate::hole::is_where_mark;
use crate::parts::{Matched, all_match, column_matches, op_matches};
use sql_tree::{Cond, Op, Operand};

fn is_comparison(left: &Operand, op: Op, right: &Operand, cond: &Cond, holes: bool) -> bool
    ensures { result ≡ cond_matches holes (ACond.Compare left.now op right.now) cond.now }
{
    match cond {
        Cond::Compare {
            left: other,
            op: by,
            right: side,
        } => left.is_match(other, holes) && op_matches(op, *by) && right.is_match(side, holes),
        _ => false,
    }
}

fn is_membership(left: &Operand, list: &[Operand], cond: &Cond, holes: bool) -> bool
    ensures { result ≡ cond_matches holes (ACond.Within left.now list.now) cond.now }
{
    match cond {
        Cond::Within {
            left: other,
            list: values,
        } => left.is_match(other, holes) && all_match(list, values.as_slice(), holes),
        _ => false,
    }
}

fn is_null_test(column: &[u8], cond: &Cond, holes: bool) -> bool
    ensures { result ≡ cond_matches holes (ACond.Null column.now) cond.now }
{
    match cond {
        Cond::Null { column: other } => column_matches(column, other.as_slice(), holes),
        _ => false,
    }
}

/// Whether conditions are equally many and match one by one.
#[cycle(conditions)]
fn all_conds_match(patterns: &[Cond], conds: &[Cond], holes: bool) -> bool
    ensures { result ≡ all_match (cond_matches holes) patterns.now conds.now }
{
    if patterns.len() != conds.len() {
        return false;
    }
    'each: for index in 0..patterns.len() {
        if !cond_matches(&patterns[index], &conds[index], holes) {
            return false;
        }
    }
    true
}

/// Whether a pattern matches a condition. It recurses as deep as the pattern's nodes stand.
#[cycle(conditions)]
fn cond_matches(pattern: &Cond, cond: &Cond, holes: bool) -> bool
    ensures { result ≡ cond_matches holes pattern.now cond.now }
{
    match pattern {
        Cond::And(tests) => match cond {
            Cond::And(parts) => all_conds_match(tests.as_slice(), parts.as_slice(), holes),
            _ => false,
        },
        Cond::Or(tests) => match cond {
            Cond::Or(parts) => all_conds_match(tests.as_slice(), parts.as_slice(), holes),
            _ => false,
        },
        Cond::Not(test) => match cond {
            Cond::Not(part) => cond_matches(test.get(), part.get(), holes),
            _ => false,
        },
        Cond::Compare { left, op, right } => is_comparison(left, *op, right, cond, holes),
        Cond::Within { left, list } => is_membership(left, list.as_slice(), cond, holes),
        Cond::Null { column } => is_null_test(column.as_slice(), cond, holes),
    }
}

fn is_where_hole(cond: &Cond) -> bool
    ensures { result ≡ matching.is_where_hole cond.now }
{
    match cond {
        Cond::Null { column } => is_where_mark(column.as_slice()),
        _ => false,
    }
}

/// Whether a pattern's condition matches that of a statement.
pub(crate) fn filter_matches(pattern: &Option<Cond>, cond: &Option<Cond>, holes: bool) -> bool
    ensures { result ≡ matching.filter_matches holes pattern.now cond.now }
{
    match pattern {
        Some(pattern) => {
            if holes && is_where_hole(pattern) {
                return true;
            }
            match cond {
                Some(cond) => cond_matches(pattern, cond, holes),
                None => false,
            }
        }
        None => cond.is_none(),
    }
}
