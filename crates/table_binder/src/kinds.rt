//! What is compared with what, and what is not done.

ghost use Rattle.std.specs.Prelude.{◌≡◌, ◌||◌, []};
ghost use Rattle.table_machine.specs.Faults as spec;

use crate::names::kind_of;
use acra_base::ValueKind;
use sql_tree::{Cond, Items, Operand, Statement};
use table_machine::ColumnDef;

fn do_compare(a: ValueKind, b: ValueKind) -> bool
    ensures { result ≡ spec.do_compare a b }
{
    match a {
        ValueKind::Str => b == ValueKind::Str,
        ValueKind::Bytes => b == ValueKind::Bytes,
        ValueKind::Int32 | ValueKind::Int64 => { matches!(b, ValueKind::Int32 | ValueKind::Int64) }
    }
}

/// Whether it is the first bytes of a column that has no bytes.
fn has_bad_prefix(columns: &[ColumnDef], operand: &Operand) -> bool
    ensures { result ≡ spec.has_bad_prefix columns.now operand.now }
{
    match operand {
        Operand::Prefix33(name) => kind_of(columns, name) != ValueKind::Bytes,
        _ => false,
    }
}

/// What an operand is compared as, where it is no value.
fn kind_in(columns: &[ColumnDef], operand: &Operand) -> Option<ValueKind>
    ensures { result ≡ spec.kind_in columns.now operand.now }
{
    match operand {
        Operand::Column(name) => Some(kind_of(columns, name)),
        Operand::Prefix33(_) => Some(ValueKind::Bytes),
        _ => None,
    }
}

fn do_clash(a: Option<ValueKind>, b: Option<ValueKind>) -> bool
    ensures { result ≡ spec.do_clash [] a b }
{
    match (a, b) {
        (Some(a), Some(b)) => !do_compare(a, b),
        _ => false,
    }
}

fn is_comparison_undone(columns: &[ColumnDef], left: &Operand, right: &Operand) -> bool
    ensures { result ≡ (spec.has_bad_prefix columns.now left.now || (spec.has_bad_prefix columns.now right.now || spec.do_clash columns.now (spec.kind_in columns.now left.now) (spec.kind_in columns.now right.now))) }
{
    has_bad_prefix(columns, left)
        || has_bad_prefix(columns, right)
        || do_clash(kind_in(columns, left), kind_in(columns, right))
}

fn is_cond_undone(columns: &[ColumnDef], cond: &Cond) -> bool
    ensures { result ≡ spec.is_undone_cond columns.now cond.now }
{
    match cond {
        Cond::And(parts) => {
            'ands: for part in parts.as_slice() {
                if is_cond_undone(columns, part) {
                    return true;
                }
            }
            false
        }
        Cond::Or(parts) => {
            'ors: for part in parts.as_slice() {
                if is_cond_undone(columns, part) {
                    return true;
                }
            }
            false
        }
        Cond::Not(part) => is_cond_undone(columns, part.get()),
        Cond::Compare { left, op: _, right } => is_comparison_undone(columns, left, right),
        Cond::Within { left, list: _ } => has_bad_prefix(columns, left),
        Cond::Null { column: _ } => false,
    }
}

fn is_where_undone(columns: &[ColumnDef], cond: &Option<Cond>) -> bool
    ensures { result ≡ spec.is_undone_where columns.now cond.now }
{
    match cond {
        None => false,
        Some(cond) => is_cond_undone(columns, cond),
    }
}

fn has_too_many(items: &Items) -> bool
    ensures { result ≡ spec.has_too_many [] items.now }
{
    match items {
        Items::All | Items::Count { .. } => false,
        Items::Columns(all) => all.len() > 65_535,
    }
}

/// Whether a statement compares what does not compare, or has too many columns in its result.
pub(crate) fn is_undone(columns: &[ColumnDef], tree: &Statement) -> bool
    ensures { result ≡ spec.is_undone columns.now tree.now }
{
    match tree {
        Statement::Select { items, cond, .. } => {
            has_too_many(items) || is_where_undone(columns, cond)
        }
        Statement::Update { cond, .. } => is_where_undone(columns, cond),
        Statement::Delete { cond, .. } => is_where_undone(columns, cond),
        _ => false,
    }
}
