//! Conditions with places for columns and cells for values.

ghost use Rattle.std.specs.Prelude.{◌≡◌, ◌≤◌, ◌++◌, ◌||◌, true, length, map, List};
ghost use Rattle.std.specs.List.{flat_map};
ghost use Rattle.sql_tree.specs.WellFormed as shapes;
ghost use Rattle.table_machine.specs.declared.cell.Cell.{Cell as ACell};
ghost use Rattle.table_rows.specs.declared.filter.Filter.TheVariants as filter;
ghost use Rattle.table_machine.specs.Faults as spec;
ghost use Rattle.table_rows.specs.Filters as filters;
ghost use Rattle.table_machine.specs.Machine as machine;
ghost use Rattle.table_machine.specs.Stored.{stored};
ghost use Rattle.table_binder.specs.Binding.{IsBound};
ghost use Rattle.table_binder.specs.Bound as bound;

use crate::names::{kind_of, place};
use crate::refusal::BindRefusal;
use crate::values::read_value;
use acra_base::{Sequence, ValueKind};
use sql_tree::{Cond, Op, Operand};
use sqlite_items::{Boxed, Items};
use std::alloc::Global;
use table_machine::{Cell, ColumnDef};
use table_rows::{Filter, Term};

fn is_left(operand: &Operand) -> bool
    ensures { result ≡ shapes.is_left operand.now }
{
    matches!(operand, Operand::Column(_) | Operand::Prefix33(_))
}

/// A column, or its first bytes.
fn bind_left(columns: &[ColumnDef], left: &Operand) -> Term
    requires few { length columns.now ≤ 256 }
    requires left { shapes.is_left left.now ≡ true }
    ensures { result ≡ bound.left_term columns.now left.now }
{
    match left {
        Operand::Column(name) => Term::Column(place(columns, name)),
        Operand::Prefix33(name) => Term::Prefix(place(columns, name)),
        _ => unreachable!(),
    }
}

/// A value that stands beside a column or its first bytes.
fn bind_value(
    alloc: Global,
    columns: &[ColumnDef],
    beside: &Operand,
    value: &Operand,
    given: &[Operand],
) -> Result<Cell, BindRefusal>
    requires { shapes.is_left beside.now ≡ true }
    ensures { IsBound (spec.first_unread (stored given.now) (spec.places_beside columns.now beside.now value.now)) result (λ c. c ≡ bound.cell_for given.now (machine.kind_beside (stored given.now) columns.now beside.now) value.now) }
{
    match beside {
        Operand::Column(name) => read_value(alloc, name, kind_of(columns, name), value, given),
        Operand::Prefix33(name) => read_value(alloc, name, ValueKind::Bytes, value, given),
        _ => unreachable!(),
    }
}

/// One side of a comparison, of which this or the other side is a column.
fn bind_operand(
    alloc: Global,
    columns: &[ColumnDef],
    beside: &Operand,
    operand: &Operand,
    given: &[Operand],
) -> Result<Term, BindRefusal>
    requires few { length columns.now ≤ 256 }
    requires left { (shapes.is_left beside.now || shapes.is_left operand.now) ≡ true }
    ensures { IsBound (spec.first_unread (stored given.now) (spec.operand_places columns.now beside.now operand.now)) result (λ t. t ≡ bound.bound_term given.now columns.now beside.now operand.now) }
{
    if is_left(operand) {
        return Ok(bind_left(columns, operand));
    }
    let cell = bind_value(alloc, columns, beside, operand, given)?;
    Ok(Term::Value(cell))
}

fn bind_comparison(
    alloc: Global,
    columns: &[ColumnDef],
    left: &Operand,
    op: Op,
    right: &Operand,
    given: &[Operand],
) -> Result<Filter, BindRefusal>
    requires few { length columns.now ≤ 256 }
    requires left { (shapes.is_left left.now || shapes.is_left right.now) ≡ true }
    ensures { IsBound (spec.first_unread (stored given.now) (spec.operand_places columns.now right.now left.now ++ spec.operand_places columns.now left.now right.now)) result (λ f. f ≡ filter.Compare (bound.bound_term given.now columns.now right.now left.now) op (bound.bound_term given.now columns.now left.now right.now)) }
{
    let first = bind_operand(alloc, columns, right, left, given)?;
    let second = bind_operand(alloc, columns, left, right, given)?;
    Ok(Filter::Compare {
        left: first,
        op,
        right: second,
    })
}

fn bind_list(
    alloc: Global,
    columns: &[ColumnDef],
    left: &Operand,
    list: &[Operand],
    given: &[Operand],
) -> Result<Sequence<Term>, BindRefusal>
    requires few { length columns.now ≤ 256 }
    requires left { shapes.is_left left.now ≡ true }
    ensures { IsBound (spec.first_unread (stored given.now) (flat_map (spec.operand_places columns.now left.now) list.now)) result (λ ts. ts ≡ map (bound.bound_term given.now columns.now left.now) list.now) }
{
    let mut terms = Vec::new(alloc);
    'values: for value in list {
        let term = bind_operand(alloc, columns, left, value, given)?;
        terms.push(term)?;
    }
    Ok(Sequence::from_vec(terms))
}

fn bind_within(
    alloc: Global,
    columns: &[ColumnDef],
    left: &Operand,
    list: &[Operand],
    given: &[Operand],
) -> Result<Filter, BindRefusal>
    requires few { length columns.now ≤ 256 }
    requires left { shapes.is_left left.now ≡ true }
    ensures { IsBound (spec.first_unread (stored given.now) (flat_map (spec.operand_places columns.now left.now) list.now)) result (λ f. f ≡ filter.Within (bound.left_term columns.now left.now) (map (bound.bound_term given.now columns.now left.now) list.now)) }
{
    let terms = bind_list(alloc, columns, left, list, given)?;
    Ok(Filter::Within {
        left: bind_left(columns, left),
        list: terms,
    })
}

fn bind_cond(
    alloc: Global,
    columns: &[ColumnDef],
    cond: &Cond,
    given: &[Operand],
) -> Result<Filter, BindRefusal>
    requires few { length columns.now ≤ 256 }
    requires shaped { shapes.is_shaped cond.now ≡ true }
    ensures { IsBound (spec.first_unread (stored given.now) (spec.cond_places columns.now cond.now)) result (λ f. f ≡ bound.bound_cond given.now columns.now cond.now) }
{
    match cond {
        Cond::And(parts) => {
            let mut filters = Vec::new(alloc);
            'ands: for part in parts.as_slice() {
                let filter = bind_cond(alloc, columns, part, given)?;
                filters.push(filter)?;
            }
            Ok(Filter::All(Items::from_vec(filters)))
        }
        Cond::Or(parts) => {
            let mut filters = Vec::new(alloc);
            'ors: for part in parts.as_slice() {
                let filter = bind_cond(alloc, columns, part, given)?;
                filters.push(filter)?;
            }
            Ok(Filter::Any(Items::from_vec(filters)))
        }
        Cond::Not(part) => {
            let filter = bind_cond(alloc, columns, part.get(), given)?;
            Ok(Filter::Not(Boxed::new(alloc, filter)?))
        }
        Cond::Compare { left, op, right } => {
            bind_comparison(alloc, columns, left, *op, right, given)
        }
        Cond::Within { left, list } => bind_within(alloc, columns, left, list.as_slice(), given),
        Cond::Null { column } => Ok(Filter::Null(place(columns, column))),
    }
}

/// A statement's condition with its columns as places in a row and its values as cells, where these literals are given for
/// the parameters. Values are read in the order of the text, and the first that is not read is the fault.
pub fn bind_where(
    alloc: Global,
    columns: &[ColumnDef],
    cond: &Option<Cond>,
    given: &[Operand],
) -> Result<Option<Filter>, BindRefusal>
    requires shaped { shapes.all_shaped cond.now ≡ true }
    requires few { length columns.now ≤ 256 }
    ensures { IsBound (spec.first_unread (stored given.now) (spec.where_places columns.now cond.now)) result (λ filter. (row : List ACell) → filters.passes filter row ≡ machine.passes (stored given.now) columns.now cond.now row) }
{
    match cond {
        None => Ok(None),
        Some(cond) => {
            let filter = bind_cond(alloc, columns, cond, given)?;
            Ok(Some(filter))
        }
    }
}
