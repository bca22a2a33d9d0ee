ghost use Rattle.std.specs.Prelude.{◌≡◌};
ghost use Rattle.session_model.specs.Served.{is_notes, is_column, is_item, are_columns_of, are_items, is_bare, are_columns, is_number, is_row, are_rows, is_served};

use acra_base::{Name, Sequence};
use sql_tree::{Cond, Item, Items, Operand, OrderKey, Statement};

/// A number is below this.
const NUMBER_LIMIT: i128 = 1 << 63;

fn is_notes(table: &Name) -> bool
    ensures { result ≡ is_notes table.now }
{
    table.as_slice() == b"notes".as_slice()
}

fn is_column(name: &Name) -> bool
    ensures { result ≡ is_column name.now }
{
    name.as_slice() == b"id".as_slice() || name.as_slice() == b"body".as_slice()
}

// Whether a column is given under its own name.
fn is_item(item: &Item) -> bool
    ensures { result ≡ is_item item.now }
{
    is_column(&item.column) && item.label.is_none()
}

fn are_columns_of(items: &[Item]) -> bool
    ensures { result ≡ are_columns_of items.now }
{
    match items {
        [item] => is_item(item),
        [first, second] => is_item(first) && is_item(second),
        _ => false,
    }
}

fn are_items(items: &Items) -> bool
    ensures { result ≡ are_items items.now }
{
    match items {
        Items::Columns(items) => are_columns_of(items.as_slice()),
        Items::All | Items::Count { .. } => false,
    }
}

// Whether a SELECT has no condition, no order and no limits.
fn is_bare(cond: &Option<Cond>, order: &[OrderKey], limit: Option<u64>, offset: Option<u64>) -> bool
    ensures { result ≡ is_bare cond.now order.now limit offset }
{
    match order {
        [] => cond.is_none() && (limit.is_none() && offset.is_none()),
        _ => false,
    }
}

fn are_columns(columns: &Option<Sequence<Name>>) -> bool
    ensures { result ≡ are_columns columns.now }
{
    match columns {
        None => true,
        Some(names) => match names.as_slice() {
            [first, second] => {
                first.as_slice() == b"id".as_slice() && second.as_slice() == b"body".as_slice()
            }
            _ => false,
        },
    }
}

// Whether a number is one of int8 without a sign.
fn is_number(number: i128) -> bool
    ensures { result ≡ is_number number }
{
    0 <= number && number < NUMBER_LIMIT
}

fn is_row(values: &[Operand]) -> bool
    ensures { result ≡ is_row values.now }
{
    match values {
        [Operand::Number(number), Operand::Text(_)] => is_number(number.get()),
        _ => false,
    }
}

fn are_rows(rows: &[Sequence<Operand>]) -> bool
    ensures { result ≡ are_rows rows.now }
{
    match rows {
        [row] => is_row(row.as_slice()),
        _ => false,
    }
}

/// Whether a statement is served: a SELECT of one or two columns of notes, or an INSERT of a number and a string.
pub fn is_served(tree: &Statement) -> bool
    ensures { result ≡ is_served tree.now }
{
    match tree {
        Statement::Select {
            table,
            items,
            cond,
            order,
            limit,
            offset,
        } => {
            is_notes(table)
                && (is_bare(cond, order.as_slice(), *limit, *offset) && are_items(items))
        }
        Statement::Insert {
            table,
            columns,
            rows,
        } => is_notes(table) && (are_columns(columns) && are_rows(rows.as_slice())),
        _ => false,
    }
}
