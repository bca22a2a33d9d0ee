//! The results of a SELECT: the order of its rows, its columns, and its rows in text form.

ghost use Rattle.std.specs.Prelude.{◌≡◌, ◌≤◌, length, map, List, IfOk};
ghost use Rattle.sql_tree.specs.declared.condition.Operand.{Operand as AnOperand};
ghost use Rattle.sql_tree.specs.declared.statement.Item.{Item as AnItem};
ghost use Rattle.table_machine.specs.declared.cell.Cell.{Cell as ACell};
ghost use Rattle.table_machine.specs.Columns.{column_place};
ghost use Rattle.table_rows.specs.Filters as filters;
ghost use Rattle.table_machine.specs.Machine as machine;
ghost use Rattle.table_machine.specs.Stored.{stored};
ghost use Rattle.table_binder.specs.Keys.{bound_key};

use crate::names::{kind_of, place};
use acra_base::NoMemory;
use sql_tree::{Item, OrderKey};
use std::alloc::Global;
use table_machine::ColumnDef;
use table_rows::SortKey;

fn bind_places(
    alloc: Global,
    columns: &[ColumnDef],
    order: &[OrderKey],
) -> Result<Vec<SortKey>, NoMemory>
    requires few { length columns.now ≤ 256 }
    ensures { IfOk result (λ keys. keys.items ≡ map (bound_key columns.now) order.now) }
{
    let mut keys = Vec::new(alloc);
    'keys: for key in order {
        keys.push(SortKey {
            place: place(columns, &key.column),
            descending: key.descending,
        })?;
    }
    Ok(keys)
}

/// The columns of ORDER BY as places in a row.
pub fn bind_keys(
    alloc: Global,
    columns: &[ColumnDef],
    order: &[OrderKey],
) -> Result<Vec<SortKey>, NoMemory>
    requires few { length columns.now ≤ 256 }
    ensures { IfOk result (λ keys. (given : List AnOperand) (r s : List ACell) → filters.before keys.items r s ≡ machine.before (stored given) columns.now order.now r s) }
{
    bind_places(alloc, columns, order)
}

/// The places of a result's columns.
pub fn bind_items(
    alloc: Global,
    columns: &[ColumnDef],
    items: &[Item],
) -> Result<Vec<u16>, NoMemory>
    requires few { length columns.now ≤ 256 }
    ensures { IfOk result (λ places. places.items ≡ map (λ (i : AnItem). column_place columns.now i.column) items.now) }
{
    let mut places = Vec::new(alloc);
    'items: for item in items {
        places.push(place(columns, &item.column))?;
    }
    Ok(places)
}
