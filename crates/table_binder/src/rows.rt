//! The rows that an INSERT adds.

ghost use Rattle.std.specs.Prelude.{◌≡◌, map, IfOk};
ghost use Rattle.std.specs.List.{flat_map};
ghost use Rattle.table_machine.specs.declared.cell.Cell.TheVariants as cell;
ghost use Rattle.table_machine.specs.declared.table.ColumnDef.{ColumnDef as AColumn};
ghost use Rattle.table_machine.specs.Columns.{listed};
ghost use Rattle.table_machine.specs.Faults as spec;
ghost use Rattle.table_machine.specs.Machine as machine;
ghost use Rattle.table_machine.specs.Stored.{stored};
ghost use Rattle.table_binder.specs.Binding.{IsBound};

use crate::names::{Named, kind_of, place_of};
use crate::refusal::BindRefusal;
use crate::sets::set_at;
use crate::values::read_value;
use acra_base::{Name, NoMemory, Sequence};
use sql_tree::Operand;
use std::alloc::Global;
use table_machine::{Cell, ColumnDef};

/// A row of NULL, with a cell for each column.
fn null_row(alloc: Global, columns: &[ColumnDef]) -> Result<Vec<Cell>, NoMemory>
    ensures { IfOk result (λ row. row.items ≡ map (λ (_ : AColumn). cell.Null) columns.now) }
{
    let mut row = Vec::new(alloc);
    'columns: for _ in columns {
        row.push(Cell::Null)?;
    }
    Ok(row)
}

fn bind_row<T: Named>(
    alloc: Global,
    columns: &[ColumnDef],
    names: &[T],
    values: &[Operand],
    given: &[Operand],
) -> Result<Sequence<Cell>, BindRefusal>
    ensures { IsBound (spec.first_unread (stored given.now) (spec.row_places columns.now (map T.name names.now) values.now)) result (λ row. row ≡ machine.new_row (stored given.now) columns.now (map T.name names.now) values.now) }
{
    let mut row = null_row(alloc, columns)?;
    let count = names.len().min(values.len());
    'values: for index in 0..count {
        let name = names[index].name();
        let kind = kind_of(columns, name);
        let cell = read_value(alloc, name, kind, &values[index], given)?;
        set_at(&mut row, place_of(columns, name), cell);
    }
    Ok(Sequence::from_vec(row))
}

fn bind_under<T: Named>(
    alloc: Global,
    columns: &[ColumnDef],
    names: &[T],
    rows: &[Sequence<Operand>],
    given: &[Operand],
) -> Result<Vec<Sequence<Cell>>, BindRefusal>
    ensures { IsBound (spec.first_unread (stored given.now) (flat_map (spec.row_places columns.now (map T.name names.now)) rows.now)) result (λ new. new.items ≡ map (machine.new_row (stored given.now) columns.now (map T.name names.now)) rows.now) }
{
    let mut new = Vec::new(alloc);
    'rows: for values in rows {
        let row = bind_row(alloc, columns, names, values.as_slice(), given)?;
        new.push(row)?;
    }
    Ok(new)
}

/// The rows of an INSERT, where these literals are given for the parameters: a cell for each column, NULL where the column
/// is not named. Values are read in the order of the text, and the first that is not read is the fault.
pub fn bind_rows(
    alloc: Global,
    columns: &[ColumnDef],
    names: &Option<Sequence<Name>>,
    rows: &[Sequence<Operand>],
    given: &[Operand],
) -> Result<Vec<Sequence<Cell>>, BindRefusal>
    ensures { IsBound (spec.first_unread (stored given.now) (spec.insert_places columns.now names.now rows.now)) result (λ new. new.items ≡ map (machine.new_row (stored given.now) columns.now (listed columns.now names.now)) rows.now) }
{
    match names {
        None => bind_under(alloc, columns, columns, rows, given),
        Some(names) => bind_under(alloc, columns, names.as_slice(), rows, given),
    }
}
