//! The cells that an UPDATE sets.

ghost use Rattle.std.specs.Prelude.{◌≡◌, ◌≤◌, length, map, List, IfOk, slice_set};
ghost use Rattle.table_machine.specs.declared.cell.Cell.{Cell as ACell};
ghost use Rattle.table_machine.specs.Faults as spec;
ghost use Rattle.table_machine.specs.Machine as machine;
ghost use Rattle.table_machine.specs.Stored.{stored};
ghost use Rattle.table_binder.specs.Binding.{IsBound};
ghost use Rattle.table_binder.specs.Sets.{bound_set, set_cells};

use crate::names::{kind_of, place};
use crate::refusal::BindRefusal;
use crate::values::read_value;
use acra_base::{Bytes, NoMemory, Sequence};
use sql_tree::{Operand, SetPair};
use std::alloc::Global;
use table_machine::{Cell, ColumnDef};

/// A place in a row and the cell that is set there.
#[derive(Debug, Drop)]
pub struct SetCell {
    /// The place.
    pub place: u16,
    /// The cell.
    pub cell: Cell,
}

fn bind_pair(
    alloc: Global,
    columns: &[ColumnDef],
    pair: &SetPair,
    given: &[Operand],
) -> Result<SetCell, BindRefusal>
    requires few { length columns.now ≤ 256 }
    ensures { IsBound (spec.place_fault (stored given.now) (spec.place_at columns.now pair.now.column pair.now.value)) result (λ s. s ≡ bound_set given.now columns.now pair.now) }
{
    let kind = kind_of(columns, &pair.column);
    let cell = read_value(alloc, &pair.column, kind, &pair.value, given)?;
    Ok(SetCell {
        place: place(columns, &pair.column),
        cell,
    })
}

fn bind_pairs(
    alloc: Global,
    columns: &[ColumnDef],
    sets: &[SetPair],
    given: &[Operand],
) -> Result<Vec<SetCell>, BindRefusal>
    requires few { length columns.now ≤ 256 }
    ensures { IsBound (spec.first_unread (stored given.now) (spec.set_places columns.now sets.now)) result (λ bound. bound.items ≡ map (bound_set given.now columns.now) sets.now) }
{
    let mut bound = Vec::new(alloc);
    'pairs: for pair in sets {
        let cell = bind_pair(alloc, columns, pair, given)?;
        bound.push(cell)?;
    }
    Ok(bound)
}

/// The cells that the pairs of SET set, where these literals are given for the parameters. Values are read in the order of
/// the pairs, and the first that is not read is the fault.
pub fn bind_sets(
    alloc: Global,
    columns: &[ColumnDef],
    sets: &[SetPair],
    given: &[Operand],
) -> Result<Vec<SetCell>, BindRefusal>
    requires few { length columns.now ≤ 256 }
    ensures { IsBound (spec.first_unread (stored given.now) (spec.set_places columns.now sets.now)) result (λ bound. (row : List ACell) → set_cells bound.items row ≡ machine.set_all (stored given.now) columns.now sets.now row) }
{
    bind_pairs(alloc, columns, sets, given)
}

/// Sets the cell at a place, where the row reaches so far.
pub(crate) fn set_at(row: &mut Vec<Cell>, place: usize, cell: Cell)
    ensures { row.new.items ≡ slice_set row.old.items place cell }
{
    if place < row.len() {
        row[place] = cell;
    }
}

fn copied_row(alloc: Global, row: &[Cell]) -> Result<Vec<Cell>, NoMemory>
    ensures { IfOk result (λ new. new.items ≡ row.now) }
{
    let mut new = Vec::new(alloc);
    'cells: for cell in row {
        new.push(cell.copied()?)?;
    }
    Ok(new)
}

/// A row with these cells set; copied.
pub fn set_row(alloc: Global, row: &[Cell], sets: &[SetCell]) -> Result<Sequence<Cell>, NoMemory>
    ensures { IfOk result (λ new. new ≡ set_cells sets.now row.now) }
{
    let mut new = copied_row(alloc, row)?;
    'sets: for set in sets {
        let cell = set.cell.copied()?;
        set_at(&mut new, set.place as usize, cell);
    }
    Ok(Sequence::from_vec(new))
}
