//! Values read for columns.

ghost use Rattle.std.specs.Prelude.{◌≡◌};
ghost use Rattle.table_machine.specs.Faults.{place_fault};
ghost use Rattle.table_machine.specs.Stored.{stored};
ghost use Rattle.table_binder.specs.Binding.{IsBound};
ghost use Rattle.table_binder.specs.Bound.{cell_for};

use crate::faults::{bad_value, beyond_range};
use crate::refusal::BindRefusal;
use acra_base::{Name, ValueKind};
use sql_tree::Operand;
use std::alloc::Global;
use table_machine::Cell;
use table_rows::{ReadRefusal, read_cell};

/// Reads a value for the column of this name, as a value of this kind.
pub(crate) fn read_value(
    alloc: Global,
    column: &Name,
    kind: ValueKind,
    value: &Operand,
    given: &[Operand],
) -> Result<Cell, BindRefusal>
    ensures { IsBound (place_fault (stored given.now) (record { column = column.now; kind = kind; value = value.now })) result (λ c. c ≡ cell_for given.now kind value.now) }
{
    match read_cell(alloc, kind, value, given) {
        Ok(cell) => Ok(cell),
        Err(ReadRefusal::Bad) => Err(BindRefusal::Fault(bad_value(alloc, column)?)),
        Err(ReadRefusal::Beyond) => Err(BindRefusal::Fault(beyond_range(alloc, column)?)),
        Err(ReadRefusal::NoMemory) => Err(BindRefusal::NoMemory),
    }
}
