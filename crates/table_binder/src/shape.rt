//! The faults that show before the values of a statement are read.

ghost use Rattle.std.specs.Prelude.{◌≡◌, IfOk};
ghost use Rattle.table_machine.specs.Faults.{shape_fault};

use crate::counts::has_wrong_count;
use crate::faults::{column_twice, no_column, not_done, wrong_count};
use crate::kinds::is_undone;
use crate::names::{name_twice, unknown_name};
use acra_base::NoMemory;
use sql_tree::Statement;
use std::alloc::Global;
use table_machine::{ColumnDef, LabFault};

/// The first fault of a statement before its values are read: a wrong count of values, a name that no column has, a
/// column that is written twice, a comparison that is not done. The columns are those of the statement's table.
pub fn check_shape(
    alloc: Global,
    columns: &[ColumnDef],
    tree: &Statement,
) -> Result<Option<LabFault>, NoMemory>
    ensures { IfOk result (λ f. f ≡ shape_fault columns.now tree.now) }
{
    if has_wrong_count(columns, tree) {
        return Ok(Some(wrong_count(alloc)?));
    }
    if let Some(name) = unknown_name(columns, tree) {
        return Ok(Some(no_column(alloc, name)?));
    }
    if let Some(name) = name_twice(tree) {
        return Ok(Some(column_twice(alloc, name)?));
    }
    if is_undone(columns, tree) {
        return Ok(Some(not_done(alloc)?));
    }
    Ok(None)
}
