//! Rows of values and their counts.

ghost use Rattle.std.specs.Prelude.{◌≡◌, not};
ghost use Rattle.std.specs.List.{list_any};
ghost use Rattle.table_machine.specs.Faults as spec;

use acra_base::{Name, Sequence};
use sql_tree::{Operand, Statement};
use table_machine::ColumnDef;

fn is_count(columns: &[ColumnDef], names: &Option<Sequence<Name>>, row: &[Operand]) -> bool
    ensures { result ≡ spec.is_count columns.now names.now row.now }
{
    match names {
        None => row.len() <= columns.len(),
        Some(names) => row.len() == names.len(),
    }
}

fn any_wrong(
    columns: &[ColumnDef],
    names: &Option<Sequence<Name>>,
    rows: &[Sequence<Operand>],
) -> bool
    ensures { result ≡ list_any (λ row. not (spec.is_count columns.now names.now row)) rows.now }
{
    'rows: for row in rows {
        if !is_count(columns, names, row.as_slice()) {
            return true;
        }
    }
    false
}

/// Whether some row of an INSERT has a wrong count of values.
pub(crate) fn has_wrong_count(columns: &[ColumnDef], tree: &Statement) -> bool
    ensures { result ≡ spec.has_wrong_count columns.now tree.now }
{
    match tree {
        Statement::Insert {
            columns: names,
            rows,
            ..
        } => any_wrong(columns, names, rows.as_slice()),
        _ => false,
    }
}
