//! The columns of a result.

ghost use Rattle.std.specs.Prelude.{◌≡◌, ◌≤◌, length, map, IfOk, None, unwrap_or, codes, [], ◌∷◌};
ghost use Rattle.sql_tree.specs.declared.statement.Item.{Item as AnItem};
ghost use Rattle.table_machine.specs.declared.table.ColumnDef.{ColumnDef as AColumn};
ghost use Rattle.table_machine.specs.Tables as spec;

use crate::names::{kind_of, place};
use acra_base::{Bytes, Name, NoMemory, Sequence, ValueKind};
use sql_tree::{Item, Items};
use std::alloc::Global;
use table_machine::{ColumnDef, OutColumn};

/// The label, and the name where there is none.
fn out_name(label: &Option<Name>, name: &Name) -> Result<Name, NoMemory>
    ensures { IfOk result (λ n. n ≡ unwrap_or label.now name.now) }
{
    match label {
        Some(label) => Ok(label.clone()?),
        None => Ok(name.clone()?),
    }
}

fn out_column(
    alloc: Global,
    number: u16,
    columns: &[ColumnDef],
    label: &Option<Name>,
    name: &Name,
) -> Result<OutColumn, NoMemory>
    requires { length columns.now ≤ 256 }
    ensures { IfOk result (λ c. c ≡ spec.out_column number columns.now label.now name.now) }
{
    Ok(OutColumn {
        name: out_name(label, name)?,
        table: 16_384 + number as u32,
        attribute: place(columns, name) + 1,
        kind: kind_of(columns, name),
    })
}

fn count_name(alloc: Global, label: &Option<Name>) -> Result<Name, NoMemory>
    ensures { IfOk result (λ n. n ≡ unwrap_or label.now (codes "count")) }
{
    match label {
        Some(label) => Ok(label.clone()?),
        None => {
            let bytes = Bytes::copied(alloc, b"count")?;
            Ok(Name::new(bytes))
        }
    }
}

fn all_columns(
    alloc: Global,
    number: u16,
    columns: &[ColumnDef],
) -> Result<Sequence<OutColumn>, NoMemory>
    requires { length columns.now ≤ 256 }
    ensures { IfOk result (λ out. out ≡ map (λ (c : AColumn). spec.out_column number columns.now None c.name) columns.now) }
{
    let mut out = Vec::new(alloc);
    'columns: for column in columns {
        out.push(out_column(alloc, number, columns, &None, &column.name)?)?;
    }
    Ok(Sequence::from_vec(out))
}

fn item_columns(
    alloc: Global,
    number: u16,
    columns: &[ColumnDef],
    items: &[Item],
) -> Result<Sequence<OutColumn>, NoMemory>
    requires { length columns.now ≤ 256 }
    ensures { IfOk result (λ out. out ≡ map (λ (i : AnItem). spec.out_column number columns.now i.label i.column) items.now) }
{
    let mut out = Vec::new(alloc);
    'items: for item in items {
        out.push(out_column(alloc, number, columns, &item.label, &item.column)?)?;
    }
    Ok(Sequence::from_vec(out))
}

fn count_columns(alloc: Global, label: &Option<Name>) -> Result<Sequence<OutColumn>, NoMemory>
    ensures { IfOk result (λ out. out ≡ spec.count_column 0 [] label.now ∷ []) }
{
    let mut out = Vec::new(alloc);
    out.push(OutColumn {
        name: count_name(alloc, label)?,
        table: 0,
        attribute: 0,
        kind: ValueKind::Int64,
    })?;
    Ok(Sequence::from_vec(out))
}

/// The columns of a result, for the table of this number.
pub fn out_columns(
    alloc: Global,
    number: u16,
    columns: &[ColumnDef],
    items: &Items,
) -> Result<Sequence<OutColumn>, NoMemory>
    requires { length columns.now ≤ 256 }
    ensures { IfOk result (λ out. out ≡ spec.out_columns number columns.now items.now) }
{
    match items {
        Items::All => all_columns(alloc, number, columns),
        Items::Count { label } => count_columns(alloc, label),
        Items::Columns(all) => item_columns(alloc, number, columns, all.as_slice()),
    }
}
