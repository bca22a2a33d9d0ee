ghost use Rattle.std.specs.Prelude.{◌≡◌, [], true, IfOk};
ghost use Rattle.acra_base.specs.Names.{is_name};
ghost use Rattle.session_model.specs.Notes.{notes_with};
ghost use Rattle.lab_session.specs.Cells.{notes_body};

use acra_base::{Bytes, Name, NoMemory, Sequence, ValueKind};
use acra_block::CellPlace;
use std::alloc::Global;
use table_machine::{ColumnDef, TableDef};
use table_store::Tables;

fn named(alloc: Global, name: &[u8]) -> Result<Name, NoMemory>
    requires { is_name name.now ≡ true }
    ensures { IfOk result (λ named. named ≡ name.now) }
{
    Ok(Name::new(Bytes::copied(alloc, name)?))
}

fn column(alloc: Global, name: &[u8], kind: ValueKind) -> Result<ColumnDef, NoMemory>
    requires { is_name name.now ≡ true }
    ensures { IfOk result (λ column. column ≡ record { name = name.now; kind = kind }) }
{
    Ok(ColumnDef {
        name: named(alloc, name)?,
        kind,
    })
}

/// The place of the protected cells.
pub fn notes_body(alloc: Global) -> Result<CellPlace, NoMemory>
    ensures { IfOk result (λ place. place ≡ notes_body) }
{
    Ok(CellPlace {
        table: named(alloc, b"notes")?,
        column: named(alloc, b"body")?,
    })
}

/// The table notes without rows: `id` is int8, `body` is protected and bytea.
pub fn notes_tables(alloc: Global) -> Result<Tables, NoMemory>
    ensures { IfOk result (λ tables. tables ≡ notes_with []) }
{
    let mut columns = Sequence::new(alloc);
    columns.push(column(alloc, b"id", ValueKind::Int64)?)?;
    columns.push(column(alloc, b"body", ValueKind::Bytes)?)?;
    let notes = TableDef {
        name: named(alloc, b"notes")?,
        columns,
        key: None,
    };
    let mut defs = Vec::new(alloc);
    defs.push(notes)?;
    Ok(Tables::new(alloc, defs))
}
