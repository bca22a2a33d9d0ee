//! The messages that tell an outcome. RowDescription and DataRow may be too long to be written, since cells of
//! up to 2^27 bytes can be selected many times over; that counts as want of memory.

ghost use Rattle.std.specs.Prelude.{◌≡◌, ◌++◌, ◌+◌, ◌^◌, ◌<◌, ◌≤◌, IfOk, OnOk, IsTrue, length, map};
ghost use Rattle.std.specs.List.{AllByRecursion, flat_map};
ghost use Rattle.pg_wire.specs.declared.back.Back.TheVariants as backs;
ghost use Rattle.pg_wire.specs.Backs.{IsCell, back_frame, cell_bytes};
ghost use Rattle.machine_replies.specs.Replies.{IsWritable, field_of, messages_of, oid_of, size_of};
ghost use Rattle.lab_backend.specs.Described.{IsDescribed};

use crate::replies::{write_completed, write_error};
use acra_base::{Bytes, NoMemory, Sequence, ValueKind};
use pg_wire::{Back, Field, write_back};
use sql_tree::Statement;
use std::alloc::Global;
use table_machine::{OutColumn, Outcome};

// The most columns of a message, and the most bytes that the cells of a DataRow take with their lengths.
const MOST_COLUMNS: usize = 65_535;

const MOST_BYTES: usize = (1 << 30) - 7;

/// Appends the messages that tell what a statement gave.
pub fn write_outcome(
    alloc: Global,
    statement: &Statement,
    outcome: &Outcome,
    out: &mut Vec<u8>,
) -> Result<(), NoMemory>
    ensures appended { OnOk result (out.new.items ≡ out.old.items ++ flat_map back_frame (messages_of statement.now outcome.now)) }
    ensures writable { OnOk result (AllByRecursion IsWritable (messages_of statement.now outcome.now)) }
{
    match outcome {
        Outcome::Rows { columns, rows } => {
            write_columns(alloc, columns.as_slice(), out)?;
            write_rows(alloc, rows.as_slice(), out)?;
            write_completed(alloc, statement, rows.len() as u64, out)
        }
        Outcome::Count(count) => write_completed(alloc, statement, *count, out),
        Outcome::Fault(fault) => write_error(alloc, &fault.code, fault.text.as_slice(), out),
    }
}

/// Appends RowDescription.
fn write_columns(alloc: Global, columns: &[OutColumn], out: &mut Vec<u8>) -> Result<(), NoMemory>
    ensures appended { OnOk result (out.new.items ≡ out.old.items ++ back_frame (backs.Row (map field_of columns.now))) }
    ensures writable { OnOk result (IsWritable (backs.Row (map field_of columns.now))) }
{
    let mut fields = Sequence::new(alloc);
    'columns: for column in columns {
        fields.push(field_of(alloc, column)?)?;
    }
    write_fields(fields, out)
}

fn write_fields(fields: Sequence<Field>, out: &mut Vec<u8>) -> Result<(), NoMemory>
    requires { AllByRecursion IsDescribed fields }
    ensures appended { OnOk result (out.new.items ≡ out.old.items ++ back_frame (backs.Row fields)) }
    ensures writable { OnOk result (IsWritable (backs.Row fields)) }
{
    if fields.len() > MOST_COLUMNS {
        return Err(NoMemory);
    }
    write_back(&Back::Row(fields), out)
}

fn field_of(alloc: Global, column: &OutColumn) -> Result<Field, NoMemory>
    ensures field { IfOk result (λ field. field ≡ field_of column.now) }
    ensures described { OnOk result (IsDescribed (field_of column.now)) }
{
    let table = column.table;
    let attribute = column.attribute;
    Ok(Field {
        name: Bytes::copied(alloc, column.name.as_slice())?,
        table,
        attribute,
        kind: oid_of(&column.kind),
        size: size_of(&column.kind),
        modifier: -1,
        format: 0,
    })
}

/// The OID of a type: text, bytea, int4 or int8.
fn oid_of(kind: &ValueKind) -> u32
    ensures { result ≡ oid_of kind.now }
{
    match kind {
        ValueKind::Str => 25,
        ValueKind::Bytes => 17,
        ValueKind::Int32 => 23,
        ValueKind::Int64 => 20,
    }
}

/// The size of a type's values, -1 where it varies.
fn size_of(kind: &ValueKind) -> i16
    ensures { result ≡ size_of kind.now }
{
    match kind {
        ValueKind::Str | ValueKind::Bytes => -1,
        ValueKind::Int32 => 4,
        ValueKind::Int64 => 8,
    }
}

/// Appends a DataRow for each row.
fn write_rows(
    alloc: Global,
    rows: &[Sequence<Option<Bytes>>],
    out: &mut Vec<u8>,
) -> Result<(), NoMemory>
    ensures appended { OnOk result (out.new.items ≡ out.old.items ++ flat_map back_frame (map (λ row. backs.Cells row) rows.now)) }
    ensures writable { OnOk result (AllByRecursion (λ row. IsWritable (backs.Cells row)) rows.now) }
{
    'rows: for row in rows {
        write_row(alloc, row.as_slice(), out)?;
    }
    Ok(())
}

/// Appends a DataRow.
fn write_row(alloc: Global, row: &[Option<Bytes>], out: &mut Vec<u8>) -> Result<(), NoMemory>
    ensures appended { OnOk result (out.new.items ≡ out.old.items ++ back_frame (backs.Cells row.now)) }
    ensures writable { OnOk result (IsWritable (backs.Cells row.now)) }
{
    if !is_writable_row(row) {
        return Err(NoMemory);
    }
    write_back(&Back::Cells(copied(alloc, row)?), out)
}

fn is_writable_row(row: &[Option<Bytes>]) -> bool
    ensures { IsTrue result → IsWritable (backs.Cells row.now) }
{
    row.len() <= MOST_COLUMNS && are_short(row)
}

/// Whether the cells with their lengths take few enough bytes.
fn are_short(cells: &[Option<Bytes>]) -> bool
    ensures each { IsTrue result → AllByRecursion IsCell cells.now }
    ensures all { IsTrue result → length (flat_map cell_bytes cells.now) + 7 ≤ 2 ^ 30 }
{
    let mut left = MOST_BYTES;
    'cells: for cell in cells {
        let size = size_of_cell(cell);
        if left < size {
            return false;
        }
        left -= size;
    }
    true
}

/// How many bytes a cell takes with its length.
fn size_of_cell(cell: &Option<Bytes>) -> usize
    ensures { result ≡ length (cell_bytes cell.now) }
{
    match cell {
        Some(text) => text.as_slice().len() + 4,
        None => 4,
    }
}

/// A copy of a row.
fn copied(alloc: Global, row: &[Option<Bytes>]) -> Result<Sequence<Option<Bytes>>, NoMemory>
    ensures { IfOk result (λ copy. copy ≡ row.now) }
{
    let mut copy = Sequence::new(alloc);
    'cells: for cell in row {
        copy.push(copied_cell(cell)?)?;
    }
    Ok(copy)
}

fn copied_cell(cell: &Option<Bytes>) -> Result<Option<Bytes>, NoMemory>
    ensures { IfOk result (λ copy. copy ≡ cell.now) }
{
    match cell {
        Some(text) => Ok(Some(text.clone()?)),
        None => Ok(None),
    }
}
