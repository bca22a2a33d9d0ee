//! Rows in text form.

ghost use Rattle.std.specs.Prelude.{◌≡◌, map, IfOk, slice_index_or};
ghost use Rattle.std.specs.Fmt.{signed_decimal};
ghost use Rattle.plain_values.specs.Values.{text_spelling};
ghost use Rattle.table_machine.specs.declared.cell.Cell.TheVariants as cells;
ghost use Rattle.table_machine.specs.Stored as spec;
ghost use Rattle.table_machine.specs.Tables as tables;

use acra_base::{Bytes, NoMemory, Sequence, ValueKind};
use std::alloc::Global;
use table_machine::{Cell, OutColumn};

fn decimal(alloc: Global, number: i64) -> Result<Bytes, NoMemory>
    ensures { IfOk result (λ text. text ≡ signed_decimal number) }
{
    let text = number.to_string(alloc)?;
    Bytes::copied(alloc, text.as_bytes())
}

fn spelled_bytes(alloc: Global, kind: ValueKind, bytes: &[u8]) -> Result<Bytes, NoMemory>
    ensures { IfOk result (λ text. text ≡ text_spelling kind bytes.now) }
{
    if kind != ValueKind::Bytes {
        return Bytes::copied(alloc, bytes);
    }
    let mut text = Bytes::copied(alloc, b"\\x")?;
    text.extend(hex::encode(alloc, bytes)?.as_bytes())?;
    Ok(text)
}

/// The text form of a cell of a column of this kind; `None` for NULL.
fn spelled(alloc: Global, kind: ValueKind, cell: &Cell) -> Result<Option<Bytes>, NoMemory>
    ensures { IfOk result (λ text. text ≡ spec.spelled kind cell.now) }
{
    match cell {
        Cell::Null => Ok(None),
        Cell::Int(number) => Ok(Some(decimal(alloc, *number)?)),
        Cell::Bytes(bytes) => Ok(Some(spelled_bytes(alloc, kind, bytes.as_slice())?)),
    }
}

fn spelled_at(
    alloc: Global,
    kind: ValueKind,
    row: &[Cell],
    place: u16,
) -> Result<Option<Bytes>, NoMemory>
    ensures { IfOk result (λ text. text ≡ spec.spelled kind (slice_index_or row.now place cells.Null)) }
{
    match row.get(place as usize) {
        Some(cell) => spelled(alloc, kind, cell),
        None => Ok(None),
    }
}

/// A result's row in text form: the cells at these places, each by its column's kind. A place past the row's end is NULL.
pub fn out_row(
    alloc: Global,
    columns: &[OutColumn],
    row: &[Cell],
    places: &[u16],
) -> Result<Sequence<Option<Bytes>>, NoMemory>
    ensures { IfOk result (λ out. out ≡ tables.spelled_row columns.now (map (λ p. slice_index_or row.now p cells.Null) places.now)) }
{
    let mut out = Vec::new(alloc);
    let count = columns.len().min(places.len());
    'cells: for index in 0..count {
        out.push(spelled_at(alloc, columns[index].kind, row, places[index])?)?;
    }
    Ok(Sequence::from_vec(out))
}

/// The text form of a whole row.
pub fn spelled_row(
    alloc: Global,
    columns: &[OutColumn],
    row: &[Cell],
) -> Result<Sequence<Option<Bytes>>, NoMemory>
    ensures { IfOk result (λ out. out ≡ tables.spelled_row columns.now row.now) }
{
    let mut out = Vec::new(alloc);
    let count = columns.len().min(row.len());
    'cells: for index in 0..count {
        out.push(spelled(alloc, columns[index].kind, &row[index])?)?;
    }
    Ok(Sequence::from_vec(out))
}
