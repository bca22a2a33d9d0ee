//! Values read for a column.

ghost use Rattle.std.specs.Prelude.{◌≡◌, ◌-◌, slice_index_or};
ghost use Rattle.acra_base.specs.declared.kind.ValueKind.TheVariants as kinds;
ghost use Rattle.sql_tree.specs.declared.condition.Operand.TheVariants as operand;
ghost use Rattle.plain_values.specs.Values.{reading, integer_reading};
ghost use Rattle.table_rows.specs.Reading.{IsRead, refusal_of};
ghost use Rattle.table_machine.specs.Stored.{integer_cell, integer_read, literal_read, number_read, operand_read, read_as, text_read};
ghost use Rattle.table_machine.specs.Machine as machine;
ghost use Rattle.table_machine.specs.declared.cell.Cell.TheVariants as cells;
ghost use Rattle.std.specs.Fmt.{signed_decimal};

use acra_base::{Bytes, NoMemory, ValueKind};
use plain_values::{ValueRefusal, read_number, read_text};
use sql_tree::Operand;
use std::alloc::Global;
use table_machine::Cell;

/// Why a value is not read.
#[derive(Clone, Copy, Debug, PartialEq, Eq)]
pub enum ReadRefusal {
    /// It is no value of its column's kind.
    Bad,
    /// It is a number outside the kind's range.
    Beyond,
    /// There was no memory for it.
    NoMemory,
}

fn refusal_of(refusal: ValueRefusal) -> ReadRefusal
    ensures { result ≡ refusal_of refusal }
{
    match refusal {
        ValueRefusal::Bad | ValueRefusal::TooLong => ReadRefusal::Bad,
        ValueRefusal::Range => ReadRefusal::Beyond,
        ValueRefusal::NoMemory => ReadRefusal::NoMemory,
    }
}

fn read_bytes(alloc: Global, kind: ValueKind, text: &[u8]) -> Result<Cell, ReadRefusal>
    ensures { IsRead (read_as cells.Bytes (reading kind text.now)) result }
{
    let mut plain = Vec::new(alloc);
    match read_text(alloc, kind, text, &mut plain) {
        Ok(()) => Ok(Cell::Bytes(Bytes::from_vec(plain))),
        Err(refusal) => Err(refusal_of(refusal)),
    }
}

fn read_integer(kind: ValueKind, text: &[u8]) -> Result<Cell, ReadRefusal>
    ensures { IsRead (read_as integer_cell (integer_reading kind text.now)) result }
{
    match read_number(kind, text) {
        Ok(number) => Ok(Cell::Int(number)),
        Err(refusal) => Err(refusal_of(refusal)),
    }
}

fn read_string(alloc: Global, kind: ValueKind, text: &[u8]) -> Result<Cell, ReadRefusal>
    ensures { IsRead (text_read kind (reading kind text.now)) result }
{
    match kind {
        ValueKind::Str | ValueKind::Bytes => read_bytes(alloc, kind, text),
        ValueKind::Int32 | ValueKind::Int64 => read_integer(kind, text),
    }
}

fn decimal(alloc: Global, number: i128) -> Result<Cell, ReadRefusal>
    ensures { IsRead (machine.value (cells.Bytes (signed_decimal number))) result }
{
    match number.to_string(alloc) {
        Ok(text) => match Bytes::copied(alloc, text.as_bytes()) {
            Ok(bytes) => Ok(Cell::Bytes(bytes)),
            Err(_) => Err(ReadRefusal::NoMemory),
        },
        Err(_) => Err(ReadRefusal::NoMemory),
    }
}

fn int4(number: i128) -> Result<Cell, ReadRefusal>
    ensures { IsRead (integer_read kinds.Int32 number) result }
{
    if -0x8000_0000 <= number && number <= 0x7fff_ffff {
        return Ok(Cell::Int(number as i64));
    }
    Err(ReadRefusal::Beyond)
}

fn int8(number: i128) -> Result<Cell, ReadRefusal>
    ensures { IsRead (integer_read kinds.Int64 number) result }
{
    if -0x8000_0000_0000_0000 <= number && number <= 0x7fff_ffff_ffff_ffff {
        return Ok(Cell::Int(number as i64));
    }
    Err(ReadRefusal::Beyond)
}

fn read_whole(alloc: Global, kind: ValueKind, number: i128) -> Result<Cell, ReadRefusal>
    ensures { IsRead (number_read kind number) result }
{
    match kind {
        ValueKind::Str => decimal(alloc, number),
        ValueKind::Bytes => Err(ReadRefusal::Bad),
        ValueKind::Int32 => int4(number),
        ValueKind::Int64 => int8(number),
    }
}

fn read_literal(alloc: Global, kind: ValueKind, value: &Operand) -> Result<Cell, ReadRefusal>
    ensures { IsRead (literal_read kind value.now) result }
{
    match value {
        Operand::Text(text) => read_string(alloc, kind, text.as_slice()),
        Operand::Number(number) => read_whole(alloc, kind, number.get()),
        Operand::NullValue => Ok(Cell::Null),
        Operand::Column(_) | Operand::Prefix33(_) | Operand::Parameter(_) => Err(ReadRefusal::Bad),
    }
}

/// The literal that is given for a parameter.
fn read_given(
    alloc: Global,
    kind: ValueKind,
    number: u16,
    given: &[Operand],
) -> Result<Cell, ReadRefusal>
    ensures { IsRead (literal_read kind (slice_index_or given.now (number - 1) operand.NullValue)) result }
{
    match given.get((number as usize).saturating_sub(1)) {
        Some(value) => read_literal(alloc, kind, value),
        None => Ok(Cell::Null),
    }
}

/// Reads a value for a column of this kind, where these literals are given for the parameters. A literal of
/// any length is read; a parameter past their end is NULL.
pub fn read_cell(
    alloc: Global,
    kind: ValueKind,
    value: &Operand,
    given: &[Operand],
) -> Result<Cell, ReadRefusal>
    ensures { IsRead (operand_read given.now kind value.now) result }
{
    match value {
        Operand::Parameter(number) => read_given(alloc, kind, *number, given),
        literal => read_literal(alloc, kind, literal),
    }
}
