ghost use Rattle.std.specs.Prelude.{◌≡◌, ◌++◌, ◌∷◌, [], ◌<◌, ◌^◌, length, OnOk, List, Option};
ghost use Rattle.std.specs.Int.{w16, w32, to_be_bytes, cast_unsigned};
ghost use Rattle.std.specs.List.{flat_map, AllByRecursion};
ghost use Rattle.byte_reader.specs.Fields.{str};
ghost use Rattle.pg_wire.specs.Parts.{pair_bytes, IsCell, cell_bytes, counted_items, listed_items, AreCounted};
ghost use Rattle.pg_wire.specs.Backs.{field_bytes, error_bytes};

use crate::back::{ErrorField, Field, NULL_LENGTH};
use crate::front::Pair;
use acra_base::{Bytes, NoMemory};

/// Puts a text and its zero byte at the end.
pub fn put_str(text: &Bytes, out: &mut Vec<u8>) -> Result<(), NoMemory>
    ensures { OnOk result (out.new.items ≡ out.old.items ++ str text.now) }
{
    out.extend_from_slice(text.as_slice())?;
    out.push(0)?;
    Ok(())
}

/// Puts a name and its value at the end.
pub fn put_pair(pair: &Pair, out: &mut Vec<u8>) -> Result<(), NoMemory>
    ensures { OnOk result (out.new.items ≡ out.old.items ++ pair_bytes pair.now) }
{
    put_str(&pair.name, out)?;
    put_str(&pair.value, out)?;
    Ok(())
}

/// Puts names and their values at the end.
pub fn put_pairs(pairs: &[Pair], out: &mut Vec<u8>) -> Result<(), NoMemory>
    ensures { OnOk result (out.new.items ≡ out.old.items ++ flat_map pair_bytes pairs.now) }
{
    'pairs: for pair in pairs {
        put_pair(pair, out)?;
    }
    Ok(())
}

/// Puts a number of two bytes at the end.
fn put_u16(number: u16, out: &mut Vec<u8>) -> Result<(), NoMemory>
    ensures { OnOk result (out.new.items ≡ out.old.items ++ to_be_bytes w16 number) }
{
    out.extend_from_slice(&number.to_be_bytes())?;
    Ok(())
}

/// Puts a number of four bytes at the end.
pub fn put_u32(number: u32, out: &mut Vec<u8>) -> Result<(), NoMemory>
    ensures { OnOk result (out.new.items ≡ out.old.items ++ to_be_bytes w32 number) }
{
    out.extend_from_slice(&number.to_be_bytes())?;
    Ok(())
}

/// Puts numbers of two bytes, with their count, at the end.
pub fn put_u16s(numbers: &[u16], out: &mut Vec<u8>) -> Result<(), NoMemory>
    requires { length numbers.now < 2 ^ 16 }
    ensures { OnOk result (out.new.items ≡ out.old.items ++ counted_items (to_be_bytes w16) numbers.now) }
{
    put_u16(numbers.len() as u16, out)?;
    'numbers: for number in numbers {
        put_u16(*number, out)?;
    }
    Ok(())
}

/// Puts numbers of four bytes, with their count, at the end.
pub fn put_u32s(numbers: &[u32], out: &mut Vec<u8>) -> Result<(), NoMemory>
    requires { length numbers.now < 2 ^ 16 }
    ensures { OnOk result (out.new.items ≡ out.old.items ++ counted_items (to_be_bytes w32) numbers.now) }
{
    put_u16(numbers.len() as u16, out)?;
    'numbers: for number in numbers {
        put_u32(*number, out)?;
    }
    Ok(())
}

/// Puts a signed number of two bytes at the end.
fn put_i16(number: i16, out: &mut Vec<u8>) -> Result<(), NoMemory>
    ensures { OnOk result (out.new.items ≡ out.old.items ++ to_be_bytes w16 (cast_unsigned w16 number)) }
{
    out.extend_from_slice(&number.to_be_bytes())?;
    Ok(())
}

/// Puts a signed number of four bytes at the end.
fn put_i32(number: i32, out: &mut Vec<u8>) -> Result<(), NoMemory>
    ensures { OnOk result (out.new.items ≡ out.old.items ++ to_be_bytes w32 (cast_unsigned w32 number)) }
{
    out.extend_from_slice(&number.to_be_bytes())?;
    Ok(())
}

/// Puts the description of a column at the end.
fn put_field(field: &Field, out: &mut Vec<u8>) -> Result<(), NoMemory>
    ensures { OnOk result (out.new.items ≡ out.old.items ++ field_bytes field.now) }
{
    put_str(&field.name, out)?;
    put_u32(field.table, out)?;
    put_u16(field.attribute, out)?;
    put_u32(field.kind, out)?;
    put_i16(field.size, out)?;
    put_i32(field.modifier, out)?;
    put_u16(field.format, out)?;
    Ok(())
}

/// Puts the descriptions of columns, with their count, at the end.
pub fn put_fields(fields: &[Field], out: &mut Vec<u8>) -> Result<(), NoMemory>
    requires { length fields.now < 2 ^ 16 }
    ensures { OnOk result (out.new.items ≡ out.old.items ++ counted_items field_bytes fields.now) }
{
    put_u16(fields.len() as u16, out)?;
    'fields: for field in fields {
        put_field(field, out)?;
    }
    Ok(())
}

/// Puts a cell with its length at the end.
fn put_cell(cell: &Option<Bytes>, out: &mut Vec<u8>) -> Result<(), NoMemory>
    requires { IsCell cell.now }
    ensures { OnOk result (out.new.items ≡ out.old.items ++ cell_bytes cell.now) }
{
    match cell {
        None => {
            put_u32(NULL_LENGTH, out)?;
            Ok(())
        }
        Some(bytes) => {
            put_u32(bytes.len() as u32, out)?;
            out.extend_from_slice(bytes.as_slice())?;
            Ok(())
        }
    }
}

/// Puts the cells of a row, with their count, at the end.
pub fn put_cells(cells: &[Option<Bytes>], out: &mut Vec<u8>) -> Result<(), NoMemory>
    requires { AreCounted IsCell cells.now }
    ensures { OnOk result (out.new.items ≡ out.old.items ++ counted_items cell_bytes cells.now) }
{
    put_u16(cells.len() as u16, out)?;
    'cells: for cell in cells {
        put_cell(cell, out)?;
    }
    Ok(())
}

/// Puts a field of an error or of a notice at the end.
fn put_error_field(field: &ErrorField, out: &mut Vec<u8>) -> Result<(), NoMemory>
    ensures { OnOk result (out.new.items ≡ out.old.items ++ error_bytes field.now) }
{
    out.push(field.code)?;
    put_str(&field.text, out)?;
    Ok(())
}

/// Puts the fields of an error or of a notice, and the zero byte that ends them, at the end.
pub fn put_error_fields(fields: &[ErrorField], out: &mut Vec<u8>) -> Result<(), NoMemory>
    ensures { OnOk result (out.new.items ≡ out.old.items ++ listed_items error_bytes fields.now) }
{
    'fields: for field in fields {
        put_error_field(field, out)?;
    }
    out.push(0)?;
    Ok(())
}
