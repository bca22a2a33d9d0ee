//! The faults of statements, as values.

ghost use Rattle.std.specs.Prelude.{◌≡◌, ◌++◌, IfOk};
ghost use Rattle.table_machine.specs.Faults as spec;

use acra_base::{Bytes, Name, NoMemory};
use std::alloc::Global;
use table_machine::LabFault;

fn fault_of(alloc: Global, code: &[u8; 5], text: &[u8]) -> Result<LabFault, NoMemory>
    ensures { IfOk result (λ f. f ≡ spec.fault_of code.now text.now) }
{
    Ok(LabFault {
        code: *code,
        text: Bytes::copied(alloc, text)?,
    })
}

/// A fault whose text has a name between these two texts.
fn fault_naming(
    alloc: Global,
    code: &[u8; 5],
    before: &[u8],
    name: &Name,
    behind: &[u8],
) -> Result<LabFault, NoMemory>
    ensures { IfOk result (λ f. f ≡ spec.fault_of code.now (before.now ++ (name.now ++ behind.now))) }
{
    let mut text = Bytes::copied(alloc, before)?;
    text.extend(name.as_slice())?;
    text.extend(behind)?;
    Ok(LabFault { code: *code, text })
}

/// The fault where no table has this name.
pub fn no_table(alloc: Global, name: &Name) -> Result<LabFault, NoMemory>
    ensures { IfOk result (λ f. f ≡ spec.no_table name.now) }
{
    fault_naming(alloc, b"42P01", b"lab: no table \"", name, b"\"")
}

pub(crate) fn wrong_count(alloc: Global) -> Result<LabFault, NoMemory>
    ensures { IfOk result (λ f. f ≡ spec.wrong_count) }
{
    fault_of(alloc, b"42601", b"lab: wrong count of values")
}

pub(crate) fn no_column(alloc: Global, name: &Name) -> Result<LabFault, NoMemory>
    ensures { IfOk result (λ f. f ≡ spec.no_column name.now) }
{
    fault_naming(alloc, b"42703", b"lab: no column \"", name, b"\"")
}

pub(crate) fn column_twice(alloc: Global, name: &Name) -> Result<LabFault, NoMemory>
    ensures { IfOk result (λ f. f ≡ spec.column_twice name.now) }
{
    fault_naming(alloc, b"42701", b"lab: column \"", name, b"\" twice")
}

pub(crate) fn not_done(alloc: Global) -> Result<LabFault, NoMemory>
    ensures { IfOk result (λ f. f ≡ spec.not_done) }
{
    fault_of(alloc, b"0A000", b"lab: not done")
}

pub(crate) fn bad_value(alloc: Global, name: &Name) -> Result<LabFault, NoMemory>
    ensures { IfOk result (λ f. f ≡ spec.bad_value name.now) }
{
    fault_naming(
        alloc,
        b"22P02",
        b"lab: bad value for column \"",
        name,
        b"\"",
    )
}

pub(crate) fn beyond_range(alloc: Global, name: &Name) -> Result<LabFault, NoMemory>
    ensures { IfOk result (λ f. f ≡ spec.beyond_range name.now) }
{
    fault_naming(
        alloc,
        b"22003",
        b"lab: value out of range for column \"",
        name,
        b"\"",
    )
}

/// The fault where a key's column has this name and a cell in it is NULL.
pub fn null_in(alloc: Global, name: &Name) -> Result<LabFault, NoMemory>
    ensures { IfOk result (λ f. f ≡ spec.null_in name.now) }
{
    fault_naming(alloc, b"23502", b"lab: null in column \"", name, b"\"")
}

/// The fault where a key's column has this name and a cell stands twice in it.
pub fn key_twice(alloc: Global, name: &Name) -> Result<LabFault, NoMemory>
    ensures { IfOk result (λ f. f ≡ spec.key_twice name.now) }
{
    fault_naming(alloc, b"23505", b"lab: key \"", name, b"\" twice")
}
