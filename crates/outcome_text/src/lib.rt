//! Tables of one definition, and what statements give on them, written as bytes: for tests.
#![tactic(auto)]

ghost use Rattle.std.specs.Prelude.{◌≡◌, true, IfOk};
ghost use Rattle.acra_base.specs.Names.{is_name};
ghost use Rattle.sql_tree.specs.WellFormed.{is_grammatical};
ghost use Rattle.table_store.specs.Shelves.{IsTable};

use acra_base::{Bytes, Name, Sequence, ValueKind};
use sql_parser::parse;
use sql_tree::{Operand, Statement, Whole};
use std::alloc::Global;
use std::test::Fail;
use table_machine::{ColumnDef, LabFault, Outcome, TableDef};
use table_store::Tables;

/// Texts of at most so many bytes are read.
const TEXT_LIMIT: u32 = 1 << 27;

/// A column of this name and kind.
pub fn column(alloc: Global, name: &[u8], kind: ValueKind) -> Result<ColumnDef, Fail>
    requires { is_name name.now ≡ true }
    ensures { IfOk result (λ c. c ≡ record { name = name.now; kind = kind }) }
{
    let bytes = Bytes::copied(alloc, name)?;
    Ok(ColumnDef {
        name: Name::new(bytes),
        kind,
    })
}

/// The table of this definition alone.
pub fn alone(alloc: Global, def: TableDef) -> Result<Tables, Fail>
    requires { IsTable def }
{
    let mut defs = Vec::new(alloc);
    defs.push(def)?;
    Ok(Tables::new(alloc, defs))
}

fn exec(tables: &mut Tables, statement: &Statement) -> Result<Outcome, Fail>
    requires { is_grammatical statement.now ≡ true }
{
    let given = [
        Operand::Number(Whole::new(7)),
        Operand::Number(Whole::new(0x8000_0000)),
    ];
    Ok(tables.exec(statement, &given)?)
}

/// What a text gives, where 7 and 2^31 are given for its parameters. One that is no statement fails the test.
pub fn executed(alloc: Global, tables: &mut Tables, text: &[u8]) -> Result<Outcome, Fail> {
    let statement = parse(alloc, text, TEXT_LIMIT)?;
    exec(tables, &statement)
}

fn write_value(value: &Option<Bytes>, out: &mut Vec<u8>) -> Result<(), Fail> {
    match value {
        Some(text) => out.extend_from_slice(text.as_slice())?,
        None => out.extend_from_slice(b"NULL")?,
    }
    out.push(b',')?;
    Ok(())
}

fn write_row(row: &[Option<Bytes>], out: &mut Vec<u8>) -> Result<(), Fail> {
    'values: for value in row {
        write_value(value, out)?;
    }
    out.push(b';')?;
    Ok(())
}

fn write_rows(rows: &[Sequence<Option<Bytes>>], out: &mut Vec<u8>) -> Result<(), Fail> {
    'rows: for row in rows {
        write_row(row.as_slice(), out)?;
    }
    Ok(())
}

fn write_fault(fault: &LabFault, out: &mut Vec<u8>) -> Result<(), Fail> {
    out.extend_from_slice(&fault.code)?;
    out.push(b' ')?;
    out.extend_from_slice(fault.text.as_slice())?;
    Ok(())
}

fn write_count(alloc: Global, count: u64, out: &mut Vec<u8>) -> Result<(), Fail> {
    let digits = count.to_string(alloc)?;
    out.extend_from_slice(digits.as_bytes())?;
    Ok(())
}

fn write_outcome(alloc: Global, outcome: &Outcome, out: &mut Vec<u8>) -> Result<(), Fail> {
    match outcome {
        Outcome::Rows { rows, .. } => write_rows(rows.as_slice(), out),
        Outcome::Count(count) => write_count(alloc, *count, out),
        Outcome::Fault(fault) => write_fault(fault, out),
    }
}

/// What a text gives: the rows, a comma behind each value and a semicolon behind each row, or the count, or the
/// fault's code and message.
pub fn told(alloc: Global, tables: &mut Tables, text: &str) -> Result<Vec<u8>, Fail> {
    let outcome = executed(alloc, tables, text.as_bytes())?;
    let mut out = Vec::new(alloc);
    write_outcome(alloc, &outcome, &mut out)?;
    Ok(out)
}
