ghost use Rattle.std.specs.Prelude.{◌≡◌, map, IfOk, OnOk, option_map, true};
ghost use Rattle.session_model.specs.Rewritten.{stored_text, rewritten_value, rewritten, is_protected, protected_items, protected_of, written, written_rows, written_values};
ghost use Rattle.sql_tree.specs.declared.statement.Statement.TheVariants as statement;
ghost use Rattle.session_model.specs.Meanings.{has_short_strings};
ghost use Rattle.lab_session.specs.Runs.{cell_for, drawn_for};

use crate::notes::notes_body;
use acra_base::{Bytes, Name, NoMemory, Sequence};
use acra_block::{CellKind, OwnerKey, seal_cell};
use acra_crypto::Aes256Gcm;
use acra_devices::SureRandom;
use sql_tree::{Item, Items, Operand, Statement, Whole};
use std::alloc::Global;

/// The version of the containers that are written.
const VERSION: u8 = 2;

/// Whether an item of a SELECT is the protected column.
pub fn is_protected(item: &Item) -> bool
    ensures { result ≡ is_protected item.now }
{
    item.column.as_slice() == b"body".as_slice()
}

fn protected_items(alloc: Global, items: &Items) -> Result<Vec<bool>, NoMemory>
    ensures { IfOk result (λ v. v.items ≡ protected_items items.now) }
{
    let mut protected = Vec::new(alloc);
    match items {
        Items::Columns(items) => {
            'items: for item in items.as_slice() {
                protected.push(is_protected(item))?;
            }
            Ok(protected)
        }
        Items::All | Items::Count { .. } => Ok(protected),
    }
}

/// Which columns of a statement's result are protected.
pub fn protected_columns(alloc: Global, tree: &Statement) -> Result<Vec<bool>, NoMemory>
    ensures { IfOk result (λ v. v.items ≡ protected_of tree.now) }
{
    match tree {
        Statement::Select { items, .. } => protected_items(alloc, items),
        _ => Ok(Vec::new(alloc)),
    }
}

fn written_values(values: &[Operand]) -> Option<&[u8]>
    ensures { option_map (λ text. text.now) result ≡ written_values values.now }
{
    match values {
        [_, Operand::Text(text)] => Some(text.as_slice()),
        _ => None,
    }
}

fn written_rows(rows: &[Sequence<Operand>]) -> Option<&[u8]>
    ensures { option_map (λ text. text.now) result ≡ written_rows rows.now }
{
    match rows {
        [row] => written_values(row.as_slice()),
        _ => None,
    }
}

/// The string that a statement writes.
pub fn written(tree: &Statement) -> Option<&[u8]>
    ensures { option_map (λ text. text.now) result ≡ written tree.now }
{
    match tree {
        Statement::Insert { rows, .. } => written_rows(rows.as_slice()),
        _ => None,
    }
}

// The bytes in text form: `\x` and lower-case hexadecimal digits.
fn stored_text(alloc: Global, bytes: &[u8]) -> Result<Bytes, NoMemory>
    ensures { IfOk result (λ text. text ≡ stored_text bytes.now) }
{
    let digits = hex::encode(alloc, bytes)?;
    let mut text = Bytes::copied(alloc, b"\\x")?;
    text.extend(digits.as_str().as_bytes())?;
    Ok(text)
}

fn rewritten_value(alloc: Global, value: &Operand, cell: &[u8]) -> Result<Operand, NoMemory>
    ensures { IfOk result (λ new. new ≡ rewritten_value cell.now value.now) }
{
    match value {
        Operand::Text(_) => Ok(Operand::Text(stored_text(alloc, cell)?)),
        Operand::Number(number) => Ok(Operand::Number(Whole::new(number.get()))),
        Operand::NullValue => Ok(Operand::NullValue),
        Operand::Parameter(number) => Ok(Operand::Parameter(*number)),
        Operand::Column(name) => Ok(Operand::Column(name.clone()?)),
        Operand::Prefix33(name) => Ok(Operand::Prefix33(name.clone()?)),
    }
}

fn rewritten_row(
    alloc: Global,
    values: &[Operand],
    cell: &[u8],
) -> Result<Sequence<Operand>, NoMemory>
    ensures { IfOk result (λ row. row ≡ map (rewritten_value cell.now) values.now) }
{
    let mut row = Sequence::new(alloc);
    'values: for value in values {
        row.push(rewritten_value(alloc, value, cell)?)?;
    }
    Ok(row)
}

fn rewritten_rows(
    alloc: Global,
    rows: &[Sequence<Operand>],
    cell: &[u8],
) -> Result<Sequence<Sequence<Operand>>, NoMemory>
    ensures { IfOk result (λ new. new ≡ map (map (rewritten_value cell.now)) rows.now) }
{
    let mut new = Sequence::new(alloc);
    'rows: for row in rows {
        new.push(rewritten_row(alloc, row.as_slice(), cell)?)?;
    }
    Ok(new)
}

fn copied_columns(columns: &Option<Sequence<Name>>) -> Result<Option<Sequence<Name>>, NoMemory>
    ensures { IfOk result (λ copy. copy ≡ columns.now) }
{
    match columns {
        Some(names) => Ok(Some(names.clone()?)),
        None => Ok(None),
    }
}

/// An INSERT with this cell in the place of its string.
pub fn rewritten_insert(
    alloc: Global,
    table: &Name,
    columns: &Option<Sequence<Name>>,
    rows: &[Sequence<Operand>],
    cell: &[u8],
) -> Result<Statement, NoMemory>
    ensures { IfOk result (λ new. new ≡ rewritten cell.now (statement.Insert table.now columns.now rows.now)) }
{
    let table = table.clone()?;
    let columns = copied_columns(columns)?;
    let rows = rewritten_rows(alloc, rows, cell)?;
    Ok(Statement::Insert {
        table,
        columns,
        rows,
    })
}

/// The cell of a written string, with the next 56 bytes that are drawn; none for no string.
pub fn cell_for(
    alloc: Global,
    key: &OwnerKey,
    random: &mut SureRandom,
    tree: &Statement,
) -> Result<Vec<u8>, NoMemory>
    requires { has_short_strings tree.now ≡ true }
    ensures cell { IfOk result (λ cell. cell.items ≡ cell_for key.now random.old (written tree.now)) }
    ensures random { OnOk result (random.new ≡ drawn_for random.old (written tree.now)) }
{
    match written(tree) {
        None => Ok(Vec::new(alloc)),
        Some(plain) => {
            let mut drawn = [0; 56];
            random.fill(&mut drawn);
            let place = notes_body(alloc)?;
            let mut cell = Vec::new(alloc);
            seal_cell(
                alloc,
                &Aes256Gcm,
                CellKind::Sealed,
                &place,
                VERSION,
                key,
                plain,
                &drawn,
                &mut cell,
            )?;
            Ok(cell)
        }
    }
}
