//! Statements whose parts are bound: values that are read, and faults, one at a time.

ghost use Rattle.std.specs.Prelude.{IfOk};
ghost use Rattle.table_store.specs.Shelves.{IsTable};

use crate::shared::are_told;
use acra_base::{Bytes, Name, Sequence, ValueKind};
use outcome_text::{alone, column};
use sql_tree::{Item, Items};
use std::alloc::Global;
use std::test::Fail;
use table_binder::out_columns;
use table_machine::{Cell, TableDef, cells_are_carried};

/// The table notes with the columns id, int4, name, text, body, bytea, and size, int8, and no key.
fn notes(alloc: Global) -> Result<TableDef, Fail>
    ensures { IfOk result IsTable }
{
    let mut columns = Sequence::new(alloc);
    columns.push(column(alloc, b"id", ValueKind::Int32)?)?;
    columns.push(column(alloc, b"name", ValueKind::Str)?)?;
    columns.push(column(alloc, b"body", ValueKind::Bytes)?)?;
    columns.push(column(alloc, b"size", ValueKind::Int64)?)?;
    let bytes = Bytes::copied(alloc, b"notes")?;
    Ok(TableDef {
        name: Name::new(bytes),
        columns,
        key: None,
    })
}

/// On notes without rows. The parameters are 7 and 2^31.
const CASES: &str = r#"INSERT INTO notes VALUES (1, 1, 1, 1, 1) | 42601 lab: wrong count of values
DELETE FROM notes WHERE age = 1 | 42703 lab: no column "age"
UPDATE notes SET id = 1, id = 1 | 42701 lab: column "id" twice
DELETE FROM notes | 0
DELETE FROM notes WHERE name = body | 0A000 lab: not done
DELETE FROM notes WHERE substr(name, 1, 33) = 'a' | 0A000 lab: not done
SELECT id FROM id | 42P01 lab: no table "id"
INSERT INTO notes VALUES (7, 'ann', '\xff', 9) | 1
SELECT id FROM notes WHERE id = 7 | 7,;
SELECT id FROM notes WHERE name = 'ann' | 7,;
SELECT id FROM notes WHERE body = '\xff' | 7,;
SELECT id FROM notes WHERE size = '9' | 7,;
SELECT id FROM notes WHERE id = $1 | 7,;
SELECT id FROM notes WHERE size = NULL |
SELECT id FROM notes WHERE id = 'x' | 22P02 lab: bad value for column "id"
SELECT id FROM notes WHERE id = 2147483648 | 22003 lab: value out of range for column "id"
SELECT body AS data FROM notes | \xff,;
INSERT INTO notes (name, body) VALUES ('ann', '\x00') | 1
UPDATE notes SET size = -2 WHERE id IS NULL | 1
SELECT * FROM notes ORDER BY size DESC | 7,ann,\xff,9,;NULL,ann,\x00,-2,;
UPDATE notes SET body = '\x4a4B' | 2
SELECT body FROM notes WHERE substr(body, 1, 33) = '\x4a4b' | \x4a4b,;\x4a4b,;
UPDATE notes SET size = $2 WHERE id = $1 | 1
SELECT size FROM notes WHERE id = $1 | 2147483648,;
UPDATE notes SET name = $2 WHERE id = $1 | 1
SELECT name FROM notes WHERE id = $1 | 2147483648,;
UPDATE notes SET id = $2 WHERE id = $1 | 22003 lab: value out of range for column "id"
UPDATE notes SET body = $2 WHERE id = $1 | 22P02 lab: bad value for column "body""#;

#[test]
fn parts_are_bound(rt: HostRuntime) -> Result<(), Fail> {
    let mut tables = alone(rt.alloc(), notes(rt.alloc())?)?;
    are_told(&rt, rt.alloc(), &mut tables, CASES)
}

/// The column body under the name data.
fn body_as_data(alloc: Global) -> Result<Items, Fail> {
    let mut items = Sequence::new(alloc);
    items.push(Item {
        column: Name::new(Bytes::copied(alloc, b"body")?),
        label: Some(Name::new(Bytes::copied(alloc, b"data")?)),
    })?;
    Ok(Items::Columns(items))
}

#[test]
fn columns_are_labelled(rt: HostRuntime) -> Result<(), Fail> {
    let alloc = rt.alloc();
    let def = notes(alloc)?;
    let shown = out_columns(alloc, 1, def.columns.as_slice(), &body_as_data(alloc)?)?;
    assert_eq!(rt; shown.as_slice().len(), 1);
    'columns: for column in shown.as_slice() {
        assert_eq!(rt; column.name.as_slice(), b"data".as_slice());
        assert_eq!(rt; column.table, 16_385);
        assert_eq!(rt; column.attribute, 3);
    }
    Ok(())
}

/// The table pairs with the columns a, int8, and b, text.
fn pairs(alloc: Global) -> Result<TableDef, Fail>
    ensures { IfOk result IsTable }
{
    let mut columns = Sequence::new(alloc);
    columns.push(column(alloc, b"a", ValueKind::Int64)?)?;
    columns.push(column(alloc, b"b", ValueKind::Str)?)?;
    let bytes = Bytes::copied(alloc, b"pairs")?;
    Ok(TableDef {
        name: Name::new(bytes),
        columns,
        key: None,
    })
}

// The rules of three-valued logic are SQL's (PostgreSQL manual, "Logical Operators"): of the second row it is unknown
// whether b is 'x', so neither that nor its negation keeps it.
const LOGIC: &str = "INSERT INTO pairs VALUES (1, 'x'), (2, NULL) | 2
SELECT a FROM pairs WHERE b = 'x' | 1,;
SELECT a FROM pairs WHERE NOT b = 'x' |
SELECT a FROM pairs WHERE NOT b = 'x' OR b IS NULL | 2,;
DELETE FROM pairs | 2
INSERT INTO pairs VALUES (1, 'b'), (2, NULL), (3, 'a') | 3
SELECT a FROM pairs ORDER BY b | 3,;1,;2,;
SELECT a FROM pairs ORDER BY b DESC | 2,;1,;3,;";

#[test]
fn unknown_keeps_no_row_and_null_is_last(rt: HostRuntime) -> Result<(), Fail> {
    let mut tables = alone(rt.alloc(), pairs(rt.alloc())?)?;
    are_told(&rt, rt.alloc(), &mut tables, LOGIC)
}

#[test]
fn the_laws_hold_for_other_cells() {
    cells_are_carried::<Cell, u8>();
}
