//! Each fault of a statement, and which of two is named. The expected ones are written by hand, after the order of
//! the faults' lines.

ghost use Rattle.std.specs.Prelude.{IfOk};
ghost use Rattle.table_store.specs.Shelves.{IsTable};

use crate::shared::are_told;
use acra_base::{Bytes, Name, Sequence, ValueKind};
use outcome_text::{alone, column, told};
use std::alloc::Global;
use std::test::Fail;
use table_machine::TableDef;

/// The table t with the columns k, int8 and the key, n, int4, s, text, and d, bytea.
fn keyed(alloc: Global) -> Result<TableDef, Fail>
    ensures { IfOk result IsTable }
{
    let mut columns = Sequence::new(alloc);
    columns.push(column(alloc, b"k", ValueKind::Int64)?)?;
    columns.push(column(alloc, b"n", ValueKind::Int32)?)?;
    columns.push(column(alloc, b"s", ValueKind::Str)?)?;
    columns.push(column(alloc, b"d", ValueKind::Bytes)?)?;
    let bytes = Bytes::copied(alloc, b"t")?;
    Ok(TableDef {
        name: Name::new(bytes),
        columns,
        key: Some(0),
    })
}

// On the table t with the row (1, 1, 'a', NULL), group by group.

/// Each fault once.
const ONCE: &str = r#"SELECT k FROM u | 42P01 lab: no table "u"
INSERT INTO t (k, n) VALUES (2) | 42601 lab: wrong count of values
INSERT INTO t VALUES (2, 2, 'b', NULL, 5) | 42601 lab: wrong count of values
SELECT x FROM t | 42703 lab: no column "x"
INSERT INTO t (s, k, k, s) VALUES ('b', 2, 3, 'c') | 42701 lab: column "k" twice
UPDATE t SET n = 1, n = 2 | 42701 lab: column "n" twice
SELECT k FROM t WHERE s = d | 0A000 lab: not done
SELECT k FROM t WHERE substr(s, 1, 33) = 'a' | 0A000 lab: not done
INSERT INTO t VALUES ('x') | 22P02 lab: bad value for column "k"
UPDATE t SET d = 7 | 22P02 lab: bad value for column "d"
UPDATE t SET n = 2147483648 | 22003 lab: value out of range for column "n"
INSERT INTO t (n) VALUES (2) | 23502 lab: null in column "k"
INSERT INTO t (k) VALUES (1) | 23505 lab: key "k" twice"#;

/// None.
const NONE: &str = r#"SELECT k FROM t WHERE k = n | 1,;"#;

/// The table before all others.
const TABLE: &str = r#"INSERT INTO u (k, n) VALUES (1) | 42P01 lab: no table "u"
SELECT x FROM u | 42P01 lab: no table "u"
INSERT INTO u (k, k) VALUES (1, 2) | 42P01 lab: no table "u"
DELETE FROM u WHERE substr(s, 1, 33) = 'a' | 42P01 lab: no table "u"
UPDATE u SET n = 'x' | 42P01 lab: no table "u"
INSERT INTO u VALUES (NULL) | 42P01 lab: no table "u""#;

/// The count before names, values and keys.
const COUNT: &str = r#"INSERT INTO t (k, x) VALUES (2) | 42601 lab: wrong count of values
INSERT INTO t (k, k) VALUES (2) | 42601 lab: wrong count of values
INSERT INTO t (k, n) VALUES ('x') | 42601 lab: wrong count of values
INSERT INTO t (k, n) VALUES (1) | 42601 lab: wrong count of values"#;

/// An unknown column before what follows, and the first of two.
const UNKNOWN: &str = r#"INSERT INTO t (k, k, x) VALUES (2, 3, 4) | 42703 lab: no column "x"
DELETE FROM t WHERE s = d AND x = 1 | 42703 lab: no column "x"
UPDATE t SET n = 'y', x = 1 | 42703 lab: no column "x"
UPDATE t SET k = NULL WHERE x = 1 | 42703 lab: no column "x"
UPDATE t SET y = 1 WHERE x = 1 | 42703 lab: no column "y""#;

/// A column that is written twice.
const TWICE: &str = r#"UPDATE t SET n = 1, n = 2 WHERE s = d | 42701 lab: column "n" twice
UPDATE t SET n = 'y', n = 1 | 42701 lab: column "n" twice
INSERT INTO t (k, k) VALUES (1, 1) | 42701 lab: column "k" twice"#;

/// What is not done.
const NOT_DONE: &str = r#"UPDATE t SET n = 'y' WHERE s = d | 0A000 lab: not done
UPDATE t SET k = NULL WHERE s = d | 0A000 lab: not done"#;

/// Values, the first of two, before the key.
const VALUES: &str =
    r#"INSERT INTO t (k, n) VALUES (2, 'y'), (9223372036854775808, 1) | 22P02 lab: bad value for column "n"
INSERT INTO t (k, n) VALUES (9223372036854775808, 'y') | 22003 lab: value out of range for column "k"
UPDATE t SET n = 'y' WHERE k = 9223372036854775808 | 22P02 lab: bad value for column "n"
INSERT INTO t (k, n) VALUES (NULL, 'y') | 22P02 lab: bad value for column "n""#;

/// The key, row by row.
const KEY: &str = r#"INSERT INTO t (k) VALUES (2), (1), (NULL) | 23505 lab: key "k" twice
INSERT INTO t (k) VALUES (2), (NULL), (1) | 23502 lab: null in column "k"
INSERT INTO t (k) VALUES (2), (2) | 23505 lab: key "k" twice"#;

/// No fault left a row: the key 2 is free, and the table has one row beside it.
const LEFT: &str = r#"INSERT INTO t (k) VALUES (2) | 1
UPDATE t SET k = 3 | 23505 lab: key "k" twice"#;

const GROUPS: [&str; 10] = [
    ONCE, NONE, TABLE, COUNT, UNKNOWN, TWICE, NOT_DONE, VALUES, KEY, LEFT,
];

/// A SELECT of one more than 65,535 columns.
fn too_wide(alloc: Global) -> Result<String, Fail> {
    let mut wide = "SELECT k".to_string(alloc)?;
    'columns: for _ in 0..65_535 {
        wide.push_str(",k")?;
    }
    wide.push_str(" FROM t")?;
    Ok(wide)
}

#[test]
fn the_first_fault_is_named(rt: HostRuntime) -> Result<(), Fail> {
    let alloc = rt.alloc();
    let mut tables = alone(alloc, keyed(alloc)?)?;
    are_told(
        &rt,
        alloc,
        &mut tables,
        "INSERT INTO t VALUES (1, 1, 'a') | 1",
    )?;
    'groups: for cases in GROUPS {
        are_told(&rt, alloc, &mut tables, cases)?;
    }
    let wide = told(alloc, &mut tables, too_wide(alloc)?.as_str())?;
    assert_eq!(rt; wide.as_slice(), b"0A000 lab: not done".as_slice());
    Ok(())
}
