//! The largest policies, and those that are one larger.

use super::*;
use std::fmt::Write;
use std::test::Fail;

/// Adds a schema with so many columns `c0`, `c1`, .., each sealed for a client of its own.
fn add_table(text: &mut String, table: u32, columns: u32) -> Result<(), AllocError> {
    write!(text, r#"{{"table":"t{table}","columns":["c0""#)?;
    for i in 1..columns {
        write!(text, r#","c{i}""#)?;
    }
    text.push_str(r#"],"encrypted":[{"column":"c0"}"#)?;
    for i in 1..columns {
        write!(text, r#",{{"column":"c{i}","client_id":"c{i}"}}"#)?;
    }
    text.push_str("]}")?;
    Ok(())
}

/// So many tables of so many columns.
fn tables(alloc: Global, tables: u32, columns: u32) -> Result<String, AllocError> {
    let mut text = String::new(alloc);
    for table in 0..tables {
        if table > 0 {
            text.push_str(",")?;
        }
        add_table(&mut text, table, columns)?;
    }
    Ok(text)
}

/// The numbers of tables and of columns of each, the place that is told, and the rule.
const SIZES: [(u32, u32, (u16, u16), u8); 3] = [
    (256, 256, (0, 0), POLICY),
    (257, 1, (NO_PLACE, NO_PLACE), 2),
    (2, 257, (0, NO_PLACE), 2),
];

#[test]
fn the_largest_policy(rt: HostRuntime) -> Result<(), Fail> {
    for (many, columns, place, rule) in SIZES {
        let text = tables(rt.alloc(), many, columns)?;
        let is_so = breaks(
            rt.alloc(),
            r#"{"schemas":["#,
            text.as_str(),
            "]}",
            place,
            rule,
        )?;
        assert!(rt; is_so, "{many} tables of {columns} columns");
    }
    Ok(())
}

/// Behind a table with so many clients, a table with one of these and with one that is new where there are 255.
const CLIENTS: &str =
    r#",{"table":"s","columns":["a","b"],"encrypted":[{"column":"a","client_id":"c1"},{"column":"b","client_id":"c0"}]}]}"#;

#[test]
fn the_256th_client(rt: HostRuntime) -> Result<(), Fail> {
    for (count, rule) in [(255, POLICY), (256, 7)] {
        let text = tables(rt.alloc(), 1, count)?;
        let is_so = breaks(
            rt.alloc(),
            r#"{"schemas":["#,
            text.as_str(),
            CLIENTS,
            (1, 1),
            rule,
        )?;
        assert!(rt; is_so, "{count} columns");
    }
    Ok(())
}

/// So many entries of the column `a`.
fn entries(alloc: Global, count: u32) -> Result<String, AllocError> {
    let mut text = String::from_str(alloc, r#"{"column":"a"}"#)?;
    for _ in 1..count {
        text.push_str(r#",{"column":"a"}"#)?;
    }
    Ok(text)
}

// One rule is broken with 256 entries of a column, and a lesser one with 257.
#[test]
fn the_257th_entry(rt: HostRuntime) -> Result<(), Fail> {
    let before = r#"{"schemas":[{"table":"t","columns":["a"],"encrypted":["#;
    for (count, entry, rule) in [(256, 1, 5), (257, NO_PLACE, 2)] {
        let text = entries(rt.alloc(), count)?;
        let is_so = breaks(rt.alloc(), before, text.as_str(), "]}]}", (0, entry), rule)?;
        assert!(rt; is_so, "{count} entries");
    }
    Ok(())
}
