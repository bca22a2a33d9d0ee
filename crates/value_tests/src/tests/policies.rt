//! What policies say of columns, look-ups, and the refusals of whole texts.

use super::*;
use enc_config::{ColumnRule, ConfigRefusal, Policy, Shape, Strangers, Table};
use std::fmt::Write;
use std::str::from_utf8;
use std::test::Fail;

/// A table with one sealed column.
const NOTES: &str =
    r#"{"schemas":[{"table":"notes","columns":["id","body"],"types":{"id":"int8"},"encrypted":[{"column":"body","data_type":"str"}]}]}"#;

/// What it says.
const NOTES_SHOWN: &str = "table notes\nid Int64 plain\nbody Str sealed\n";

/// A table with a searchable, a masked and a sealed column.
const CUSTOMERS: &str =
    r#"{"schemas":[{"table":"customers","columns":["id","mail","card","phone","pin"],"types":{"id":"int8"},"key":"id","encrypted":[{"column":"mail","data_type":"str","searchable":true,"response_on_fail":"default_value","default_data_value":"hidden"},{"column":"card","data_type":"str","masking":"xxxx","plaintext_length":4,"plaintext_side":"left"},{"column":"pin","data_type":"int32","client_id":"till"}]}]}"#;

/// What it says.
const CUSTOMERS_SHOWN: &str =
    "table customers key 0\nid Int64 plain\nmail Str searchable default hidden\ncard Str masked left 4 xxxx mask\nphone Str plain\npin Int32 sealed owner till\n";

/// The same with a column of tokens.
const TOKENS: &str =
    r#"{"schemas":[{"table":"customers","columns":["id","mail","card","phone","pin"],"types":{"id":"int8"},"key":"id","encrypted":[{"column":"mail","data_type":"str","searchable":true,"response_on_fail":"default_value","default_data_value":"hidden"},{"column":"card","data_type":"str","masking":"xxxx","plaintext_length":4,"plaintext_side":"left"},{"column":"phone","token_type":"str","consistent_tokenization":true},{"column":"pin","data_type":"int32"}]}]}"#;

/// Adds bytes that are UTF-8.
fn add_bytes(text: &mut String, bytes: &[u8]) -> Result<(), Fail> {
    text.push_str(from_utf8(bytes).map_err(|_| "not UTF-8")?)?;
    Ok(())
}

fn add_shape(text: &mut String, shape: &Shape) -> Result<(), Fail> {
    match shape {
        Shape::Plain => text.push_str(" plain")?,
        Shape::Sealed => text.push_str(" sealed")?,
        Shape::Searchable => text.push_str(" searchable")?,
        Shape::Token { .. } => text.push_str(" token")?,
        Shape::Masked { left, length, mask } => {
            let side = if *left { "left" } else { "right" };
            write!(text, " masked {side} {length} ")?;
            add_bytes(text, mask.as_slice())?;
        }
    }
    Ok(())
}

fn add_strangers(text: &mut String, strangers: &Strangers) -> Result<(), Fail> {
    match strangers {
        Strangers::Stored => {}
        Strangers::Mask => text.push_str(" mask")?,
        Strangers::Token => text.push_str(" token")?,
        Strangers::Default(plain) => {
            text.push_str(" default ")?;
            add_bytes(text, plain.as_slice())?;
        }
    }
    Ok(())
}

/// Adds the kind of a column's values, its shape, its owner, and what strangers see if it isn't what is stored.
fn add_rule(text: &mut String, rule: &ColumnRule) -> Result<(), Fail> {
    write!(text, " {:?}", rule.value)?;
    add_shape(text, &rule.shape)?;
    if let Some(owner) = &rule.owner {
        text.push_str(" owner ")?;
        add_bytes(text, owner.text())?;
    }
    add_strangers(text, &rule.strangers)
}

fn add_table(text: &mut String, table: &Table) -> Result<(), Fail> {
    text.push_str("table ")?;
    add_bytes(text, table.name.as_slice())?;
    if let Some(key) = table.key {
        write!(text, " key {key}")?;
    }
    text.push_str("\n")?;
    for column in table.columns.as_slice() {
        add_bytes(text, column.name.as_slice())?;
        add_rule(text, &column.rule)?;
        text.push_str("\n")?;
    }
    Ok(())
}

/// What a text's policy says, in lines: each table and its columns.
fn shown(alloc: Global, text: &str) -> Result<String, Fail> {
    let policy = read_policy(alloc, text.as_bytes())?;
    let mut shown = String::new(alloc);
    for table in policy.tables() {
        add_table(&mut shown, table)?;
    }
    Ok(shown)
}

#[test]
fn each_shape(rt: HostRuntime) -> Result<(), Fail> {
    for (text, expected) in [(NOTES, NOTES_SHOWN), (CUSTOMERS, CUSTOMERS_SHOWN)] {
        let shown = shown(rt.alloc(), text)?;
        assert_eq!(rt; shown.as_str(), expected);
    }
    Ok(())
}

/// A column that is found, by its name and its rule.
fn found(alloc: Global, policy: &Policy, table: &[u8], column: &[u8]) -> Result<String, Fail> {
    let mut text = String::new(alloc);
    let Some(table) = policy.table(table) else {
        return Ok(text);
    };
    let Some(column) = policy.find(table, column) else {
        return Ok(text);
    };
    write!(text, "{table} {column} of {}: ", policy.columns(table))?;
    add_bytes(&mut text, policy.name(table, column).as_slice())?;
    add_rule(&mut text, policy.column(table, column))?;
    Ok(text)
}

/// A table, a column, and what is found.
const LOOK_UPS: [(&str, &str, &str); 5] = [
    ("customers", "id", "0 0 of 5: id Int64 plain"),
    (
        "customers",
        "card",
        "0 2 of 5: card Str masked left 4 xxxx mask",
    ),
    ("customers", "pin", "0 4 of 5: pin Int32 sealed owner till"),
    ("customers", "name", ""),
    ("customer", "id", ""),
];

#[test]
fn look_ups(rt: HostRuntime) -> Result<(), Fail> {
    let policy = read_policy(rt.alloc(), CUSTOMERS.as_bytes())?;
    for (table, column, expected) in LOOK_UPS {
        let found = found(rt.alloc(), &policy, table.as_bytes(), column.as_bytes())?;
        assert_eq!(rt; found.as_str(), expected);
    }
    Ok(())
}

/// A text, and its refusal: the least rule, at its first place.
const FIRSTS: [(&str, (u16, u16, u8)); 6] = [
    (
        r#"{"schemas":[{"table":"t","columns":["a"],"encrypted":[{"column":"b"}]}]}"#,
        (0, 0, 6),
    ),
    (
        r#"{"schemas":[{"table":"t","columns":["a","a"]},{"table":"","columns":["a"]}]}"#,
        (1, NO_PLACE, 4),
    ),
    (
        r#"{"schemas":[{"table":"t","columns":[1],"encrypted":[1]}]}"#,
        (0, 0, 3),
    ),
    (
        r#"{"schemas":[{"table":"t","columns":[1]},{"table":"t","columns":[],"encrypted":[1]}]}"#,
        (0, NO_PLACE, 3),
    ),
    (
        r#"{"schemas":[{"table":"t","columns":["a"],"encrypted":[{"column":"a"},{"column":"b"},{"column":"c"}]}]}"#,
        (0, 1, 6),
    ),
    (TOKENS, (0, 2, 14)),
];

#[test]
fn the_least_rule_at_its_first_place(rt: HostRuntime) {
    for (text, expected) in FIRSTS {
        assert!(rt; refusal_of(rt.alloc(), text) == expected, "{text}");
    }
}

/// A refusal's schema, entry and rule, and its text.
const PRINTED: [(u16, u16, u8, &str); 3] = [
    (1, 2, 6, "rule 6 at schema 1, entry 2"),
    (0, NO_PLACE, 3, "rule 3 at schema 0"),
    (NO_PLACE, NO_PLACE, 1, "rule 1"),
];

#[test]
fn refusals_as_text(rt: HostRuntime) -> Result<(), Fail> {
    for (schema, entry, rule, expected) in PRINTED {
        let refusal = ConfigRefusal {
            schema,
            entry,
            rule,
        };
        let text = refusal.to_string(rt.alloc())?;
        assert_eq!(rt; text.as_str(), expected);
        let fault = PolicyFault::Refused(refusal).to_string(rt.alloc())?;
        assert_eq!(rt;
            fault.as_str().strip_prefix("policy refused: "),
            Some(expected)
        );
    }
    let text = PolicyFault::NoMemory.to_string(rt.alloc())?;
    assert_eq!(rt; text.as_str(), "out of memory");
    Ok(())
}
