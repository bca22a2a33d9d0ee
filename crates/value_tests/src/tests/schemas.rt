//! Texts whose top, or whose second schema, breaks a rule.

use super::*;
use std::test::Fail;

/// The text as a whole.
const TOPS: [(&str, u8); 9] = [
    ("", 1),
    ("{", 1),
    ("[]", 1),
    ("{}", 1),
    (r#"{"schemas":{}}"#, 1),
    (r#"{"schemas":[1]}"#, 1),
    (r#"{"schemas":[],"more":1}"#, 1),
    (r#"{"schemas":[]} x"#, 1),
    (r#"{"schemas":[]}"#, POLICY),
];

/// The members of the second schema.
const SCHEMAS: [(&str, u8); 18] = [
    (r#""table":"t","columns":["a"]"#, POLICY),
    (r#""table":"s","table":"t","columns":["a"]"#, POLICY),
    (r#""table":"t""#, 3),
    (r#""columns":["a"]"#, 3),
    (r#""table":"t","columns":["a",1]"#, 3),
    (r#""table":"t","columns":["a"],"more":1"#, 3),
    (r#""table":"t","columns":["a"],"encrypted":{}"#, 3),
    (r#""table":"t","columns":["a"],"types":{"a":4}"#, 3),
    (r#""table":"t","columns":["a"],"key":null"#, 3),
    (r#""table":"","columns":["a"]"#, 4),
    (r#""table":"t","columns":["a\u0000"]"#, 4),
    (r#""table":"t","columns":["a"],"key":"""#, 4),
    (r#""table":"s","columns":["a"]"#, 5),
    (r#""table":"t","columns":["a","b","a"]"#, 5),
    (r#""table":"t","columns":["a"],"types":{"b":"text"}"#, 6),
    (r#""table":"t","columns":["a"],"key":"b""#, 6),
    (
        r#""table":"t","columns":["a"],"key":"a","encrypted":[{"column":"a"}]"#,
        6,
    ),
    (r#""table":"t","columns":["a"],"types":{"a":"str"}"#, 8),
];

#[test]
fn tops(rt: HostRuntime) -> Result<(), Fail> {
    each_breaks(&rt, rt.alloc(), "", "", (NO_PLACE, NO_PLACE), &TOPS)?;
    Ok(())
}

#[test]
fn schemas(rt: HostRuntime) -> Result<(), Fail> {
    let before = r#"{"schemas":[{"table":"s","columns":["z"]},{"#;
    each_breaks(&rt, rt.alloc(), before, "}]}", (1, NO_PLACE), &SCHEMAS)?;
    Ok(())
}
