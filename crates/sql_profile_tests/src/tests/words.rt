use super::*;

// What separates, comments, words, names, strings.
const TEXTS: [(&str, &str); 20] = [
    ("-- nothing", ""),
    ("/* a /* b */ c */;", ""),
    ("select a\n\t\r\x0cfrom t", "SELECT \"a\" FROM \"t\""),
    ("select a--x\nfrom t--y", "SELECT \"a\" FROM \"t\""),
    ("select a -- '\r*/\nfrom t", "SELECT \"a\" FROM \"t\""),
    ("select a/*--*/from t", "SELECT \"a\" FROM \"t\""),
    ("select/**/a/***/from/*'*/t", "SELECT \"a\" FROM \"t\""),
    ("select _a$1 from t", "SELECT \"_a$1\" FROM \"t\""),
    ("select \"a\"\"b\" from t", "SELECT \"a\"\"b\" FROM \"t\""),
    ("select\"a\"from\"t\"", "SELECT \"a\" FROM \"t\""),
    (
        "select \"select\" from \"from\"",
        "SELECT \"select\" FROM \"from\"",
    ),
    ("select \"\u{e9}\" from t", "SELECT \"\u{e9}\" FROM \"t\""),
    (
        "select \"--\", \"/*\" from t",
        "SELECT \"--\", \"/*\" FROM \"t\"",
    ),
    (
        "select a12345678901234567890123456789012345678901234567890123456789012 from t",
        "SELECT \"a12345678901234567890123456789012345678901234567890123456789012\" FROM \"t\"",
    ),
    (
        "select \"\"\"12345678901234567890123456789012345678901234567890123456789012\" from t",
        "SELECT \"\"\"12345678901234567890123456789012345678901234567890123456789012\" FROM \"t\"",
    ),
    (
        "insert into t values ('--','/*','\"',';')",
        "INSERT INTO \"t\" VALUES ('--', '/*', '\"', ';')",
    ),
    (
        "insert into t values ('a\n')",
        "INSERT INTO \"t\" VALUES ('a\n')",
    ),
    (
        "insert into t values ('\u{e9}\u{20ac}\u{1f600}')",
        "INSERT INTO \"t\" VALUES ('\u{e9}\u{20ac}\u{1f600}')",
    ),
    (
        "insert into t values ('''','a''')",
        "INSERT INTO \"t\" VALUES ('''', 'a''')",
    ),
    (
        "insert into t values ('\\','\\''')",
        "INSERT INTO \"t\" VALUES ('\\', '\\''')",
    ),
];

#[test]
fn words(rt: HostRuntime) {
    are_rewritten(&rt, rt.alloc(), &TEXTS);
}

// What is no token, from its first byte.
const NO_TOKENS: [(&str, u32); 26] = [
    ("?", 0),
    ("select 'x", 7),
    ("select a from t where a = 'x''", 26),
    ("select \"a", 7),
    ("select \"a\"\"", 7),
    ("select \"\" from t", 7),
    ("select /* a", 7),
    ("select /* /* */ a", 7),
    ("select a /", 9),
    ("select a ! b", 9),
    ("select a @ b", 9),
    ("select a\x0bfrom t", 8),
    ("select \u{e9} from t", 7),
    ("select a from t where a = 'x\0'", 26),
    ("select \"a\0\" from t", 7),
    ("select /* \0 */ a from t", 7),
    ("select a from t -- \0", 16),
    ("select a from t \0", 16),
    ("select a$ from t where a = $", 27),
    ("select a from t where a = $ 1", 26),
    ("select a from t where a = $a", 26),
    ("select a from t where a = $0", 26),
    ("select a from t where a = $01", 26),
    ("select a from t where a = $20481", 26),
    (
        "select a from t where a = 170141183460469231731687303715884105728",
        26,
    ),
    (
        "select a123456789012345678901234567890123456789012345678901234567890123 from t",
        7,
    ),
];

#[test]
fn no_tokens(rt: HostRuntime) {
    are_refused(&rt, rt.alloc(), SqlKind::Syntax, &NO_TOKENS);
}

const RESERVED: [&str; 23] = [
    "select", "from", "where", "and", "or", "not", "in", "is", "null", "order", "by", "asc",
    "desc", "limit", "offset", "insert", "into", "values", "update", "set", "delete", "as", "to",
];

#[test]
fn reserved_words(rt: HostRuntime) -> Result<(), Fail> {
    let alloc = rt.alloc();
    for word in &RESERVED {
        let bare = format!(in alloc; "delete from {word}")?;
        assert!(rt;
            is_refused(alloc, bare.as_bytes(), SqlKind::Syntax, 12),
            "{word}"
        );
        let named = format!(in alloc; "DELETE FROM \"{word}\"")?;
        assert!(rt;
            is_rewritten(alloc, named.as_bytes(), named.as_bytes()),
            "{word}"
        );
    }
    Ok(())
}
