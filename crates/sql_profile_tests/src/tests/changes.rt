use super::*;

// What changes tables, and SET.
const TEXTS: [(&str, &str); 23] = [
    ("insert into t values (1)", "INSERT INTO \"t\" VALUES (1)"),
    (
        "insert into t (a, B) values (1,'x'),(NULL,$1)",
        "INSERT INTO \"t\" (\"a\", \"b\") VALUES (1, 'x'), (NULL, $1)",
    ),
    (
        "insert into t values (-5, +5, - 5)",
        "INSERT INTO \"t\" VALUES (-5, 5, -5)",
    ),
    (
        "INSERT INTO notes (id, body) VALUES (1, 'it''s')",
        "INSERT INTO \"notes\" (\"id\", \"body\") VALUES (1, 'it''s')",
    ),
    (
        "insert into t values ($2), ($1)",
        "INSERT INTO \"t\" VALUES ($2), ($1)",
    ),
    (
        "insert into t (a) values (1), (1, 2)",
        "INSERT INTO \"t\" (\"a\") VALUES (1), (1, 2)",
    ),
    (
        "insert into substr (count) values (1)",
        "INSERT INTO \"substr\" (\"count\") VALUES (1)",
    ),
    ("update t set a = 1", "UPDATE \"t\" SET \"a\" = 1"),
    (
        "update t set a=1,b='x' where t.c=2",
        "UPDATE \"t\" SET \"a\" = 1, \"b\" = 'x' WHERE \"c\" = 2",
    ),
    ("update t set \"A\" = null", "UPDATE \"t\" SET \"A\" = NULL"),
    (
        "update t set a = $1, b = $2 where c = $3",
        "UPDATE \"t\" SET \"a\" = $1, \"b\" = $2 WHERE \"c\" = $3",
    ),
    ("delete from t", "DELETE FROM \"t\""),
    (
        "delete from t where t.a is not null",
        "DELETE FROM \"t\" WHERE NOT \"a\" IS NULL",
    ),
    (
        "set application_name = 'x'",
        "SET \"application_name\" = 'x'",
    ),
    (
        "set application_name to psql",
        "SET \"application_name\" = 'psql'",
    ),
    (
        "set application_name to default",
        "SET \"application_name\" = 'default'",
    ),
    ("set application_name = 1", "SET \"application_name\" = 1"),
    (
        "SET extra_float_digits = 3",
        "SET \"extra_float_digits\" = 3",
    ),
    (
        "set extra_float_digits to -3",
        "SET \"extra_float_digits\" = -3",
    ),
    (
        "set extra_float_digits = +0003",
        "SET \"extra_float_digits\" = 3",
    ),
    (
        "set \"application_name\" = \"A b\"",
        "SET \"application_name\" = 'A b'",
    ),
    (
        "set Application_Name = 'x'",
        "SET \"application_name\" = 'x'",
    ),
    (
        "set application_name = 'x' ;",
        "SET \"application_name\" = 'x'",
    ),
];

#[test]
fn changes(rt: HostRuntime) {
    are_rewritten(&rt, rt.alloc(), &TEXTS);
}
