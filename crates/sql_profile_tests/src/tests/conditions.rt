use super::*;

// Conditions, each with its canonical text.
const CONDITIONS: [(&str, &str); 40] = [
    ("a = 1", "\"a\" = 1"),
    ("a=1", "\"a\" = 1"),
    ("a <> 1", "\"a\" <> 1"),
    ("a != 1", "\"a\" <> 1"),
    ("a < 1", "\"a\" < 1"),
    ("a <= 1", "\"a\" <= 1"),
    ("a > 1", "\"a\" > 1"),
    ("a >= 1", "\"a\" >= 1"),
    ("a<-1", "\"a\" < -1"),
    ("1 = a", "1 = \"a\""),
    ("'x' <= t.a", "'x' <= \"a\""),
    ("$1 > a", "$1 > \"a\""),
    ("null <> a", "NULL <> \"a\""),
    ("a = b", "\"a\" = \"b\""),
    ("a = t.b", "\"a\" = \"b\""),
    ("\"T\" = \"t\".b", "\"T\" = \"b\""),
    ("a = 'it''s'", "\"a\" = 'it''s'"),
    ("a = ''", "\"a\" = ''"),
    ("a = -0", "\"a\" = 0"),
    ("a = +007", "\"a\" = 7"),
    (
        "a = - 170141183460469231731687303715884105727",
        "\"a\" = -170141183460469231731687303715884105727",
    ),
    ("a = null", "\"a\" = NULL"),
    ("a in (1)", "\"a\" IN (1)"),
    ("a in (-1, + 2,-0)", "\"a\" IN (-1, 2, 0)"),
    ("a not in (1,'x',NULL)", "NOT \"a\" IN (1, 'x', NULL)"),
    ("a is null", "\"a\" IS NULL"),
    ("t.a is not null", "NOT \"a\" IS NULL"),
    ("substr(a,1,33) = $1", "substr(\"a\", 1, 33) = $1"),
    (
        "substr(t.a, 1, 33) in ($2, $1)",
        "substr(\"a\", 1, 33) IN ($2, $1)",
    ),
    (
        "SubStr ( a , 01 , 033 ) = 'x'",
        "substr(\"a\", 1, 33) = 'x'",
    ),
    ("'x' = substr(a,1,33)", "'x' = substr(\"a\", 1, 33)"),
    (
        "substr(a,1,33) < substr(b,1,33)",
        "substr(\"a\", 1, 33) < substr(\"b\", 1, 33)",
    ),
    ("substr = 1", "\"substr\" = 1"),
    (
        "a = 1 or b = 2 or c = 3",
        "\"a\" = 1 OR \"b\" = 2 OR \"c\" = 3",
    ),
    (
        "a = 1 or b = 2 and c = 3",
        "\"a\" = 1 OR (\"b\" = 2 AND \"c\" = 3)",
    ),
    (
        "(a = 1 or b = 2) and ((c = 3))",
        "(\"a\" = 1 OR \"b\" = 2) AND \"c\" = 3",
    ),
    ("not not (a = 1)", "NOT NOT \"a\" = 1"),
    ("not a = 1 and b = 2", "NOT \"a\" = 1 AND \"b\" = 2"),
    (
        "not (a is null or b is null)",
        "NOT (\"a\" IS NULL OR \"b\" IS NULL)",
    ),
    (
        "a = 1 and b = 2 and (c = 3 and d = 4)",
        "\"a\" = 1 AND \"b\" = 2 AND (\"c\" = 3 AND \"d\" = 4)",
    ),
];

#[test]
fn conditions(rt: HostRuntime) -> Result<(), Fail> {
    let alloc = rt.alloc();
    for (cond, expected) in &CONDITIONS {
        let text = format!(in alloc; "delete from t where {cond}")?;
        let canonical = format!(in alloc; "DELETE FROM \"t\" WHERE {expected}")?;
        assert!(rt;
            is_rewritten(alloc, text.as_bytes(), canonical.as_bytes()),
            "{cond}"
        );
        assert!(rt;
            is_rewritten(alloc, canonical.as_bytes(), canonical.as_bytes()),
            "{cond}"
        );
    }
    Ok(())
}

const MISSPELLED: [(&str, u32); 38] = [
    ("select a from t where", 21),
    ("select a from t where 1 = 1", 26),
    ("select a from t where a", 23),
    ("select a from t where a = ", 26),
    ("select a from t where a == 1", 25),
    ("select a from t where a =< 1", 25),
    ("select a from t where a < > 1", 26),
    ("select a from t where a = 1 = 2", 28),
    ("select a from t where a = (1)", 26),
    ("select a from t where (a) = 1", 24),
    ("select a from t where ()", 23),
    ("select a from t where (a = 1", 28),
    ("select a from t where a = 1)", 27),
    ("select a from t where a = 1 and", 31),
    ("select a from t where a = 1 or or b = 2", 31),
    ("select a from t where not", 25),
    ("select a from t where a = 1 not", 28),
    ("select a from t where a not null", 28),
    ("select a from t where a in 1", 27),
    ("select a from t where a in ()", 28),
    ("select a from t where a in (b)", 28),
    ("select a from t where a in (1,)", 30),
    ("select a from t where 1 in (1)", 24),
    ("select a from t where a is 1", 27),
    ("select a from t where a is not 1", 31),
    ("select a from t where a like 'x'", 24),
    ("select a from t where a between 1 and 2", 24),
    ("select a from t where substr(a, 1, 33) is null", 39),
    ("select a from t where substr(a, 2, 33) = 'x'", 32),
    ("select a from t where substr(a, 1, 32) = 'x'", 35),
    ("select a from t where substr(a, 1) = 'x'", 33),
    ("select a from t where \"substr\"(a, 1, 33) = 'x'", 30),
    ("select a from t where a = 1.5", 27),
    ("select a from t where a = - - 1", 28),
    ("select a from t where a = -'x'", 27),
    ("select a from t where a = --1", 29),
    ("select a from t where a = E'x'", 27),
    ("select a from t where a = 1 limit $1", 34),
];

#[test]
fn misspelled(rt: HostRuntime) {
    are_refused(&rt, rt.alloc(), SqlKind::Syntax, &MISSPELLED);
}
