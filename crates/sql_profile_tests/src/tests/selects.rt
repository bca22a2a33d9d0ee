use super::*;

const TEXTS: [(&str, &str); 21] = [
    ("", ""),
    (" ; ", ""),
    ("select * from t", "SELECT * FROM \"t\""),
    ("SELECT a FROM t;", "SELECT \"a\" FROM \"t\""),
    (
        "select t.A, \"B\" as c from T",
        "SELECT \"a\", \"B\" AS \"c\" FROM \"t\"",
    ),
    (
        "select a as b, c as \"D\" from t",
        "SELECT \"a\" AS \"b\", \"c\" AS \"D\" FROM \"t\"",
    ),
    ("select count(*) from t", "SELECT COUNT(*) FROM \"t\""),
    (
        "select Count ( * ) as n from t",
        "SELECT COUNT(*) AS \"n\" FROM \"t\"",
    ),
    ("select count from t", "SELECT \"count\" FROM \"t\""),
    ("select count.a from count", "SELECT \"a\" FROM \"count\""),
    (
        "select substr, a from t",
        "SELECT \"substr\", \"a\" FROM \"t\"",
    ),
    (
        "select a from t order by b",
        "SELECT \"a\" FROM \"t\" ORDER BY \"b\"",
    ),
    (
        "select a from t order by b asc, t.c desc",
        "SELECT \"a\" FROM \"t\" ORDER BY \"b\", \"c\" DESC",
    ),
    (
        "select count(*) from t order by a",
        "SELECT COUNT(*) FROM \"t\" ORDER BY \"a\"",
    ),
    ("select a from t limit 0", "SELECT \"a\" FROM \"t\" LIMIT 0"),
    (
        "select a from t offset 007",
        "SELECT \"a\" FROM \"t\" OFFSET 7",
    ),
    (
        "select a from t limit 9223372036854775807 offset 1",
        "SELECT \"a\" FROM \"t\" LIMIT 9223372036854775807 OFFSET 1",
    ),
    (
        "select a from t offset 9223372036854775807",
        "SELECT \"a\" FROM \"t\" OFFSET 9223372036854775807",
    ),
    (
        "select a from t where b = 1 order by c limit 2",
        "SELECT \"a\" FROM \"t\" WHERE \"b\" = 1 ORDER BY \"c\" LIMIT 2",
    ),
    (
        "select a from t where b = $1 and c = $1",
        "SELECT \"a\" FROM \"t\" WHERE \"b\" = $1 AND \"c\" = $1",
    ),
    (
        "select A.b from a where not (x=1 and y in ('p',$1)) or z is not null limit 5;",
        "SELECT \"b\" FROM \"a\" WHERE NOT (\"x\" = 1 AND \"y\" IN ('p', $1)) OR NOT \"z\" IS NULL LIMIT 5",
    ),
];

#[test]
fn selects(rt: HostRuntime) {
    are_rewritten(&rt, rt.alloc(), &TEXTS);
}
