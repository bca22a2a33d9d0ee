use super::*;

const TEXTS: [(&str, u32); 18] = [
    ("CREATE TABLE t (a int)", 0),
    ("  begin", 2),
    ("commit;", 0),
    ("/* x */ drop table t", 8),
    ("--\nend", 3),
    ("with a as (select 1) select 2", 0),
    ("values (1)", 0),
    ("load 'x", 0),
    ("explain select a from t", 0),
    ("do $$", 0),
    ("set search_path = x", 4),
    ("set session application_name = 'x'", 4),
    ("SET  \"Application_Name\" = 'x'", 5),
    ("set/**/time zone 'utc'", 7),
    ("set select", 4),
    ("set to", 4),
    ("set x '", 4),
    ("set x", 4),
];

#[test]
fn outside(rt: HostRuntime) {
    are_refused(&rt, rt.alloc(), SqlKind::OutsideProfile, &TEXTS);
}

const WORDS: [&str; 43] = [
    "create",
    "alter",
    "drop",
    "begin",
    "commit",
    "rollback",
    "start",
    "abort",
    "end",
    "savepoint",
    "release",
    "copy",
    "listen",
    "notify",
    "unlisten",
    "prepare",
    "execute",
    "deallocate",
    "declare",
    "fetch",
    "move",
    "close",
    "show",
    "reset",
    "discard",
    "explain",
    "analyze",
    "vacuum",
    "grant",
    "revoke",
    "truncate",
    "lock",
    "call",
    "do",
    "with",
    "table",
    "merge",
    "comment",
    "reindex",
    "cluster",
    "refresh",
    "checkpoint",
    "load",
];

// Each begins such a statement, unless it is quoted, and is a name elsewhere.
#[test]
fn words(rt: HostRuntime) -> Result<(), Fail> {
    let alloc = rt.alloc();
    for word in &WORDS {
        assert!(rt;
            is_refused(alloc, word.as_bytes(), SqlKind::OutsideProfile, 0),
            "{word}"
        );
        let quoted = format!(in alloc; "\"{word}\"")?;
        assert!(rt;
            is_refused(alloc, quoted.as_bytes(), SqlKind::Syntax, 0),
            "{word}"
        );
        let named = format!(in alloc; "delete from {word}")?;
        let canonical = format!(in alloc; "DELETE FROM \"{word}\"")?;
        assert!(rt;
            is_rewritten(alloc, named.as_bytes(), canonical.as_bytes()),
            "{word}"
        );
    }
    Ok(())
}
