//! Patterns, and what they match.

use super::{MATCHED, OTHER, UNREAD, each_matched};
use std::rt::HostRuntime;

#[test]
fn values(rt: HostRuntime) {
    let alloc = rt.alloc();
    each_matched(
        &rt,
        alloc,
        MATCHED,
        &[
            (
                "SELECT a FROM t WHERE a = %%VALUE%%",
                "select A from T where a = 'x'",
            ),
            (
                "SELECT a FROM t WHERE a = %%VALUE%%",
                "SELECT a FROM t WHERE a = -12",
            ),
            (
                "SELECT a FROM t WHERE a = %%VALUE%%",
                "SELECT a FROM t WHERE a = NULL",
            ),
            (
                "SELECT a FROM t WHERE a = %%VALUE%%",
                "SELECT a FROM t WHERE a = $1",
            ),
            (
                "SELECT a FROM t WHERE %%VALUE%% < a",
                "SELECT a FROM t WHERE 1 < a",
            ),
            (
                "INSERT INTO t VALUES (1, %%VALUE%%)",
                "INSERT INTO t VALUES (1, 'x')",
            ),
            ("UPDATE t SET a = %%VALUE%%", "UPDATE t SET a = 5"),
        ],
    );
}

#[test]
fn other_values(rt: HostRuntime) {
    let alloc = rt.alloc();
    each_matched(
        &rt,
        alloc,
        OTHER,
        &[
            (
                "SELECT a FROM t WHERE a = %%VALUE%%",
                "SELECT a FROM t WHERE a = b",
            ),
            (
                "SELECT a FROM t WHERE a = %%VALUE%%",
                "SELECT a FROM t WHERE a <> 1",
            ),
            (
                "SELECT a FROM t WHERE a = '%%VALUE%%'",
                "SELECT a FROM t WHERE a = 'x'",
            ),
            (
                "SELECT a FROM t WHERE a IN (%%VALUE%%)",
                "SELECT a FROM t WHERE a IN (1, 2)",
            ),
            (
                "INSERT INTO t VALUES (1, %%VALUE%%)",
                "INSERT INTO t VALUES (2, 'x')",
            ),
            (
                "INSERT INTO t VALUES (%%VALUE%%)",
                "INSERT INTO t VALUES (1), (2)",
            ),
        ],
    );
}

#[test]
fn columns(rt: HostRuntime) {
    let alloc = rt.alloc();
    each_matched(
        &rt,
        alloc,
        MATCHED,
        &[
            ("SELECT %%COLUMN%% FROM t", "SELECT b FROM t"),
            ("SELECT %%COLUMN%% AS x FROM t", "SELECT t.b AS x FROM t"),
            (
                "SELECT a FROM t ORDER BY %%COLUMN%% DESC",
                "SELECT a FROM t ORDER BY b DESC",
            ),
            (
                "SELECT a FROM t WHERE %%COLUMN%% = 1",
                "SELECT a FROM t WHERE b = 1",
            ),
            (
                "SELECT a FROM t WHERE %%COLUMN%% IS NULL",
                "SELECT a FROM t WHERE b IS NULL",
            ),
            (
                "SELECT a FROM t WHERE a = %%COLUMN%%",
                "SELECT a FROM t WHERE a = b",
            ),
        ],
    );
    each_matched(
        &rt,
        alloc,
        OTHER,
        &[
            ("SELECT %%COLUMN%% FROM t", "SELECT b AS c FROM t"),
            ("SELECT %%COLUMN%% FROM t", "SELECT a, b FROM t"),
            ("SELECT %%COLUMN%% FROM t", "SELECT * FROM t"),
            (
                "SELECT a FROM t ORDER BY %%COLUMN%% DESC",
                "SELECT a FROM t ORDER BY b",
            ),
            (
                "SELECT a FROM t WHERE a = %%COLUMN%%",
                "SELECT a FROM t WHERE a = 1",
            ),
        ],
    );
}

#[test]
fn prefixes(rt: HostRuntime) {
    let alloc = rt.alloc();
    each_matched(
        &rt,
        alloc,
        OTHER,
        &[(
            "DELETE FROM t WHERE %%COLUMN%% = 'x'",
            "DELETE FROM t WHERE substr(a, 1, 33) = 'x'",
        )],
    );
    each_matched(
        &rt,
        alloc,
        MATCHED,
        &[(
            "DELETE FROM t WHERE substr(%%COLUMN%%, 1, 33) = 'x'",
            "DELETE FROM t WHERE substr(a, 1, 33) = 'x'",
        )],
    );
}

#[test]
fn conditions(rt: HostRuntime) {
    let alloc = rt.alloc();
    each_matched(
        &rt,
        alloc,
        MATCHED,
        &[
            ("SELECT a FROM t WHERE %%WHERE%%", "SELECT a FROM t"),
            (
                "SELECT a FROM t WHERE %%WHERE%% LIMIT 3",
                "SELECT a FROM t WHERE a = 1 OR NOT b = 2 LIMIT 3",
            ),
            (
                "UPDATE t SET a = 1 WHERE %%WHERE%%",
                "UPDATE t SET a = 1 WHERE a IN (1, 2)",
            ),
            ("DELETE FROM t WHERE %%WHERE%%", "DELETE FROM t"),
            (
                "DELETE FROM t WHERE NOT a = %%VALUE%%",
                "DELETE FROM t WHERE NOT (a = 1)",
            ),
        ],
    );
    each_matched(
        &rt,
        alloc,
        OTHER,
        &[
            (
                "SELECT a FROM t WHERE %%WHERE%%",
                "SELECT a FROM u WHERE a = 1",
            ),
            (
                "DELETE FROM t WHERE a = 1 AND b = %%VALUE%%",
                "DELETE FROM t WHERE a = 1 AND b = 2 AND c = 3",
            ),
            (
                "DELETE FROM t WHERE a = 1 OR b = %%VALUE%%",
                "DELETE FROM t WHERE a = 1 AND b = 2",
            ),
            ("DELETE FROM t WHERE a = %%VALUE%%", "DELETE FROM t"),
        ],
    );
}

#[test]
fn misplaced(rt: HostRuntime) {
    let alloc = rt.alloc();
    each_matched(
        &rt,
        alloc,
        UNREAD,
        &[
            ("SELECT a FROM %%COLUMN%%", ""),
            ("SELECT t.%%COLUMN%% FROM t", ""),
            ("SELECT a AS %%COLUMN%% FROM t", ""),
            ("INSERT INTO t (%%COLUMN%%) VALUES (1)", ""),
            ("UPDATE t SET %%COLUMN%% = 1", ""),
            ("SET application_name = %%VALUE%%", ""),
        ],
    );
}

#[test]
fn misplaced_conditions(rt: HostRuntime) {
    let alloc = rt.alloc();
    each_matched(
        &rt,
        alloc,
        UNREAD,
        &[
            ("DELETE FROM t WHERE NOT %%WHERE%%", ""),
            ("DELETE FROM t WHERE (%%WHERE%%)", ""),
            ("DELETE FROM t WHERE %%WHERE%% AND a = 1", ""),
            ("DELETE FROM t %%WHERE%%", ""),
            ("SELECT a FROM t LIMIT %%VALUE%%", ""),
            ("SELECT a FROM t WHERE a = %%value%%", ""),
        ],
    );
}
