//! Statements, and their verdicts.

use super::{ALLOWED, each_judged};
use std::rt::HostRuntime;

#[test]
fn first_allowed(rt: HostRuntime) {
    let alloc = rt.alloc();
    each_judged(
        &rt,
        alloc,
        r#"{"handlers":[{"handler":"allow","queries":["SELECT id FROM customers"]},{"handler":"deny","tables":["customers"]}]}"#,
        &[
            ("select ID from customers", ALLOWED),
            ("SELECT card FROM customers", 20_001),
            ("SELECT card FROM others", ALLOWED),
            ("SET application_name = 'x'", ALLOWED),
            ("", ALLOWED),
        ],
    );
}

#[test]
fn numbered_through_the_lists(rt: HostRuntime) {
    let alloc = rt.alloc();
    each_judged(
        &rt,
        alloc,
        r#"{"handlers":[{"handler":"deny","patterns":["DELETE FROM v WHERE %%WHERE%%","DELETE FROM t WHERE %%WHERE%%"],"tables":["u","w"],"queries":["DELETE FROM t"]}]}"#,
        &[
            ("DELETE FROM t", 10_001),
            ("DELETE FROM w", 10_003),
            ("DELETE FROM v", 10_004),
            ("DELETE FROM t WHERE a = 1", 10_005),
        ],
    );
}

#[test]
fn all_denied(rt: HostRuntime) {
    let alloc = rt.alloc();
    each_judged(
        &rt,
        alloc,
        r#"{"handlers":[{"handler":"allow","tables":["t"]},{"handler":"denyall"},{"handler":"allowall"}]}"#,
        &[
            ("INSERT INTO t VALUES (1)", ALLOWED),
            ("INSERT INTO u VALUES (1)", 20_000),
            ("SET application_name = 'x'", 20_000),
            (";", ALLOWED),
        ],
    );
}

#[test]
fn all_allowed(rt: HostRuntime) {
    let alloc = rt.alloc();
    each_judged(
        &rt,
        alloc,
        r#"{"handlers":[{"handler":"deny","queries":["SET application_name = 'x'"]},{"handler":"allowall"},{"handler":"denyall"}]}"#,
        &[
            ("SET application_name TO x", 10_001),
            ("SET application_name = 'y'", ALLOWED),
            ("UPDATE t SET a = 1", ALLOWED),
        ],
    );
    each_judged(
        &rt,
        alloc,
        r#"{"handlers":[]}"#,
        &[("DELETE FROM t", ALLOWED)],
    );
}

#[test]
fn only_what_is_listed(rt: HostRuntime) {
    let alloc = rt.alloc();
    each_judged(
        &rt,
        alloc,
        r#"{"handlers":[{"handler":"allow","patterns":["SELECT id, name FROM people WHERE id = %%VALUE%%","INSERT INTO people (id, name) VALUES (%%VALUE%%, %%VALUE%%)"]},{"handler":"denyall"}]}"#,
        &[
            ("SELECT id, name FROM people WHERE id = 7", ALLOWED),
            ("INSERT INTO people (id, name) VALUES ($1, NULL)", ALLOWED),
            ("SELECT id FROM people WHERE id = 7", 20_000),
            ("SET application_name = 'x'", 20_000),
        ],
    );
}

#[test]
fn no_statement_over_a_whole_table(rt: HostRuntime) {
    let alloc = rt.alloc();
    each_judged(
        &rt,
        alloc,
        r#"{"handlers":[{"handler":"deny","queries":["DELETE FROM orders"],"patterns":["UPDATE orders SET state = %%VALUE%%"]}]}"#,
        &[
            ("DELETE FROM orders", 10_001),
            ("UPDATE orders SET state = 'sent'", 10_002),
            ("DELETE FROM orders WHERE id = 1", ALLOWED),
            ("UPDATE orders SET state = 'sent' WHERE id = 1", ALLOWED),
        ],
    );
}

#[test]
fn reading_whatever_the_condition(rt: HostRuntime) {
    let alloc = rt.alloc();
    each_judged(
        &rt,
        alloc,
        r#"{"handlers":[{"handler":"allow","patterns":["SELECT %%COLUMN%% FROM log WHERE %%WHERE%%"]},{"handler":"deny","tables":["log"]}]}"#,
        &[
            ("SELECT day FROM log", ALLOWED),
            (
                "SELECT day FROM log WHERE size > 3 AND NOT kind = 'x'",
                ALLOWED,
            ),
            ("SELECT day, size FROM log", 20_001),
            ("SELECT day FROM log LIMIT 5", 20_001),
        ],
    );
}

#[test]
fn one_column_not_searched(rt: HostRuntime) {
    let alloc = rt.alloc();
    each_judged(
        &rt,
        alloc,
        r#"{"handlers":[{"handler":"deny","patterns":["SELECT %%COLUMN%% FROM cards WHERE substr(number, 1, 33) = %%VALUE%%","SELECT %%COLUMN%% FROM cards WHERE number = %%VALUE%%"]},{"handler":"allowall"}]}"#,
        &[
            ("SELECT owner FROM cards WHERE number = '1234'", 10_002),
            (
                "SELECT owner FROM cards WHERE substr(number, 1, 33) = '1'",
                10_001,
            ),
            (
                "SELECT owner FROM cards WHERE number = '1234' AND owner = 'x'",
                ALLOWED,
            ),
        ],
    );
}
