//! Settings, and the rule that they break first.

use super::{READ, each_breaks, refusal_of};
use censor::NO_PLACE;
use std::rt::HostRuntime;

#[test]
fn tops(rt: HostRuntime) {
    let alloc = rt.alloc();
    each_breaks(
        &rt,
        alloc,
        1,
        &[
            ("", NO_PLACE, NO_PLACE),
            ("[]", NO_PLACE, NO_PLACE),
            ("{}", NO_PLACE, NO_PLACE),
            (r#"{"handlers":[],"more":1}"#, NO_PLACE, NO_PLACE),
            (r#"{"handlers":{}}"#, NO_PLACE, NO_PLACE),
            (
                r#"{"handlers":[{"handler":"allow"},7]}"#,
                NO_PLACE,
                NO_PLACE,
            ),
        ],
    );
}

#[test]
fn members(rt: HostRuntime) {
    let alloc = rt.alloc();
    each_breaks(
        &rt,
        alloc,
        3,
        &[
            (
                r#"{"handlers":[{"handler":"allow"},{"tables":["t"]}]}"#,
                1,
                NO_PLACE,
            ),
            (r#"{"handlers":[{"handler":"permit"}]}"#, 0, NO_PLACE),
            (
                r#"{"handlers":[{"handler":"deny","table":["t"]}]}"#,
                0,
                NO_PLACE,
            ),
            (
                r#"{"handlers":[{"handler":"deny","tables":"t"}]}"#,
                0,
                NO_PLACE,
            ),
            (
                r#"{"handlers":[{"handler":"deny","queries":["SELECT"],"tables":["t",5]}]}"#,
                0,
                2,
            ),
        ],
    );
}

#[test]
fn lists(rt: HostRuntime) {
    let alloc = rt.alloc();
    each_breaks(
        &rt,
        alloc,
        4,
        &[
            (
                r#"{"handlers":[{"handler":"denyall","tables":[]}]}"#,
                0,
                NO_PLACE,
            ),
            (
                r#"{"handlers":[{"handler":"deny","tables":[""]},{"handler":"allowall","queries":["SELECT"]}]}"#,
                1,
                NO_PLACE,
            ),
        ],
    );
    each_breaks(
        &rt,
        alloc,
        5,
        &[
            (
                r#"{"handlers":[{"handler":"deny","patterns":["SELECT FROM"]}]}"#,
                0,
                0,
            ),
            (
                r#"{"handlers":[{"handler":"deny","queries":["SELECT a FROM t","SELECT %%COLUMN%% FROM t"]}]}"#,
                0,
                1,
            ),
            (
                r#"{"handlers":[{"handler":"deny","tables":[""],"patterns":["SELECT a FROM t","BEGIN"]}]}"#,
                0,
                2,
            ),
        ],
    );
    each_breaks(
        &rt,
        alloc,
        6,
        &[(
            r#"{"handlers":[{"handler":"deny","queries":["SELECT a FROM t"],"tables":["t",""]}]}"#,
            0,
            2,
        )],
    );
}

#[test]
fn read(rt: HostRuntime) {
    let alloc = rt.alloc();
    assert!(rt; refusal_of(alloc, r#"{"handlers":[]}"#) == READ);
    assert!(rt;
        refusal_of(
            alloc,
            r#" {"handlers" : [{"tables":[], "handler":"allow"}, {"handler":"denyall"}]} "#
        ) == READ
    );
}
