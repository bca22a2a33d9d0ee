//! The texts, and what is asked of each.

mod changes;
mod conditions;
mod deep;
mod misspelled;
mod outside;
mod printed;
mod selects;
mod tokens;
mod words;

use sql_parser::{ParseFault, SqlKind, SqlRefusal, rewrite};
use std::alloc::Global;
use std::process::Abort;
use std::test::Fail;

/// As long as a text may be.
const LIMIT: u32 = 1 << 27;

/// Whether the text is rewritten so.
fn is_rewritten(alloc: Global, text: &[u8], expected: &[u8]) -> bool {
    let mut out = Vec::new(alloc);
    match rewrite(alloc, text, LIMIT, &mut out) {
        Ok(()) => out.as_slice() == expected,
        Err(_) => false,
    }
}

/// Whether the text is refused so.
fn is_refused(alloc: Global, text: &[u8], kind: SqlKind, place: u32) -> bool {
    let mut out = Vec::new(alloc);
    match rewrite(alloc, text, LIMIT, &mut out) {
        Err(ParseFault::Refused(refusal)) => refusal == SqlRefusal { place, kind },
        _ => false,
    }
}

/// Each text has its canonical text, which is its own.
fn are_rewritten(rt: &impl Abort, alloc: Global, texts: &[(&str, &str)]) {
    for (text, expected) in texts {
        assert!(rt;
            is_rewritten(alloc, text.as_bytes(), expected.as_bytes()),
            "{text}"
        );
        assert!(rt;
            is_rewritten(alloc, expected.as_bytes(), expected.as_bytes()),
            "{expected}"
        );
    }
}

/// Each text is refused for this cause, at its place.
fn are_refused(rt: &impl Abort, alloc: Global, kind: SqlKind, texts: &[(&str, u32)]) {
    for (text, place) in texts {
        assert!(rt; is_refused(alloc, text.as_bytes(), kind, *place), "{text}");
    }
}
