//! What is asked of each text.
ghost use Rattle.censor.specs.Verdicts.{NamesPart};

mod judgements;
mod limits;
mod patterns;
mod settings;

use censor::{Censor, CensorFault, NO_PLACE, Verdict, read_censor};
use sql_parser::parse;
use sql_patterns::{Pattern, read_pattern};
use sql_tree::Statement;
use std::alloc::Global;
use std::process::Abort;

/// As long as a statement may be.
const LIMIT: u32 = 1 << 20;

// What is told of a pattern and a statement, or of settings and a statement, beside the number of a refusal.
const OTHER: u32 = 0;

const MATCHED: u32 = 1;

const UNREAD: u32 = 2;

const ALLOWED: u32 = 3;

fn told_if(matches: bool) -> u32 {
    if matches { MATCHED } else { OTHER }
}

/// Whether a pattern matches a statement.
fn told_of(pattern: &Pattern, statement: Statement) -> u32 {
    told_if(pattern.matches(&statement))
}

/// Whether a pattern matches the statement of a text.
fn told_of_text(alloc: Global, pattern: &Pattern, text: &str) -> u32 {
    match parse(alloc, text.as_bytes(), LIMIT) {
        Ok(statement) => told_of(pattern, statement),
        Err(_) => UNREAD,
    }
}

fn told_by(alloc: Global, pattern: Pattern, text: &str) -> u32 {
    told_of_text(alloc, &pattern, text)
}

/// Whether the pattern of a text matches the statement of another.
fn matched(alloc: Global, pattern: &str, text: &str) -> u32 {
    match read_pattern(alloc, pattern.as_bytes()) {
        Ok(Some(pattern)) => told_by(alloc, pattern, text),
        _ => UNREAD,
    }
}

/// Each pattern says this of its statement.
fn each_matched(rt: &impl Abort, alloc: Global, told: u32, texts: &[(&str, &str)]) {
    for (pattern, text) in texts {
        assert!(rt;
            matched(alloc, pattern, text) == told,
            "{pattern} and {text}"
        );
    }
}

/// The number of a verdict: `ALLOWED`, or 10,000 for each handler up to the one that denies, and its rule.
fn number_of(censor: &Censor, verdict: Verdict) -> u32
    requires { NamesPart censor.now.handlers verdict }
{
    match verdict {
        Verdict::Allowed => ALLOWED,
        Verdict::Denied { handler, part } => {
            (handler as u32 + 1) * 10_000 + censor.rule_number(handler, part) as u32
        }
    }
}

/// The number of the verdict on a statement.
fn verdict_on(censor: &Censor, statement: Statement) -> u32 {
    number_of(censor, censor.judge(&statement))
}

/// The number of the verdict on the statement of a text.
fn verdict_on_text(alloc: Global, censor: &Censor, text: &str) -> u32 {
    match parse(alloc, text.as_bytes(), LIMIT) {
        Ok(statement) => verdict_on(censor, statement),
        Err(_) => UNREAD,
    }
}

fn verdict_by(alloc: Global, censor: Censor, text: &str) -> u32 {
    verdict_on_text(alloc, &censor, text)
}

/// The number of the verdict on the statement of a text under settings.
fn judged(alloc: Global, settings: &str, text: &str) -> u32 {
    match read_censor(alloc, settings.as_bytes()) {
        Ok(censor) => verdict_by(alloc, censor, text),
        Err(_) => UNREAD,
    }
}

/// Each statement has this verdict under the settings.
fn each_judged(rt: &impl Abort, alloc: Global, settings: &str, texts: &[(&str, u32)]) {
    for (text, number) in texts {
        assert!(rt; judged(alloc, settings, text) == *number, "{text}");
    }
}

// The numbers of a refusal: its handler, its entry and its rule.
const NO_MEMORY: (u16, u16, u8) = (0, 0, 99);

const READ: (u16, u16, u8) = (NO_PLACE, NO_PLACE, 0);

fn refusal_of(alloc: Global, text: &str) -> (u16, u16, u8) {
    match read_censor(alloc, text.as_bytes()) {
        Ok(_) => READ,
        Err(CensorFault::Refused(refusal)) => (refusal.handler, refusal.entry, refusal.rule),
        Err(CensorFault::NoMemory) => NO_MEMORY,
    }
}

/// Each text breaks this rule, at its handler and entry.
fn each_breaks(rt: &impl Abort, alloc: Global, rule: u8, texts: &[(&str, u16, u16)]) {
    for (text, handler, entry) in texts {
        assert!(rt;
            refusal_of(alloc, text) == (*handler, *entry, rule),
            "{text}"
        );
    }
}
