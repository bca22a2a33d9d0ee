//! The texts, and what is asked of each.

mod entries;
mod limits;
mod policies;
mod schemas;
mod values;

use enc_config::{NO_PLACE, PolicyFault, read_policy};
use std::alloc::{AllocError, Global};
use std::process::Abort;

/// The rule of a policy, and of want of memory, where a text has no refusal.
const POLICY: u8 = 0;

const NO_MEMORY: u8 = 99;

/// The refusal of a text, as schema, entry and rule.
fn refusal_of(alloc: Global, text: &str) -> (u16, u16, u8) {
    match read_policy(alloc, text.as_bytes()) {
        Ok(_) => (NO_PLACE, NO_PLACE, POLICY),
        Err(PolicyFault::Refused(refusal)) => (refusal.schema, refusal.entry, refusal.rule),
        Err(PolicyFault::NoMemory) => (NO_PLACE, NO_PLACE, NO_MEMORY),
    }
}

/// A text between two others.
fn between(alloc: Global, before: &str, text: &str, after: &str) -> Result<String, AllocError> {
    let mut whole = String::from_str(alloc, before)?;
    whole.push_str(text)?;
    whole.push_str(after)?;
    Ok(whole)
}

/// Whether the text between two others is refused so, or gives a policy where the rule is `POLICY`.
fn breaks(
    alloc: Global,
    before: &str,
    text: &str,
    after: &str,
    place: (u16, u16),
    rule: u8,
) -> Result<bool, AllocError> {
    let whole = between(alloc, before, text, after)?;
    let (schema, entry, found) = refusal_of(alloc, whole.as_str());
    Ok(found == rule && (rule == POLICY || (schema, entry) == place))
}

/// Each text, between two others, breaks its rule at this place, or gives a policy where the rule is `POLICY`.
fn each_breaks(
    rt: &impl Abort,
    alloc: Global,
    before: &str,
    after: &str,
    place: (u16, u16),
    texts: &[(&str, u8)],
) -> Result<(), AllocError> {
    for (text, rule) in texts {
        assert!(rt; breaks(alloc, before, text, after, place, *rule)?, "{text}");
    }
    Ok(())
}
