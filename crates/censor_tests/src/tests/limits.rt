//! Settings as large as they may be, and larger.

use super::{READ, refusal_of};
use censor::NO_PLACE;
use std::alloc::{AllocError, Global};
use std::rt::HostRuntime;
use std::test::Fail;

/// So many pieces, with a comma between two, between two other texts.
fn repeated(
    alloc: Global,
    before: &str,
    piece: &str,
    count: u32,
    after: &str,
) -> Result<String, AllocError> {
    let mut text = String::from_str(alloc, before)?;
    for index in 0..count {
        if index > 0 {
            text.push_str(",")?;
        }
        text.push_str(piece)?;
    }
    text.push_str(after)?;
    Ok(text)
}

fn with_handlers(alloc: Global, count: u32) -> Result<(u16, u16, u8), AllocError> {
    let text = repeated(
        alloc,
        r#"{"handlers":["#,
        r#"{"handler":"deny"}"#,
        count,
        "]}",
    )?;
    Ok(refusal_of(alloc, text.as_str()))
}

fn with_tables(alloc: Global, count: u32) -> Result<(u16, u16, u8), AllocError> {
    let text = repeated(
        alloc,
        r#"{"handlers":[{"handler":"deny","tables":["#,
        r#""t""#,
        count,
        "]}]}",
    )?;
    Ok(refusal_of(alloc, text.as_str()))
}

#[test]
fn handlers(rt: HostRuntime) -> Result<(), Fail> {
    let alloc = rt.alloc();
    assert!(rt; with_handlers(alloc, 256)? == READ);
    assert!(rt; with_handlers(alloc, 257)? == (NO_PLACE, NO_PLACE, 2));
    Ok(())
}

#[test]
fn entries(rt: HostRuntime) -> Result<(), Fail> {
    let alloc = rt.alloc();
    assert!(rt; with_tables(alloc, 1024)? == READ);
    assert!(rt; with_tables(alloc, 1025)? == (0, NO_PLACE, 2));
    Ok(())
}
