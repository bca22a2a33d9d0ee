use super::*;

/// DELETE with this in front of its test and this behind it, so often.
fn nested(alloc: Global, front: &str, back: &str, count: usize) -> Result<Vec<u8>, Fail> {
    let mut text = Vec::new(alloc);
    text.extend_from_slice(b"delete from t where ")?;
    for _ in 0..count {
        text.extend_from_slice(front.as_bytes())?;
    }
    text.extend_from_slice(b"a = 1")?;
    for _ in 0..count {
        text.extend_from_slice(back.as_bytes())?;
    }
    Ok(text)
}

fn is_too_deep(alloc: Global, text: &[u8]) -> bool {
    let end = text.len().min(1 << 30) as u32;
    is_refused(alloc, text, SqlKind::TooDeep, end)
}

#[test]
fn nodes(rt: HostRuntime) -> Result<(), Fail> {
    let alloc = rt.alloc();
    for count in [63, 64] {
        let text = nested(alloc, "not ", "", count)?;
        let canonical = nested_canonical(alloc, count)?;
        assert!(rt; is_rewritten(alloc, &text, &canonical), "{count}");
    }
    assert!(rt; is_too_deep(alloc, &nested(alloc, "not ", "", 65)?));
    assert!(rt; is_too_deep(alloc, &nested(alloc, "(not ", ")", 65)?));
    assert!(rt; is_too_deep(alloc, &nested(alloc, "b = 1 or b = 2 and (", ")", 33)?));
    Ok(())
}

fn nested_canonical(alloc: Global, count: usize) -> Result<Vec<u8>, Fail> {
    let mut text = Vec::new(alloc);
    text.extend_from_slice(b"DELETE FROM \"t\" WHERE ")?;
    for _ in 0..count {
        text.extend_from_slice(b"NOT ")?;
    }
    text.extend_from_slice(b"\"a\" = 1")?;
    Ok(text)
}

#[test]
fn parentheses(rt: HostRuntime) -> Result<(), Fail> {
    let alloc = rt.alloc();
    let most = nested(alloc, "(", ")", 128)?;
    assert!(rt; is_rewritten(alloc, &most, b"DELETE FROM \"t\" WHERE \"a\" = 1"));
    assert!(rt; is_too_deep(alloc, &nested(alloc, "(", ")", 129)?));
    Ok(())
}

#[test]
fn hundred_thousand(rt: HostRuntime) -> Result<(), Fail> {
    let alloc = rt.alloc();
    assert!(rt; is_too_deep(alloc, &nested(alloc, "(", ")", 100_000)?));
    assert!(rt; is_too_deep(alloc, &nested(alloc, "not ", "", 100_000)?));
    let open = nested(alloc, "(", "", 100_000)?;
    assert!(rt; is_refused(alloc, &open, SqlKind::Syntax, 100_025));
    Ok(())
}

fn is_too_long(alloc: Global, text: &[u8], limit: u32) -> bool {
    let mut out = Vec::new(alloc);
    let refusal = SqlRefusal {
        place: limit,
        kind: SqlKind::TooLong,
    };
    match rewrite(alloc, text, limit, &mut out) {
        Err(ParseFault::Refused(found)) => found == refusal,
        _ => false,
    }
}

#[test]
fn limits(rt: HostRuntime) {
    let alloc = rt.alloc();
    assert!(rt; !is_too_long(alloc, b"select a from t", 15));
    assert!(rt; is_too_long(alloc, b"select a from t", 14));
    assert!(rt; is_too_long(alloc, b"begin", 0));
    assert!(rt; !is_too_long(alloc, b"", 0));
}

// Bytes that are not UTF-8: a lone one, a cut one, one that is longer than it need be, half of a pair.
#[test]
fn not_text(rt: HostRuntime) {
    let alloc = rt.alloc();
    assert!(rt; is_refused(alloc, b"select 'x\xff' from t", SqlKind::Syntax, 7));
    assert!(rt; is_refused(alloc, b"select \"\xc3\" from t", SqlKind::Syntax, 7));
    assert!(rt; is_refused(alloc, b"select /*\xc0\xaf*/ a from t", SqlKind::Syntax, 7));
    assert!(rt;
        is_refused(
            alloc,
            b"select a from t --\xed\xa0\x80",
            SqlKind::Syntax,
            16
        )
    );
    assert!(rt; is_refused(alloc, b"\xef\xbb\xbfselect a from t", SqlKind::Syntax, 0));
}
