use super::*;

const REFUSALS: [(SqlKind, &str); 4] = [
    (SqlKind::TooLong, "the text is too long, at byte 7"),
    (
        SqlKind::OutsideProfile,
        "the statement is not in the profile, at byte 7",
    ),
    (SqlKind::Syntax, "the text is not in the profile, at byte 7"),
    (SqlKind::TooDeep, "the nesting is too deep, at byte 7"),
];

#[test]
fn refusals(rt: HostRuntime) -> Result<(), Fail> {
    let alloc = rt.alloc();
    for (kind, expected) in REFUSALS {
        let refusal = SqlRefusal { place: 7, kind };
        let printed = format!(in alloc; "{refusal}")?;
        assert!(rt; printed.as_str() == expected, "{expected}");
        let fault = format!(in alloc; "{}", ParseFault::Refused(refusal))?;
        assert!(rt; fault.as_str() == expected, "{expected}");
    }
    let wanting = format!(in alloc; "{}", ParseFault::NoMemory)?;
    assert!(rt; wanting.as_str() == "out of memory");
    Ok(())
}
