//! Cases that are lines of text.

use outcome_text::told;
use std::alloc::Global;
use std::process::Abort;
use std::test::Fail;
use table_store::Tables;

/// Each line is a text, a bar, and what the text gives.
pub fn are_told(
    rt: &impl Abort,
    alloc: Global,
    tables: &mut Tables,
    cases: &str,
) -> Result<(), Fail> {
    'cases: for case in cases.split('\n') {
        let (text, want) = case.split_once('|').unwrap_or((case, ""));
        let got = told(alloc, tables, text)?;
        assert_eq!(rt; got.as_slice(), want.trim().as_bytes(), "at {text}");
    }
    Ok(())
}
