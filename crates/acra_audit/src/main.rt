//! The program: verifies the audit log of a folder, and says on standard output what it is.
#![tactic(auto)]

mod file;
mod help;

use acra_devices::WriterSink;
use audit_core::{AuditStatus, audit_top};
use file::FileSource;
use help::HELP;
use program_end::Program;
use std::alloc::AllocError;
use std::io;
use std::process::ExitCode;

/// Verifies the log of the folder that the words name.
fn run(rt: HostRuntime, words: &[String]) -> Result<AuditStatus, AllocError> {
    let mut master = FileSource::open(&rt, words, "master")?;
    let mut ring = FileSource::open(&rt, words, "keystore")?;
    let mut log = FileSource::open(&rt, words, "audit")?;
    let mut output = WriterSink::new(io::writer(&rt));
    Ok(audit_top(
        rt.alloc(),
        words,
        &mut master,
        &mut ring,
        &mut log,
        &mut output,
    ))
}

fn main(rt: HostRuntime) -> ExitCode {
    let program = Program {
        name: "acra_audit",
        help: HELP,
    };
    let words = match program.begin(&rt, &AuditStatus::Usage) {
        Ok(words) => words,
        Err(code) => return code,
    };
    match run(rt, &words) {
        Ok(status) => program.end(&rt, &status, status.code()),
        Err(_) => program.no_memory(&rt),
    }
}
