//! The program: reads a client's bytes from standard input, and writes the replies to standard output.
#![tactic(auto)]

mod help;

use acra_devices::{ReaderSource, WriterSink};
use help::HELP;
use lab_core::{Status, lab_top};
use program_end::Program;
use std::io;
use std::process::ExitCode;

fn main(rt: HostRuntime) -> ExitCode {
    let program = Program {
        name: "acra_lab",
        help: HELP,
    };
    let words = match program.begin(&rt, &Status::Usage) {
        Ok(words) => words,
        Err(code) => return code,
    };
    let mut input = ReaderSource::new(rt.reader());
    let mut output = WriterSink::new(io::writer(&rt));
    let status = lab_top(rt.alloc(), &words, &mut input, &mut output);
    program.end(&rt, &status, status.code())
}
