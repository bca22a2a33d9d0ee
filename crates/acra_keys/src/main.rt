//! The program: opens the files `master` and `keystore` of a folder, does what its words ask, and keeps the ring.
#![tactic(auto)]

mod help;

use acra_devices::{FileKeeper, ReaderSource, SystemRandom, WriterSink};
use help::HELP;
use keys_core::{KeyFile, KeysStatus, ask_of, keys_top};
use program_end::Program;
use std::alloc::AllocError;
use std::fs::{self, File};
use std::io::{self, ErrorKind, Read};
use std::process::ExitCode;

/// The ring's file, or none yet.
#[derive(Drop)]
enum RingFile {
    There(File),
    Missing,
}

impl Read for RingFile {
    fn read(&mut self, buf: &mut [u8]) -> io::Result<usize> {
        match self {
            RingFile::There(file) => file.read(buf),
            RingFile::Missing => Ok(0),
        }
    }
}

/// Why a run has no status of the key tool.
#[derive(Drop)]
enum Trouble {
    /// The system doesn't open this file.
    NotOpened { file: KeyFile, why: io::Error },
    /// There was no memory.
    NoMemory,
}

impl From<AllocError> for Trouble {
    fn from(_: AllocError) -> Trouble {
        Trouble::NoMemory
    }
}

fn open_master(rt: &HostRuntime, folder: &str) -> Result<File, Trouble> {
    let path = format!(in rt.alloc(); "{folder}/master")?;
    fs::open(rt, path.as_str()).map_err(|why| Trouble::NotOpened {
        file: KeyFile::Master,
        why,
    })
}

/// The ring's file. One that is missing is an empty one.
fn open_ring(rt: &HostRuntime, folder: &str) -> Result<RingFile, Trouble> {
    let path = format!(in rt.alloc(); "{folder}/keystore")?;
    match fs::open(rt, path.as_str()) {
        Ok(file) => Ok(RingFile::There(file)),
        Err(why) if why.kind() == ErrorKind::NotFound => Ok(RingFile::Missing),
        Err(why) => Err(Trouble::NotOpened {
            file: KeyFile::Ring,
            why,
        }),
    }
}

/// Does what the words ask in a folder.
fn run(rt: HostRuntime, words: &[String], folder: &str) -> Result<KeysStatus, Trouble> {
    let alloc = rt.alloc();
    let mut master = ReaderSource::new(open_master(&rt, folder)?);
    let mut ring = ReaderSource::new(open_ring(&rt, folder)?);
    let Ok(mut keeper) = FileKeeper::new(alloc, rt, folder, "keystore") else {
        return Err(Trouble::NoMemory);
    };
    let mut random = SystemRandom::new(rt);
    let mut output = WriterSink::new(io::writer(&rt));
    Ok(keys_top(
        alloc,
        words,
        &mut master,
        &mut ring,
        &mut keeper,
        &mut random,
        &mut output,
    ))
}

/// Does what the words ask in a folder, to the end of the program.
fn work(rt: HostRuntime, program: &Program, words: &[String], folder: &str) -> ExitCode {
    match run(rt, words, folder) {
        Ok(status) => program.end(&rt, &status, status.code()),
        Err(Trouble::NoMemory) => program.no_memory(&rt),
        Err(Trouble::NotOpened { file, why }) => {
            let code = KeysStatus::ReadFault { file }.code();
            program.end(
                &rt,
                &format_args!("ReadFault: {folder}/{file}: {why}"),
                code,
            )
        }
    }
}

fn main(rt: HostRuntime) -> ExitCode {
    let program = Program {
        name: "acra_keys",
        help: HELP,
    };
    let words = match program.begin(&rt, &KeysStatus::Usage) {
        Ok(words) => words,
        Err(code) => return code,
    };
    match words.first() {
        Some(folder) if ask_of(&words).is_some() => work(rt, &program, &words, folder.as_str()),
        _ => program.end(&rt, &KeysStatus::Usage, KeysStatus::Usage.code()),
    }
}
