ghost use Rattle.std.specs.Prelude.{◌≡◌, ◌↔◌, [], ◌∷◌, map, string_bytes, codes, IfOk};

use command_words::{Asked, asked_by};
use std::alloc::Global;
use std::env::{self, Env};
use std::fmt::Display;
use std::io::ErrorKind;
use std::process::ExitCode;

/// The version of all programs.
const VERSION: &str = "0.1.0";

/// The exit statuses that are the same in all programs.
const USAGE: u8 = 1;

const WRITE_FAULT: u8 = 5;

const NO_MEMORY: u8 = 6;

/// A program, as its `main` speaks for it.
#[derive(Clone, Copy)]
pub struct Program<'a> {
    /// Its name, which what is said on standard error begins with.
    pub name: &'a str,
    /// What it answers to `--help`.
    pub help: &'a str,
}

impl<'a> Program<'a> {
    /// The program's last step: on standard error its name and how it ended, where the exit status isn't 0.
    pub fn end<R: Eprint, S: Display>(&self, rt: &R, status: &S, code: u8) -> ExitCode {
        if code != 0 {
            // Where standard error takes nothing, there is no place left to say so.
            let _ = eprintln!(rt; "{}: {status}", self.name);
        }
        ExitCode::from(code)
    }

    /// The same where there was no memory.
    pub fn no_memory<R: Eprint>(&self, rt: &R) -> ExitCode {
        self.end(rt, &"NoMemory: out of memory", NO_MEMORY)
    }

    // Prints what is asked, and gives the exit status; none where nothing is asked that every program answers.
    fn answer<R: Print + Eprint>(&self, rt: &R, asked: Asked) -> Option<ExitCode>
        ensures { (result ≡ None) ↔ (asked ≡ Asked.Work) }
    {
        let printed = match asked {
            Asked::Work => return None,
            Asked::Help => print!(rt; "{}", self.help),
            Asked::Version => println!(rt; "{} {VERSION}", self.name),
        };
        Some(match printed {
            Ok(()) => ExitCode::SUCCESS,
            Err(_) => self.end(rt, &"WriteFault: writing the output failed", WRITE_FAULT),
        })
    }

    /// The program's first step: the words that it works under. Where they ask for help or for the version,
    /// or can't be had, the program has answered, and ends with the status that is given. `usage` is what it
    /// says of a word that isn't UTF-8.
    pub fn begin<R: Env + AllocGlobal + Print + Eprint, S: Display>(
        &self,
        rt: &R,
        usage: &S,
    ) -> Result<Vec<String>, ExitCode>
        ensures no_help { IfOk result (λ words. map string_bytes words.items ≡ codes "--help" ∷ [] → ⊥) }
        ensures no_version { IfOk result (λ words. map string_bytes words.items ≡ codes "--version" ∷ [] → ⊥) }
    {
        let words = match env::args(rt) {
            Ok(words) => words,
            Err(why) if why.kind() == ErrorKind::OutOfMemory => return Err(self.no_memory(rt)),
            Err(_) => return Err(self.end(rt, usage, USAGE)),
        };
        let Ok(words) = words.skip(1).collect::<Vec<String>>(rt.alloc()) else {
            return Err(self.no_memory(rt));
        };
        match self.answer(rt, asked_by(&words)) {
            None => Ok(words),
            Some(code) => Err(code),
        }
    }
}
