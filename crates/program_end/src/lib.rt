//! How each program begins and ends: what it answers to `--help` and to `--version`, the words that it works
//! under, and what it says where it doesn't end well.
#![tactic(auto)]

mod program;

pub use program::Program;
