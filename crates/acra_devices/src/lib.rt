//! Devices as traits with told content and counts of faults: sources, sinks, links, keepers and random
//! bytes. Those in memory tell their content; those of the system are adapters that count their faults.
#![tactic(auto)]

mod calls;
mod device;
mod file;
mod keeper;
mod keeping;
mod memory;
mod random;
mod seeding;
mod shelf;
mod stream;
mod whole;
mod wire;

pub use device::{Failed, Link, Sink, Source};
pub use file::FileKeeper;
pub use keeper::Keeper;
pub use keeping::{MemKeeper, SureKeeper};
pub use memory::{MemLink, SureLink};
pub use random::{Random, SureRandom, SystemRandom};
pub use seeding::SeedRandom;
pub use stream::{ReaderSource, WriterSink};
pub use whole::{WriteFault, write_whole};
