//! The files that keep keys: the ring with all its keys, sealed under a master key, and the master key in its file;
//! and a file that is read whole, up to a limit.
#![tactic(auto)]

mod body;
mod clients;
mod fields;
mod file;
mod ids;
mod laws;
mod master;
mod whole;
mod writing;

pub use file::{RingFault, read_ring, write_ring};
pub use laws::{fault_places, whole_bodies};
pub use master::{MasterFault, read_master};
pub use whole::{FileRefusal, read_file};
