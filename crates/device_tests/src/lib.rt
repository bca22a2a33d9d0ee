//! Tests of devices: in memory, with the calls that are listed to fail, and of the system, with a writer and a disk
//! that are full.
#![tactic(auto)]

#[cfg(test)]
mod adapters;
#[cfg(test)]
mod files;
#[cfg(test)]
mod memory;
