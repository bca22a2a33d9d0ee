//! Tests of the files that keep keys: the format's bytes, the places of faults, the limit and failed reads.
#![tactic(auto)]

#[cfg(test)]
mod files;
#[cfg(test)]
mod rings;
