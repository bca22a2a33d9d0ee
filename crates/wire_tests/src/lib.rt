//! Tests of the byte readers and of the protocol's messages: bodies byte by byte, the places of faults, the longest
//! lists, and streams that come in pieces.
#![tactic(auto)]

#[cfg(test)]
mod client;
#[cfg(test)]
mod fields;
#[cfg(test)]
mod helpers;
#[cfg(test)]
mod server;
#[cfg(test)]
mod streams;
