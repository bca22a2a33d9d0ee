//! What is asked of each crate, and bytes as hexadecimal digits.

mod cells;
mod ciphers;
mod macs;
mod rings;

use std::alloc::Global;
use std::test::Fail;

/// The bytes of hexadecimal digits.
fn bytes(alloc: Global, digits: &str) -> Result<Vec<u8>, Fail> {
    Ok(hex::decode(alloc, digits).map_err(|_| "no digits")?)
}

/// Bytes in an array of their length, 0 where there are fewer.
fn array<const N: usize>(bytes: &[u8]) -> [u8; N] {
    let mut all = [0; N];
    for (place, byte) in all.iter_mut().zip(bytes) {
        *place = *byte;
    }
    all
}
