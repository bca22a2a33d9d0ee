//! What the tests share: words, devices, and a source that gives a few bytes at a read.

use acra_devices::{Failed, MemLink, Source, SureLink};
use std::alloc::Global;
use std::test::Fail;

/// The words of a command line.
pub fn spoken(alloc: Global, texts: &[&str]) -> Result<Vec<String>, Fail> {
    let mut words = Vec::new(alloc);
    'texts: for text in texts {
        words.push(String::from_str(alloc, text)?)?;
    }
    Ok(words)
}

/// These bytes, one behind the other.
pub fn joined(alloc: Global, parts: &[&[u8]]) -> Result<Vec<u8>, Fail> {
    let mut bytes = Vec::new(alloc);
    'parts: for part in parts {
        bytes.extend_from_slice(part)?;
    }
    Ok(bytes)
}

/// A link with this content, of which no call fails.
pub fn sure(alloc: Global, bytes: &[u8]) -> Result<SureLink, Fail> {
    Ok(SureLink::new(alloc, Vec::from_slice(alloc, bytes)?))
}

/// A link with this content, of which the calls with these numbers fail.
pub fn link(alloc: Global, bytes: &[u8], failing: &[u64]) -> Result<MemLink, Fail> {
    let bytes = Vec::from_slice(alloc, bytes)?;
    Ok(MemLink::new(alloc, bytes, Vec::from_slice(alloc, failing)?))
}

/// Gives a few bytes at a read. The read with this number fails.
#[derive(Drop)]
pub struct Pieces<'a> {
    left: &'a [u8],
    most: usize,
    failing: Option<u64>,
    calls: u64,
    faults: u64,
}

impl<'a> Pieces<'a> {
    /// These bytes, so many at a read at most.
    pub fn new(left: &'a [u8], most: usize, failing: Option<u64>) -> Self {
        Pieces {
            left,
            most,
            failing,
            calls: 0,
            faults: 0,
        }
    }
}

impl<'a> Source for Pieces<'a> {
    ghost use Rattle.std.specs.Prelude.{None};

    ghost left = { λ _. None };

    ghost read_faults = { λ s. s.faults };

    fn read(&mut self, buf: &mut [u8]) -> Result<usize, Failed> {
        let call = self.calls;
        self.calls = self.calls.saturating_add(1);
        if self.failing == Some(call) {
            self.faults = self.faults.saturating_add(1);
            return Err(Failed);
        }
        let count = self.left.len().min(buf.len()).min(self.most);
        let (front, rest) = self.left.split_at(count);
        buf[..count].copy_from_slice(front);
        self.left = rest;
        Ok(count)
    }
}
