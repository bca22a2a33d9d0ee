ghost use Rattle.std.specs.Prelude.{◌≡◌, None};

use crate::device::{Failed, Sink, Source};
use std::io::{Read, Write};

/// A reader of the system, as standard input, as a source. It tells nothing.
#[derive(Drop)]
pub struct ReaderSource<R: Read + Drop> {
    inner: R,
    faults: u64,
}

impl<R: Read + Drop> ReaderSource<R> {
    /// The reader, with no fault counted.
    pub fn new(inner: R) -> Self
        ensures { ⟦<ReaderSource<R> as Source>⟧.read_faults result ≡ 0 }
    {
        ReaderSource { inner, faults: 0 }
    }
}

impl<R: Read + Drop> Source for ReaderSource<R> {
    ghost left = { λ _. None };

    ghost read_faults = { λ s. s.faults };

    fn read(&mut self, buf: &mut [u8]) -> Result<usize, Failed> {
        match self.inner.read(buf) {
            Ok(count) => Ok(count),
            Err(_) => {
                self.faults = self.faults.saturating_add(1);
                Err(Failed)
            }
        }
    }
}

/// A writer of the system, as standard output, as a sink. It tells nothing.
#[derive(Drop)]
pub struct WriterSink<W: Write + Drop> {
    inner: W,
    faults: u64,
}

impl<W: Write + Drop> WriterSink<W> {
    /// The writer, with no fault counted.
    pub fn new(inner: W) -> Self
        ensures { ⟦<WriterSink<W> as Sink>⟧.write_faults result ≡ 0 }
    {
        WriterSink { inner, faults: 0 }
    }
}

impl<W: Write + Drop> Sink for WriterSink<W> {
    ghost held = { λ _. None };

    ghost write_faults = { λ s. s.faults };

    // A writer that takes nothing of a piece has failed.
    fn write(&mut self, bytes: &[u8]) -> Result<usize, Failed> {
        if bytes.is_empty() {
            return Ok(0);
        }
        match self.inner.write(bytes) {
            Ok(count) if count > 0 => Ok(count),
            _ => {
                self.faults = self.faults.saturating_add(1);
                Err(Failed)
            }
        }
    }
}
