//! The adapters of the system's streams and random bytes.

use acra_devices::{
    Failed, Random, ReaderSource, Source, SystemRandom, WriteFault, WriterSink, write_whole,
};
use std::alloc::Global;
use std::io::{self, Write};
use std::random::RandomSource;

/// Takes two bytes at a call, until it is full.
#[derive(Drop)]
struct Narrow<'a> {
    taken: &'a mut Vec<u8>,
    room: usize,
}

impl<'a> Write for Narrow<'a> {
    fn write(&mut self, buf: &[u8]) -> io::Result<usize> {
        let count = buf.len().min(self.room).min(2);
        self.taken.extend_from_slice(&buf[..count])?;
        self.room -= count;
        Ok(count)
    }

    fn flush(&mut self) -> io::Result<()> {
        Ok(())
    }
}

#[test]
fn reads_to_the_end(rt: HostRuntime) {
    let mut source = ReaderSource::new(b"abc".as_slice());
    let mut buf = [0; 2];
    for (count, bytes) in [(2, b"ab"), (1, b"cb"), (0, b"cb")] {
        assert_eq!(rt; source.read(&mut buf), Ok(count));
        assert_eq!(rt; &buf, bytes);
    }
}

/// The answer of a writer with so much room, and what it took.
fn written(alloc: Global, room: usize) -> (Result<(), WriteFault>, Vec<u8>) {
    let mut taken = Vec::new(alloc);
    let inner = Narrow {
        taken: &mut taken,
        room,
    };
    let mut sink = WriterSink::new(inner);
    let answer = write_whole(&mut sink, b"abcde");
    drop(sink);
    (answer, taken)
}

/// The room, the answer, and how much was taken.
const ROOMS: [(usize, Result<(), WriteFault>, usize); 4] = [
    (9, Ok(()), 5),
    (5, Ok(()), 5),
    (3, Err(WriteFault { done: 3 }), 3),
    (0, Err(WriteFault { done: 0 }), 0),
];

#[test]
fn writes_until_it_is_full(rt: HostRuntime) {
    for (room, answer, count) in ROOMS {
        let (found, taken) = written(rt.alloc(), room);
        assert_eq!(rt; found, answer, "room {room}");
        assert_eq!(rt; taken.len(), count, "room {room}");
        assert!(rt; b"abcde".starts_with(&taken), "room {room}");
    }
}

/// No bytes come.
#[derive(Drop)]
struct Dry;

impl RandomSource for Dry {
    fn fill_bytes(&self, _buf: &mut [u8]) -> io::Result<()> {
        Err(io::Error::from(io::ErrorKind::Other))
    }
}

#[test]
fn draws_of_the_system(rt: HostRuntime) {
    let mut random = SystemRandom::new(rt);
    let mut first = [0; 32];
    let mut second = [0; 32];
    assert_eq!(rt; random.draw(&mut first), Ok(()));
    assert_eq!(rt; random.draw(&mut second), Ok(()));
    assert_ne!(rt; first, second);

    let mut random = SystemRandom::new(Dry);
    assert_eq!(rt; random.draw(&mut first), Err(Failed));
}
