use crate::helpers::{feed, next_frame};
use acra_devices::{Random, SureRandom};
use pg_wire::{FrameFault, Framer, NextFault, Side};
use std::alloc::Global;
use std::process::Abort;
use std::test::*;

/// A frame's offset, type and length of body.
type Line = (u64, u8, usize);

/// Puts the frames that have come whole, at most ten, into the log.
fn take_frames(rt: &impl Abort, framer: &mut Framer, log: &mut Vec<Line>) {
    for _ in 0..10 {
        let Some(frame) = framer.next().expect(rt, "no fault") else {
            return;
        };
        let line = (frame.offset, frame.kind, frame.body.len());
        log.push(line).expect(rt, "memory for a line");
    }
}

// A request for TLS, a startup packet without parameters, a Query of "a" and a Terminate.
const STREAM: &[u8] = b"\0\0\0\x08\x04\xd2\x16\x2f\0\0\0\x09\0\x03\0\0\0Q\0\0\0\x06a\0X\0\0\0\x04";

const FRAMES: &[Line] = &[(0, 0, 4), (8, 0, 5), (17, b'Q', 2), (24, b'X', 0)];

/// The frames of a stream of which the first piece comes at once and the rest byte by byte.
fn frames_of(rt: &impl Abort, alloc: Global, piece: &[u8], rest: &[u8]) -> Vec<Line> {
    let mut framer = Framer::new(alloc, Side::Client, 1000);
    let mut log = Vec::new(alloc);
    feed(rt, &mut framer, piece);
    take_frames(rt, &mut framer, &mut log);
    for byte in rest {
        feed(rt, &mut framer, &[*byte]);
        take_frames(rt, &mut framer, &mut log);
    }
    log
}

#[test]
fn frames_where_they_lie(rt: HostRuntime) {
    let mut framer = Framer::new(rt.alloc(), Side::Client, 1000);
    feed(&rt, &mut framer, STREAM);
    let mut relayed = Vec::new(rt.alloc());
    for (offset, kind, len) in FRAMES {
        let view = framer
            .front()
            .expect(&rt, "no fault")
            .expect(&rt, "a whole frame");
        assert_eq!(rt;
            (view.offset, view.kind, view.body.len()),
            (*offset, *kind, *len)
        );
        relayed.extend_from_slice(view.bytes).expect(&rt, "memory");
        assert!(rt; framer.pass());
    }
    assert_eq!(rt; relayed.as_slice(), STREAM);
    assert!(rt; matches!(framer.front(), Ok(None)));
    assert!(rt; !framer.pass());
    assert!(rt; framer.is_empty());
}

#[test]
fn cuts(rt: HostRuntime) {
    for cut in 0..=STREAM.len() {
        let (piece, rest) = STREAM.split_at(cut);
        let log = frames_of(&rt, rt.alloc(), piece, rest);
        assert_eq!(rt; log.as_slice(), FRAMES, "cut at {cut}");
    }
}

// A frame, and behind it what no frame begins.
const FAULTS: &[(&[u8], FrameFault)] = &[
    (b"Z\0\0\0\x05IZ\0\0\0\x03", FrameFault::BadLength(3)),
    (b"Z\0\0\0\x05IZ\0\0\0\x0b", FrameFault::TooLong(11)),
    (b"Z\0\0\0\x05Iz", FrameFault::UnknownType(b'z')),
];

fn one_fault(rt: &impl Abort, alloc: Global, bytes: &[u8], want: FrameFault) {
    let mut framer = Framer::new(alloc, Side::Backend, 10);
    feed(rt, &mut framer, bytes);
    drop(next_frame(rt, &mut framer));
    let found = framer.next();
    assert!(rt; matches!(found, Err(NextFault::Frame { offset: 6, fault }) if fault == want));
}

#[test]
fn faults(rt: HostRuntime) {
    for (bytes, want) in FAULTS {
        one_fault(&rt, rt.alloc(), bytes, *want);
    }
}

/// A byte that is drawn.
fn drawn_byte(rt: &impl Abort, random: &mut SureRandom) -> u8 {
    let mut byte = [0u8];
    random.draw(&mut byte).expect(rt, "a byte");
    byte[0]
}

/// Puts a query of so many bytes at the end.
fn push_query(rt: &impl Abort, stream: &mut Vec<u8>, size: u8) {
    let length = (u32::from(size) + 5).to_be_bytes();
    stream.push(b'Q').expect(rt, "memory");
    stream.extend_from_slice(&length).expect(rt, "memory");
    for _ in 0..size {
        stream.push(size | 1).expect(rt, "memory");
    }
    stream.push(0).expect(rt, "memory");
}

/// A startup packet and 1,000 queries of up to 255 bytes.
fn long_stream(rt: &impl Abort, alloc: Global, random: &mut SureRandom) -> Vec<u8> {
    let mut stream = Vec::new(alloc);
    stream
        .extend_from_slice(b"\0\0\0\x09\0\x03\0\0\0")
        .expect(rt, "memory");
    for _ in 0..1000 {
        let size = drawn_byte(rt, random);
        push_query(rt, &mut stream, size);
    }
    stream
}

/// Takes the frames of one framer, each of which is the next of the other, and counts them.
fn same_frames(rt: &impl Abort, one: &mut Framer, other: &mut Framer) -> usize {
    let mut count: usize = 0;
    for _ in 0..2000 {
        let Some(frame) = one.next().expect(rt, "no fault") else {
            return count;
        };
        let same = next_frame(rt, other);
        assert_eq!(rt; (frame.offset, frame.kind), (same.offset, same.kind));
        assert!(rt; frame.body == same.body);
        count = count.wrapping_add(1);
    }
    count
}

#[test]
fn random_pieces(rt: HostRuntime) {
    let mut random = SureRandom::new(7);
    let stream = long_stream(&rt, rt.alloc(), &mut random);
    let mut whole = Framer::new(rt.alloc(), Side::Client, 1000);
    let mut pieces = Framer::new(rt.alloc(), Side::Client, 1000);
    feed(&rt, &mut whole, &stream);
    let mut rest = stream.as_slice();
    let mut count: usize = 0;
    for _ in 0..1_000_000 {
        let size = rest.len().min(usize::from(drawn_byte(&rt, &mut random)));
        let (piece, after) = rest.split_at(size);
        feed(&rt, &mut pieces, piece);
        count = count.wrapping_add(same_frames(&rt, &mut pieces, &mut whole));
        rest = after;
        if rest.is_empty() {
            break;
        }
    }
    assert_eq!(rt; count, 1001);
    assert!(rt; whole.is_empty() && pieces.is_empty());
}
