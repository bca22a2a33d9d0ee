use acra_base::Bytes;
use pg_wire::{Back, Frame, Framer, Front, Side, read_back, read_front, write_back, write_front};
use std::alloc::Global;
use std::process::Abort;

/// A bad body: its type, its bytes, and the place of its fault.
pub type Bad = (u8, &'static [u8], usize);

/// A frame of this type and body.
pub fn frame_with(rt: &impl Abort, alloc: Global, kind: u8, body: &[u8]) -> Frame {
    let body = Bytes::copied(alloc, body).expect(rt, "memory for a body");
    Frame {
        offset: 0,
        kind,
        body,
    }
}

/// Feeds a framer.
pub fn feed(rt: &impl Abort, framer: &mut Framer, bytes: &[u8]) {
    framer.feed(bytes).expect(rt, "memory for the bytes");
}

/// The next frame, which has come whole.
pub fn next_frame(rt: &impl Abort, framer: &mut Framer) -> Frame {
    framer
        .next()
        .expect(rt, "no fault")
        .expect(rt, "a whole frame")
}

/// The one frame of a server's bytes.
pub fn server_frame(rt: &impl Abort, alloc: Global, bytes: &[u8]) -> Frame {
    let mut framer = Framer::new(alloc, Side::Backend, 1_000_000);
    feed(rt, &mut framer, bytes);
    next_frame(rt, &mut framer)
}

/// The one frame of a client's bytes. A message with a type byte stands behind a startup packet.
pub fn client_frame(rt: &impl Abort, alloc: Global, bytes: &[u8]) -> Frame {
    let mut framer = Framer::new(alloc, Side::Client, 1_000_000);
    if !bytes.starts_with(&[0]) {
        feed(rt, &mut framer, b"\0\0\0\x09\0\x03\0\0\0");
        drop(next_frame(rt, &mut framer));
    }
    feed(rt, &mut framer, bytes);
    next_frame(rt, &mut framer)
}

/// The server's message of this frame. What is written for it ends with these bytes.
pub fn server_again(rt: &impl Abort, alloc: Global, frame: &Frame, bytes: &[u8]) -> Back {
    assert!(rt; frame.body.len() < 2_000_000);
    let message = read_back(alloc, frame).expect(rt, "a message");
    let mut out = Vec::new(alloc);
    write_back(&message, &mut out).expect(rt, "memory for a message");
    assert!(rt; out.ends_with(bytes), "type {}", frame.kind);
    message
}

/// The client's message of this frame. What is written for it ends with these bytes.
pub fn client_again(rt: &impl Abort, alloc: Global, frame: &Frame, bytes: &[u8]) -> Front {
    assert!(rt; frame.body.len() < 2_000_000);
    let message = read_front(alloc, frame).expect(rt, "a message");
    let mut out = Vec::new(alloc);
    write_front(&message, &mut out).expect(rt, "memory for a message");
    assert!(rt; out.ends_with(bytes), "type {}", frame.kind);
    message
}

/// Whether the bytes are these.
pub fn says(bytes: &Bytes, want: &[u8]) -> bool {
    bytes.as_slice() == want
}

/// Whether the cells are NULL, the text `7` and the empty text.
pub fn are_cells(cells: &[Option<Bytes>]) -> bool {
    match cells {
        [None, Some(seven), Some(empty)] => says(seven, b"7") && empty.is_empty(),
        _ => false,
    }
}

/// A head, an item this many times, and what is behind.
pub fn repeated(
    rt: &impl Abort,
    alloc: Global,
    parts: (&[u8], &[u8], &[u8]),
    count: usize,
) -> Vec<u8> {
    let (head, item, end) = parts;
    let mut bytes = Vec::from_slice(alloc, head).expect(rt, "memory for a head");
    for _ in 0..count {
        bytes
            .extend_from_slice(item)
            .expect(rt, "memory for an item");
    }
    bytes.extend_from_slice(end).expect(rt, "memory for an end");
    bytes
}
