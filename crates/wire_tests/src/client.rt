use crate::helpers::{
    Bad, are_cells, client_again, client_frame, feed, frame_with, repeated, says,
};
use pg_wire::{FrameFault, Framer, Front, NextFault, Pair, ReadBody, Side, Target, read_front};
use std::alloc::Global;
use std::process::Abort;
use std::test::*;

// A Bind of three values.
const BIND: &[u8] =
    b"B\0\0\0\x23p\0s\0\0\x03\0\0\0\x01\0\0\0\x03\xff\xff\xff\xff\0\0\0\x017\0\0\0\0\0\x01\0\x01";

/// Whether the parameters are the user `bo` and an `a` with no value.
fn are_params(params: &[Pair]) -> bool {
    match params {
        [user, a] => {
            says(&user.name, b"user")
                && says(&user.value, b"bo")
                && says(&a.name, b"a")
                && a.value.is_empty()
        }
        _ => false,
    }
}

/// Whether the message is the Bind of the portal `p`.
fn is_bind(message: &Front) -> bool {
    match message {
        Front::Bind {
            portal,
            name,
            formats,
            values,
            results,
        } => {
            says(portal, b"p")
                && says(name, b"s")
                && formats.as_slice() == [0, 1, 0].as_slice()
                && are_cells(values.as_slice())
                && results.as_slice() == [1].as_slice()
        }
        _ => false,
    }
}

/// Whether the message is the one that is expected of this type.
fn is_client_message(kind: u8, message: &Front) -> bool {
    match (kind, message) {
        (0, Front::Startup { params }) => are_params(params.as_slice()),
        (b'Q', Front::Query(text)) => says(text, b"a"),
        (b'P', Front::Parse { name, text, types }) => {
            says(name, b"s") && says(text, b"SELECT $1") && types.as_slice() == [23, 0].as_slice()
        }
        (b'B', bind) => is_bind(bind),
        (b'D', Front::Describe { target, name }) => *target == Target::Prepared && says(name, b"s"),
        (b'E', Front::Execute { portal, limit }) => says(portal, b"p") && *limit == 0x0102_0304,
        (b'C', Front::Close { target, name }) => *target == Target::Prepared && says(name, b"s"),
        (b'S', Front::Sync) => true,
        (b'H', Front::Flush) => true,
        (b'p', Front::Password(password)) => says(password, b"pass\0"),
        (b'X', Front::Terminate) => true,
        _ => false,
    }
}

// One message of each type.
const MESSAGES: &[&[u8]] = &[
    b"\0\0\0\x14\0\x03\0\0user\0bo\0a\0\0\0",
    b"Q\0\0\0\x06a\0",
    b"P\0\0\0\x1as\0SELECT $1\0\0\x02\0\0\0\x17\0\0\0\0",
    BIND,
    b"D\0\0\0\x07Ss\0",
    b"E\0\0\0\x0ap\0\x01\x02\x03\x04",
    b"C\0\0\0\x07Ss\0",
    b"S\0\0\0\x04",
    b"H\0\0\0\x04",
    b"p\0\0\0\x09pass\0",
    b"X\0\0\0\x04",
];

fn one_message(rt: &impl Abort, alloc: Global, bytes: &[u8]) {
    let frame = client_frame(rt, alloc, bytes);
    let kind = frame.kind;
    let message = client_again(rt, alloc, &frame, bytes);
    assert!(rt; is_client_message(kind, &message), "type {kind}");
}

#[test]
fn messages(rt: HostRuntime) {
    for bytes in MESSAGES {
        one_message(&rt, rt.alloc(), bytes);
    }
}

/// Whether the message is the one that is expected of a startup packet with this code.
fn is_request(code: &[u8], message: &Front) -> bool {
    match message {
        Front::SslRequest => code == b"\x04\xd2\x16\x2f".as_slice(),
        Front::GssRequest => code == b"\x04\xd2\x16\x30".as_slice(),
        Front::Cancel { process, key } => {
            code == b"\x04\xd2\x16\x2e".as_slice() && (*process, *key) == (258, 0xffff_fffe)
        }
        _ => false,
    }
}

const REQUESTS: &[&[u8]] = &[
    b"\0\0\0\x08\x04\xd2\x16\x2f",
    b"\0\0\0\x08\x04\xd2\x16\x30",
    b"\0\0\0\x10\x04\xd2\x16\x2e\0\0\x01\x02\xff\xff\xff\xfe",
];

fn one_request(rt: &impl Abort, alloc: Global, bytes: &[u8]) {
    let frame = client_frame(rt, alloc, bytes);
    let message = client_again(rt, alloc, &frame, bytes);
    let code = bytes.get(4..8).expect(rt, "a code");
    assert!(rt; is_request(code, &message));
}

#[test]
fn requests(rt: HostRuntime) {
    for bytes in REQUESTS {
        one_request(&rt, rt.alloc(), bytes);
    }
}

/// Whether the message is the one of this type whose texts and lists are empty.
fn is_empty_client_message(kind: u8, message: &Front) -> bool {
    match (kind, message) {
        (0, Front::Startup { params }) => params.is_empty(),
        (b'Q', Front::Query(text)) => text.is_empty(),
        (b'P', Front::Parse { name, text, types }) => {
            name.is_empty() && text.is_empty() && types.is_empty()
        }
        (
            b'B',
            Front::Bind {
                portal,
                name,
                formats,
                values,
                results,
            },
        ) => {
            portal.is_empty()
                && name.is_empty()
                && formats.is_empty()
                && values.is_empty()
                && results.is_empty()
        }
        (b'D', Front::Describe { target, name }) => *target == Target::Portal && name.is_empty(),
        (b'E', Front::Execute { portal, limit }) => portal.is_empty() && *limit == 0,
        (b'C', Front::Close { target, name }) => *target == Target::Portal && name.is_empty(),
        (b'p', Front::Password(password)) => password.is_empty(),
        _ => false,
    }
}

// Of each type that can be empty.
const EMPTY: &[&[u8]] = &[
    b"\0\0\0\x09\0\x03\0\0\0",
    b"Q\0\0\0\x05\0",
    b"P\0\0\0\x08\0\0\0\0",
    b"B\0\0\0\x0c\0\0\0\0\0\0\0\0",
    b"D\0\0\0\x06P\0",
    b"E\0\0\0\x09\0\0\0\0\0",
    b"C\0\0\0\x06P\0",
    b"p\0\0\0\x04",
];

fn one_empty(rt: &impl Abort, alloc: Global, bytes: &[u8]) {
    let frame = client_frame(rt, alloc, bytes);
    let kind = frame.kind;
    let message = client_again(rt, alloc, &frame, bytes);
    assert!(rt; is_empty_client_message(kind, &message), "type {kind}");
}

#[test]
fn empty_messages(rt: HostRuntime) {
    for bytes in EMPTY {
        one_empty(&rt, rt.alloc(), bytes);
    }
}

// An answer to a request for a password is any bytes, so none is bad.
const BAD: &[Bad] = &[
    // Another code, a name without a value, no terminator, an empty name with a value.
    (0, b"\0\x02\0\0\0", 0),
    (0, b"\0\x03\0\0user\0", 9),
    (0, b"\0\x03\0\0user\0bo\0", 12),
    (0, b"\0\x03\0\0\0bo\0\0", 5),
    // A byte too many behind a request, a cancel's key cut short, and a byte too many.
    (0, b"\x04\xd2\x16\x2f\0", 4),
    (0, b"\x04\xd2\x16\x30\0", 4),
    (0, b"\x04\xd2\x16\x2e\0\0\0\x01\0\0\0", 8),
    (0, b"\x04\xd2\x16\x2e\0\0\0\x01\0\0\0\0\0", 12),
    // A text without its zero byte, and a byte behind it.
    (b'Q', b"ab", 0),
    (b'Q', b"ab\0c", 3),
    // A Parse with a count of 2 and one and a half types, and one with half a count.
    (b'P', b"s\0t\0\0\x02\0\0\0\x17\0\0", 10),
    (b'P', b"s\0t\0\0", 4),
    // A Bind with a format of 2, a length of -2, a value's bytes cut short, a count of 32768, a format
    // of results of 256, and a byte too many.
    (b'B', b"\0\0\0\x01\0\x02\0\0\0\0", 4),
    (b'B', b"\0\0\0\0\0\x01\xff\xff\xff\xfe\0\0", 6),
    (b'B', b"\0\0\0\0\0\x01\0\0\0\x05abcd", 10),
    (b'B', b"\0\0\0\0\x80\0\0\0\0\0\0\0", 10),
    (b'B', b"\0\0\0\0\0\0\0\x01\x01\0", 8),
    (b'B', b"\0\0\0\0\0\0\0\0\0", 8),
    // A target that is none, no target at all, and a limit cut short.
    (b'D', b"s\0", 0),
    (b'C', b"", 0),
    (b'E', b"p\0\0\0\0", 2),
    // A byte where none is.
    (b'S', b"\0", 0),
    (b'H', b"\0", 0),
    (b'X', b"\0", 0),
];

fn one_place(rt: &impl Abort, alloc: Global, bad: &Bad) {
    let (kind, body, place) = *bad;
    let frame = frame_with(rt, alloc, kind, body);
    let found = read_front(alloc, &frame);
    assert!(rt;
        matches!(found, Err(ReadBody::BodyFault { offset }) if offset == place),
        "type {kind}, place {place}"
    );
}

#[test]
fn places(rt: HostRuntime) {
    for bad in BAD {
        one_place(&rt, rt.alloc(), bad);
    }
}

/// How many items the client's longest list has.
fn items_of_client(message: &Front) -> usize {
    match message {
        Front::Startup { params } => params.len(),
        Front::Parse { types, .. } => types.len(),
        Front::Bind {
            formats,
            values,
            results,
            ..
        } => formats.len().max(values.len()).max(results.len()),
        _ => 0,
    }
}

/// A type, and what stands before the items of a list of its body, an item, and what stands behind them.
type Counted = (u8, &'static [u8], &'static [u8], &'static [u8]);

const COUNTED: &[Counted] = &[
    (b'P', b"\0\0\xff\xff", b"\0\0\0\x14", b""),
    (b'B', b"\0\0\xff\xff", b"\0\x01", b"\0\0\0\0"),
    (b'B', b"\0\0\0\0\xff\xff", b"\xff\xff\xff\xff", b"\0\0"),
    (b'B', b"\0\0\0\0\0\0\xff\xff", b"\0\x01", b""),
];

fn longest_counted(rt: &impl Abort, alloc: Global, counted: &Counted) {
    let (kind, head, item, end) = *counted;
    let body = repeated(rt, alloc, (head, item, end), 65_535);
    let frame = frame_with(rt, alloc, kind, &body);
    let message = client_again(rt, alloc, &frame, &body);
    assert_eq!(rt; items_of_client(&message), 65_535);
}

#[test]
fn longest_lists(rt: HostRuntime) {
    for counted in COUNTED {
        longest_counted(&rt, rt.alloc(), counted);
    }
}

// Of 10,000 bytes: one name of two bytes, the others of one, and no value.
#[test]
fn longest_packet(rt: HostRuntime) {
    let head = b"\0\0\x27\x10\0\x03\0\0aa\0\0";
    let packet = repeated(&rt, rt.alloc(), (head, b"a\0\0", b"\0"), 3_329);
    let frame = client_frame(&rt, rt.alloc(), &packet);
    let message = client_again(&rt, rt.alloc(), &frame, &packet);
    assert_eq!(rt; items_of_client(&message), 3_330);
}

#[test]
fn longer_packet(rt: HostRuntime) {
    let mut framer = Framer::new(rt.alloc(), Side::Client, 1_000_000);
    feed(&rt, &mut framer, b"\0\0\x27\x11");
    let fault = FrameFault::TooLong(10_001);
    assert_eq!(rt;
        framer.next().err(),
        Some(NextFault::Frame { offset: 0, fault })
    );
}
