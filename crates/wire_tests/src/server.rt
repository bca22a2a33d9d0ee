use crate::helpers::{Bad, are_cells, frame_with, repeated, says, server_again, server_frame};
use pg_wire::{Back, ErrorField, Field, ReadBody, read_back};
use std::alloc::Global;
use std::process::Abort;
use std::test::*;

/// Whether the fields are the code 42601 and the message `no`.
fn are_errors(fields: &[ErrorField]) -> bool {
    match fields {
        [code, message] => {
            (code.code, message.code) == (b'C', b'M')
                && says(&code.text, b"42601")
                && says(&message.text, b"no")
        }
        _ => false,
    }
}

/// Whether the columns are an `id` of table 256 and an expression `b` of the type varchar(256) in binary.
fn are_columns(columns: &[Field]) -> bool {
    match columns {
        [id, b] => {
            says(&id.name, b"id")
                && (id.table, id.attribute, id.kind) == (256, 2, 23)
                && (id.size, id.modifier, id.format) == (4, -1, 0)
                && says(&b.name, b"b")
                && (b.table, b.attribute, b.kind) == (0, 0, 1043)
                && (b.size, b.modifier, b.format) == (-1, 260, 1)
        }
        _ => false,
    }
}

// The two columns, of 21 and of 20 bytes.
const ROW: &[u8] = b"T\0\0\0\x2f\0\x02id\0\0\0\x01\0\0\x02\0\0\0\x17\0\x04\xff\xff\xff\xff\0\0\
    b\0\0\0\0\0\0\0\0\0\x04\x13\xff\xff\0\0\x01\x04\0\x01";

/// Whether the message is the one that is expected of this type.
fn is_server_message(kind: u8, message: &Back) -> bool {
    match (kind, message) {
        (b'R', Back::Auth { code, rest }) => *code == 5 && says(rest, b"salt"),
        (b'S', Back::Status(pair)) => says(&pair.name, b"ab") && says(&pair.value, b"c"),
        (b'K', Back::KeyData { process, key }) => (*process, *key) == (258, 0xffff_fffe),
        (b'Z', Back::Ready(state)) => *state == b'T',
        (b'T', Back::Row(columns)) => are_columns(columns.as_slice()),
        (b'D', Back::Cells(cells)) => are_cells(cells.as_slice()),
        (b'C', Back::Complete(tag)) => says(tag, b"SELECT 1"),
        (b'E', Back::Error(fields)) => are_errors(fields.as_slice()),
        (b'I', Back::EmptyQuery) => true,
        (b'N', Back::Notice(fields)) => are_errors(fields.as_slice()),
        (b'1', Back::ParseDone) => true,
        (b'2', Back::BindDone) => true,
        (b'3', Back::CloseDone) => true,
        (b'n', Back::NoData) => true,
        (b't', Back::Params(types)) => types.as_slice() == [20, 25].as_slice(),
        (b's', Back::Suspended) => true,
        _ => false,
    }
}

// One message of each type.
const MESSAGES: &[&[u8]] = &[
    b"R\0\0\0\x0c\0\0\0\x05salt",
    b"S\0\0\0\x09ab\0c\0",
    b"K\0\0\0\x0c\0\0\x01\x02\xff\xff\xff\xfe",
    b"Z\0\0\0\x05T",
    ROW,
    b"D\0\0\0\x13\0\x03\xff\xff\xff\xff\0\0\0\x017\0\0\0\0",
    b"C\0\0\0\x0dSELECT 1\0",
    b"E\0\0\0\x10C42601\0Mno\0\0",
    b"I\0\0\0\x04",
    b"N\0\0\0\x10C42601\0Mno\0\0",
    b"1\0\0\0\x04",
    b"2\0\0\0\x04",
    b"3\0\0\0\x04",
    b"n\0\0\0\x04",
    b"t\0\0\0\x0e\0\x02\0\0\0\x14\0\0\0\x19",
    b"s\0\0\0\x04",
];

fn one_message(rt: &impl Abort, alloc: Global, bytes: &[u8]) {
    let frame = server_frame(rt, alloc, bytes);
    let kind = frame.kind;
    let message = server_again(rt, alloc, &frame, bytes);
    assert!(rt; is_server_message(kind, &message), "type {kind}");
}

#[test]
fn messages(rt: HostRuntime) {
    for bytes in MESSAGES {
        one_message(&rt, rt.alloc(), bytes);
    }
}

/// Whether the message is the one of this type whose texts and lists are empty.
fn is_empty_server_message(kind: u8, message: &Back) -> bool {
    match (kind, message) {
        (b'R', Back::Auth { code, rest }) => *code == 0 && rest.is_empty(),
        (b'S', Back::Status(pair)) => pair.name.is_empty() && pair.value.is_empty(),
        (b'T', Back::Row(columns)) => columns.is_empty(),
        (b'D', Back::Cells(cells)) => cells.is_empty(),
        (b'C', Back::Complete(tag)) => tag.is_empty(),
        (b'E', Back::Error(fields)) => fields.is_empty(),
        (b'N', Back::Notice(fields)) => fields.is_empty(),
        (b't', Back::Params(types)) => types.is_empty(),
        _ => false,
    }
}

// Of each type that can be empty.
const EMPTY: &[&[u8]] = &[
    b"R\0\0\0\x08\0\0\0\0",
    b"S\0\0\0\x06\0\0",
    b"T\0\0\0\x06\0\0",
    b"D\0\0\0\x06\0\0",
    b"C\0\0\0\x05\0",
    b"E\0\0\0\x05\0",
    b"N\0\0\0\x05\0",
    b"t\0\0\0\x06\0\0",
];

fn one_empty(rt: &impl Abort, alloc: Global, bytes: &[u8]) {
    let frame = server_frame(rt, alloc, bytes);
    let kind = frame.kind;
    let message = server_again(rt, alloc, &frame, bytes);
    assert!(rt; is_empty_server_message(kind, &message), "type {kind}");
}

#[test]
fn empty_messages(rt: HostRuntime) {
    for bytes in EMPTY {
        one_empty(&rt, rt.alloc(), bytes);
    }
}

const BAD: &[Bad] = &[
    // Half a code.
    (b'R', b"\0\0\0", 0),
    // A name that isn't ended, a value that isn't, no value, and a byte too many.
    (b'S', b"ab", 0),
    (b'S', b"ab\0c", 3),
    (b'S', b"ab\0", 3),
    (b'S', b"ab\0c\0\0", 5),
    // A key cut short, and a byte too many.
    (b'K', b"\0\0\0\x01\0\0\0", 4),
    (b'K', b"\0\0\0\x01\0\0\0\x02\0", 8),
    // A state that is none, no state, and a byte too many.
    (b'Z', b"J", 0),
    (b'Z', b"", 0),
    (b'Z', b"II", 1),
    // A format of 2, and a count of 1 with no column.
    (
        b'T',
        b"\0\x01id\0\0\0\x01\0\0\x02\0\0\0\x19\xff\xff\xff\xff\xff\xff\0\x02",
        21,
    ),
    (b'T', b"\0\x01", 2),
    // A value cut short, and a length of -2.
    (b'D', b"\0\x01\0\0\0\x05ab", 6),
    (b'D', b"\0\x01\xff\xff\xff\xfe", 2),
    // A tag that isn't ended, and a byte too many.
    (b'C', b"ab", 0),
    (b'C', b"ab\0c", 3),
    // A list that isn't ended, a text that isn't, and a byte too many.
    (b'E', b"Ma\0", 3),
    (b'E', b"Ma", 1),
    (b'E', b"\0\0", 1),
    (b'N', b"Ma\0", 3),
    (b'N', b"Ma", 1),
    (b'N', b"\0\0", 1),
    // Two types of which one stands, and half a count.
    (b't', b"\0\x02\0\0\0\x14", 6),
    (b't', b"\0", 0),
    // A byte where none is.
    (b'I', b"\0", 0),
    (b'1', b"\0", 0),
    (b'2', b"\0", 0),
    (b'3', b"\0", 0),
    (b'n', b"\0", 0),
    (b's', b"\0\0", 0),
];

fn one_place(rt: &impl Abort, alloc: Global, bad: &Bad) {
    let (kind, body, place) = *bad;
    let frame = frame_with(rt, alloc, kind, body);
    let found = read_back(alloc, &frame);
    assert!(rt;
        matches!(found, Err(ReadBody::BodyFault { offset }) if offset == place),
        "type {kind}, place {place}"
    );
}

#[test]
fn places(rt: HostRuntime) {
    for bad in BAD {
        one_place(&rt, rt.alloc(), bad);
    }
}

/// How many items the server's list has.
fn items_of_server(message: &Back) -> usize {
    match message {
        Back::Row(columns) => columns.len(),
        Back::Cells(cells) => cells.len(),
        Back::Params(types) => types.len(),
        Back::Error(fields) | Back::Notice(fields) => fields.len(),
        _ => 0,
    }
}

// A type and an item of its list.
const COUNTED: &[(u8, &[u8])] = &[
    (
        b'T',
        b"\0\0\0\0\x01\0\x02\0\0\0\x19\xff\xff\xff\xff\xff\xff\0\x01",
    ),
    (b'D', b"\xff\xff\xff\xff"),
    (b't', b"\0\0\0\x14"),
];

fn longest_counted(rt: &impl Abort, alloc: Global, kind: u8, item: &[u8]) {
    let body = repeated(rt, alloc, (b"\xff\xff", item, b""), 65_535);
    let frame = frame_with(rt, alloc, kind, &body);
    let message = server_again(rt, alloc, &frame, &body);
    assert_eq!(rt; items_of_server(&message), 65_535);
}

// A length of 1,000,000, the framer's limit: one text of a byte, and the others empty.
const LISTED: &[&[u8]] = &[b"E\0\x0f\x42\x40Mx\0", b"N\0\x0f\x42\x40Mx\0"];

fn longest_listed(rt: &impl Abort, alloc: Global, head: &[u8]) {
    let bytes = repeated(rt, alloc, (head, b"M\0", b"\0"), 499_996);
    let frame = server_frame(rt, alloc, &bytes);
    let message = server_again(rt, alloc, &frame, &bytes);
    assert_eq!(rt; items_of_server(&message), 499_997);
}

#[test]
fn longest_lists(rt: HostRuntime) {
    for (kind, item) in COUNTED {
        longest_counted(&rt, rt.alloc(), *kind, item);
    }
    for head in LISTED {
        longest_listed(&rt, rt.alloc(), head);
    }
}
