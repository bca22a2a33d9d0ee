use crate::testing::*;
use acra_devices::SureLink;
use lab_core::Status;
use pg_wire::{FrameFault, MessageFault};
use std::alloc::Global;
use std::process::Abort;
use std::test::Fail;

fn bad(offset: u64, kind: MessageFault) -> Status {
    Status::BadClient { offset, kind }
}

fn framed(offset: u64, fault: FrameFault) -> Status {
    bad(offset, MessageFault::Frame(fault))
}

fn cut(offset: u64) -> Status {
    Status::ClientCut { offset }
}

/// Feeds a stream whole and byte by byte.
fn try_one(
    rt: &impl Abort,
    alloc: Global,
    parts: &[&[u8]],
    end: Status,
    replies: &[&[u8]],
) -> Result<(), Fail> {
    let input = joined(alloc, parts)?;
    let want = joined(alloc, replies)?;
    let (status, sent) = session(alloc, &mut Pieces::new(&input, 1, None))?;
    assert_eq!(rt; status, end, "at {input:?} byte by byte");
    assert_eq!(rt;
        sent.as_slice(),
        want.as_slice(),
        "at {input:?} byte by byte"
    );
    let (status, sent) = session(alloc, &mut SureLink::new(alloc, input.clone()?))?;
    assert_eq!(rt; status, end, "at {input:?}");
    assert_eq!(rt; sent.as_slice(), want.as_slice(), "at {input:?}");
    Ok(())
}

/// Streams that are answered nothing.
#[test]
fn before_the_startup_message(rt: HostRuntime) -> Result<(), Fail> {
    let short = FrameFault::BadLength;
    let long = FrameFault::TooLong;
    let body = bad(0, MessageFault::Body);
    let cases: [(&[u8], Status); 20] = [
        (b"", Status::Done),
        (b"\x00\x00", cut(2)),
        (b"\x00\x00\x00", cut(3)),
        (b"\x00\x00\x00\x00", framed(0, short(0))),
        (b"\x00\x00\x00\x07", framed(0, short(7))),
        (b"\x00\x00\x00\x08", cut(4)),
        (b"\x00\x00\x27\x10", cut(4)),
        (b"\x00\x00\x27\x11", framed(0, long(10_001))),
        (b"\xff\xff\xff\xff", framed(0, long(4_294_967_295))),
        // The length that a Query begins with is too large.
        (SELECT, framed(0, long(0x51_00_00_00))),
        (b"\x00\x00\x00\x12\x00\x03\x00\x00user\x00app\x00", cut(17)),
        // A name without a value; the closing zero left out; a byte too many.
        (b"\x00\x00\x00\x0d\x00\x03\x00\x00user\x00", body),
        (b"\x00\x00\x00\x11\x00\x03\x00\x00user\x00app\x00", body),
        (b"\x00\x00\x00\x0a\x00\x03\x00\x00\x00\x00", body),
        // Protocols 2.0 and 3.1.
        (b"\x00\x00\x00\x09\x00\x02\x00\x00\x00", body),
        (b"\x00\x00\x00\x09\x00\x03\x00\x01\x00", body),
        // A request for encryption with a byte too many, and one that is too short.
        (b"\x00\x00\x00\x09\x04\xd2\x16\x2f\x00", body),
        (b"\x00\x00\x00\x07\x04\xd2\x16", framed(0, short(7))),
        // CancelRequest, and one that is too short.
        (CANCEL, bad(0, MessageFault::Place)),
        (b"\x00\x00\x00\x0c\x04\xd2\x16\x2e\x00\x00\x00\x01", body),
    ];
    'cases: for (bytes, end) in cases {
        try_one(&rt, rt.alloc(), &[bytes], end, &[])?;
    }
    Ok(())
}

/// Streams that end behind the startup message.
#[test]
fn after_the_startup_message(rt: HostRuntime) -> Result<(), Fail> {
    let short = FrameFault::BadLength;
    let unknown = FrameFault::UnknownType;
    let body = bad(18, MessageFault::Body);
    let place = bad(18, MessageFault::Place);
    let cases: [(&[u8], Status); 26] = [
        (b"", Status::Done),
        (TERMINATE, Status::Done),
        (b"X\x00\x00\x00\x04z", Status::Done),
        (b"z", framed(18, unknown(122))),
        // The first byte of a startup message, and a type of a server.
        (STARTUP, framed(18, unknown(0))),
        (b"R", framed(18, unknown(82))),
        (b"Q", cut(19)),
        (b"Q\x00\x00\x00", cut(22)),
        (b"Q\x00\x00\x00\x00", framed(18, short(0))),
        (b"Q\x00\x00\x00\x03", framed(18, short(3))),
        (b"Q\x01\x00\x00\x00", cut(23)),
        (
            b"Q\x01\x00\x00\x01",
            framed(18, FrameFault::TooLong(16_777_217)),
        ),
        // No zero byte, no byte at all, a byte too many.
        (b"Q\x00\x00\x00\x06aa", body),
        (b"Q\x00\x00\x00\x04", body),
        (b"Q\x00\x00\x00\x06\x00\x00", body),
        (b"X\x00\x00\x00\x05\x00", body),
        // Each other message of a client, and two that are misspelled.
        (b"P\x00\x00\x00\x08\x00\x00\x00\x00", place),
        (b"P\x00\x00\x00\x07\x00\x00\x00", body),
        (b"B\x00\x00\x00\x0c\x00\x00\x00\x00\x00\x00\x00\x00", place),
        (b"D\x00\x00\x00\x06S\x00", place),
        (b"D\x00\x00\x00\x06X\x00", body),
        (b"C\x00\x00\x00\x06P\x00", place),
        (b"E\x00\x00\x00\x09\x00\x00\x00\x00\x00", place),
        (b"S\x00\x00\x00\x04", place),
        (b"H\x00\x00\x00\x04", place),
        (b"p\x00\x00\x00\x04", place),
    ];
    'cases: for (bytes, end) in cases {
        try_one(&rt, rt.alloc(), &[STARTUP, bytes], end, &[&REPLIES[..90]])?;
    }
    Ok(())
}

#[test]
fn declined_encryption(rt: HostRuntime) -> Result<(), Fail> {
    let started = &REPLIES[..90];
    let empty: &[u8] = b"\x00\x00\x00\x09\x00\x03\x00\x00\x00";
    let short = framed(8, FrameFault::BadLength(7));
    let cases: [(&[&[u8]], Status, &[&[u8]]); 6] = [
        (&[TLS], Status::Done, &[b"N"]),
        (&[TLS, STARTUP, TERMINATE], Status::Done, &[b"N", started]),
        (&[GSS, TLS, empty], Status::Done, &[b"N", b"N", started]),
        (&[TLS, b"\x00\x00"], cut(10), &[b"N"]),
        (&[TLS, b"\x00\x00\x00\x07"], short, &[b"N"]),
        (&[GSS, CANCEL], bad(8, MessageFault::Place), &[b"N"]),
    ];
    'cases: for (parts, end, replies) in cases {
        try_one(&rt, rt.alloc(), parts, end, replies)?;
    }
    Ok(())
}

#[test]
fn refused_statements(rt: HostRuntime) -> Result<(), Fail> {
    let started = &REPLIES[..90];
    let inserted = &REPLIES[90..112];
    let selected = &REPLIES[112..];
    let insert = &REQUESTS[18..72];
    let unknown = framed(51, FrameFault::UnknownType(122));
    let cases: [(&[&[u8]], Status, &[&[u8]]); 4] = [
        (&[STARTUP, CREATE], Status::Done, &[started, REFUSED]),
        (
            &[STARTUP, CREATE, insert, CREATE, SELECT, TERMINATE],
            Status::Done,
            &[started, REFUSED, inserted, REFUSED, selected],
        ),
        // The offsets count from the first byte of the stream.
        (&[STARTUP, CREATE, b"z"], unknown, &[started, REFUSED]),
        (
            &[TLS, STARTUP, CREATE, b"Q\x00"],
            cut(61),
            &[b"N", started, REFUSED],
        ),
    ];
    'cases: for (parts, end, replies) in cases {
        try_one(&rt, rt.alloc(), parts, end, replies)?;
    }
    Ok(())
}

/// Texts without a statement, and what follows them.
#[test]
fn empty_queries(rt: HostRuntime) -> Result<(), Fail> {
    let started = &REPLIES[..90];
    let columns = &REPLIES[112..142];
    let none: &[u8] = b"C\x00\x00\x00\x0dSELECT 0\x00Z\x00\x00\x00\x05I";
    let empty: &[u8] = b"Q\x00\x00\x00\x05\x00";
    let semicolon: &[u8] = b"Q\x00\x00\x00\x06;\x00";
    let comment: &[u8] = b"Q\x00\x00\x00\x0b-- all\x00";
    let reply: &[u8] = b"I\x00\x00\x00\x04Z\x00\x00\x00\x05I";
    try_one(
        &rt,
        rt.alloc(),
        &[STARTUP, empty, semicolon, comment, SELECT],
        Status::Done,
        &[started, reply, reply, reply, columns, none],
    )
}

/// Other spellings of the statements that are served.
#[test]
fn other_spellings(rt: HostRuntime) -> Result<(), Fail> {
    let alloc = rt.alloc();
    let selects: [&[u8]; 5] = [
        b"SELECT body FROM notes;",
        b"select BODY from Notes -- all",
        b"SELECT \"body\" FROM \"notes\"",
        b"SELECT notes.body/* /* */ */FROM notes",
        b"\tSELECT\nbody\rFROM\x0cnotes ",
    ];
    let inserts: [&[u8]; 3] = [
        b"INSERT INTO notes VALUES (+1, 'it''s');",
        b"insert into \"notes\" (\"id\", BODY) values (001, 'it''s')",
        b"INSERT INTO notes VALUES (9223372036854775807, 'it''s')",
    ];
    'selects: for select in selects {
        let sent = one_query(alloc, select)?;
        assert!(rt; sent.starts_with(&REPLIES[112..142]), "at {select:?}");
    }
    'inserts: for insert in inserts {
        let sent = one_query(alloc, insert)?;
        assert_eq!(rt; sent.as_slice(), &REPLIES[90..112], "at {insert:?}");
    }
    Ok(())
}

/// Statements that the profile leaves out, and those of the profile that are not served.
#[test]
fn unserved_statements(rt: HostRuntime) -> Result<(), Fail> {
    let alloc = rt.alloc();
    let texts: [&[u8]; 17] = [
        b"CREATE TABLE t (a int)",
        b"BEGIN; SELEC",
        b"SET names = 'a'",
        b"SET application_name = 'a'",
        b"DELETE FROM notes",
        b"UPDATE notes SET body = 'a'",
        b"SELECT * FROM notes",
        b"SELECT body FROM mail",
        b"SELECT mail FROM notes",
        b"SELECT body AS text FROM notes",
        b"SELECT body FROM notes ORDER BY id",
        b"SELECT body FROM notes WHERE id = 1",
        b"SELECT body FROM notes LIMIT 1",
        b"INSERT INTO notes (body, id) VALUES (1, 'a')",
        b"INSERT INTO notes VALUES (-1, 'a')",
        b"INSERT INTO notes VALUES (9223372036854775808, 'a')",
        b"INSERT INTO notes VALUES (1, 'a'), (2, 'b')",
    ];
    'texts: for text in texts {
        let sent = one_query(alloc, text)?;
        assert_eq!(rt; sent.as_slice(), REFUSED, "at {text:?}");
    }
    Ok(())
}

/// Texts that spell no statement: at the first token, at bytes that are no text, inside, at the end.
#[test]
fn misspelled_texts(rt: HostRuntime) -> Result<(), Fail> {
    let alloc = rt.alloc();
    let cases: [(&[u8], &[u8]); 4] = [
        (b"SELEC 1", b"0"),
        (b"\xff\xfe", b"0"),
        (b"SELECT body FROM notes;;", b"23"),
        (b"SELECT body FROM notes WHERE (id = 1", b"36"),
    ];
    'cases: for (text, place) in cases {
        let message = joined(alloc, &[b"AcraServer: not in the profile at byte ", place])?;
        let want = refused(alloc, b"42601", &message)?;
        let sent = one_query(alloc, text)?;
        assert_eq!(rt; sent.as_slice(), want.as_slice(), "at {text:?}");
    }
    Ok(())
}

#[test]
fn nesting(rt: HostRuntime) -> Result<(), Fail> {
    let alloc = rt.alloc();
    let unserved = Vec::from_slice(alloc, REFUSED)?;
    let deep = refused(alloc, b"54000", b"AcraServer: nesting too deep")?;
    'counts: for count in [128, 129] {
        let mut text = Vec::from_slice(alloc, b"SELECT body FROM notes WHERE ")?;
        'open: for _ in 0..count {
            text.push(b'(')?;
        }
        text.extend_from_slice(b"id = 1")?;
        'close: for _ in 0..count {
            text.push(b')')?;
        }
        let want = if count == 128 { &unserved } else { &deep };
        assert_eq!(rt;
            one_query(alloc, &text)?.as_slice(),
            want.as_slice(),
            "at {count}"
        );
    }
    Ok(())
}
