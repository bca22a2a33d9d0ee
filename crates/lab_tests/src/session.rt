use crate::testing::*;
use acra_devices::{MemLink, SureLink};
use lab_core::{Status, lab_top};
use pg_wire::{FrameFault, MessageFault};
use std::alloc::Global;
use std::test::Fail;

/// How much of the longer session's replies is sent before each of its writes: the byte N; the
/// messages of the startup; those of the INSERT; the refusal; those of the SELECT.
const WRITES: [usize; 13] = [0, 1, 10, 36, 72, 85, 91, 107, 113, 188, 218, 233, 247];

#[test]
fn worked_example(rt: HostRuntime) -> Result<(), Fail> {
    let alloc = rt.alloc();
    let mut input = SureLink::new(alloc, Vec::from_slice(alloc, REQUESTS)?);
    let (status, sent) = session(alloc, &mut input)?;
    assert_eq!(rt; status, Status::Done);
    assert_eq!(rt; sent.as_slice(), REPLIES);

    // Pieces of 20 bytes are cut inside the length of the second message.
    'sizes: for most in [1, 3, 20, 104, 105] {
        let (status, sent) = session(alloc, &mut Pieces::new(REQUESTS, most, None))?;
        assert_eq!(rt; status, Status::Done, "in pieces of {most}");
        assert_eq!(rt; sent.as_slice(), REPLIES, "in pieces of {most}");
    }
    Ok(())
}

/// A session that is declined encryption and refused a statement: what the client sends, whose messages
/// end at byte 8, 26, 80, 113, 141 and 146, and the replies, which end at byte 1, 91, 113, 188 and 253.
fn longer(alloc: Global) -> Result<(Vec<u8>, Vec<u8>), Fail> {
    let input = joined(alloc, &[TLS, &REQUESTS[..72], CREATE, &REQUESTS[72..]])?;
    let replies = joined(alloc, &[b"N", &REPLIES[..112], REFUSED, &REPLIES[112..]])?;
    Ok((input, replies))
}

#[test]
fn each_read_fails(rt: HostRuntime) -> Result<(), Fail> {
    let alloc = rt.alloc();
    let (requests, replies) = longer(alloc)?;
    'calls: for call in 0..146 {
        let mut input = Pieces::new(&requests, 1, Some(call));
        let (status, sent) = session(alloc, &mut input)?;
        let count = match call {
            0..8 => 0,
            8..26 => 1,
            26..80 => 91,
            80..113 => 113,
            113..141 => 188,
            _ => 253,
        };
        assert_eq!(rt; status, Status::ReadFault, "at read {call}");
        assert_eq!(rt; sent.len(), count, "at read {call}");
        assert!(rt; replies.starts_with(&sent), "at read {call}");
    }

    let input = Vec::from_slice(alloc, REQUESTS)?;
    let mut link = MemLink::new(alloc, input, vec![in alloc; 0]?);
    let (status, sent) = session(alloc, &mut link)?;
    assert_eq!(rt; status, Status::ReadFault);
    assert!(rt; sent.is_empty());
    Ok(())
}

#[test]
fn each_write_fails(rt: HostRuntime) -> Result<(), Fail> {
    let alloc = rt.alloc();
    let words = spoken(alloc, &["session", "app", "1"])?;
    let (requests, replies) = longer(alloc)?;
    'calls: for call in 0..WRITES.len() {
        let mut input = Pieces::new(&requests, 146, None);
        let mut output = MemLink::new(alloc, Vec::new(alloc), vec![in alloc; call as u64]?);
        let status = lab_top(alloc, &words, &mut input, &mut output);
        assert_eq!(rt; status, Status::WriteFault, "at write {call}");
        assert_eq!(rt; output.taken().len(), WRITES[call], "at write {call}");
        assert!(rt; replies.starts_with(output.taken()), "at write {call}");
    }

    // No write follows the thirteenth.
    let mut input = Pieces::new(&requests, 146, None);
    let mut output = MemLink::new(alloc, Vec::new(alloc), vec![in alloc; 13]?);
    assert_eq!(rt;
        lab_top(alloc, &words, &mut input, &mut output),
        Status::Done
    );
    assert_eq!(rt; output.taken(), replies.as_slice());
    Ok(())
}

/// A startup message and a Query of this front, so many bytes, and this end.
fn long_query(
    alloc: Global,
    front: &[u8],
    byte: u8,
    count: u32,
    end: &[u8],
) -> Result<Vec<u8>, Fail> {
    let mut text = Vec::from_slice(alloc, front)?;
    'bytes: for _ in 0..count {
        text.push(byte)?;
    }
    text.extend_from_slice(end)?;
    let mut input = Vec::from_slice(alloc, STARTUP)?;
    input.push(b'Q')?;
    let length = u32::try_from(text.len())?.wrapping_add(5);
    input.extend_from_slice(&length.to_be_bytes())?;
    input.extend_from_slice(&text)?;
    input.push(0)?;
    Ok(input)
}

#[test]
fn limits(rt: HostRuntime) -> Result<(), Fail> {
    let alloc = rt.alloc();
    let select: &[u8] = b"SELECT body FROM notes";
    let insert: &[u8] = b"INSERT INTO notes VALUES (1, '";
    let long = refused(alloc, b"54000", b"AcraServer: query text too long")?;
    let inserted = &REPLIES[90..112];
    let none: &[u8] = b"SELECT 0\x00Z\x00\x00\x00\x05I";
    let too_long = Status::BadClient {
        offset: 18,
        kind: MessageFault::Frame(FrameFault::TooLong((1 << 24) + 1)),
    };
    // A text of 2^20 bytes, of which 22 are the SELECT, and a string of 2^18, and one more of each. A
    // message of length 2^24, of which 5 bytes are the length and the zero byte, and one more.
    let cases: [(&[u8], u8, u32, &[u8], Status, &[u8]); 6] = [
        (select, b' ', (1 << 20) - 22, b"", Status::Done, none),
        (select, b' ', (1 << 20) - 21, b"", Status::Done, &long),
        (insert, b'a', 1 << 18, b"')", Status::Done, inserted),
        (insert, b'a', (1 << 18) + 1, b"')", Status::Done, REFUSED),
        (b"", b'a', (1 << 24) - 5, b"", Status::Done, &long),
        (b"", b'a', (1 << 24) - 4, b"", too_long, &REPLIES[..90]),
    ];
    'cases: for (front, byte, count, end, ends, reply) in cases {
        let input = long_query(alloc, front, byte, count, end)?;
        let (status, sent) = session(alloc, &mut SureLink::new(alloc, input))?;
        assert_eq!(rt; status, ends, "at {count} bytes");
        assert!(rt; sent.ends_with(reply), "at {count} bytes");
        assert_eq!(rt; sent.len() > 90, ends == Status::Done, "at {count} bytes");
    }
    Ok(())
}

#[test]
fn words(rt: HostRuntime) -> Result<(), Fail> {
    let alloc = rt.alloc();
    let cases: [(&[&str], Status); 14] = [
        (&[], Status::Usage),
        (&["session"], Status::Usage),
        (&["session", "app"], Status::Usage),
        (&["session", "app", "1", "1"], Status::Usage),
        (&["Session", "app", "1"], Status::Usage),
        (&["session", "App", "1"], Status::Usage),
        (&["session", "", "1"], Status::Usage),
        (&["session", "app", ""], Status::Usage),
        (&["session", "app", "-1"], Status::Usage),
        (&["session", "app", "000000000000000000001"], Status::Usage),
        (&["session", "app", "18446744073709551616"], Status::Usage),
        (&["session", "app", "18446744073709551615"], Status::Done),
        (&["session", "app", "00000000000000000001"], Status::Done),
        (&["session", "client_07", "0"], Status::Done),
    ];
    'cases: for (words, end) in cases {
        let spoken = spoken(alloc, words)?;
        let mut input = Pieces::new(REQUESTS, 105, None);
        let mut output = SureLink::new(alloc, Vec::new(alloc));
        let status = lab_top(alloc, &spoken, &mut input, &mut output);
        assert_eq!(rt; status, end, "at {words:?}");
        let sent: &[u8] = if end == Status::Done { REPLIES } else { b"" };
        assert_eq!(rt; output.taken(), sent, "at {words:?}");
    }
    Ok(())
}
