use crate::helping::{Pieces, joined, link};
use crate::logs::{KEY, LINES, LOG};
use acra_base::ClientId;
use acra_devices::{Keeper, MemKeeper, SureKeeper, SureLink};
use audit_chain::{
    AppendRefusal, AuditVerdict, Chain, Detail, Note, NoteKind, ResumeFault, VerifyFault, verify,
};
use std::alloc::Global;
use std::test::Fail;

/// The last of 10,000 lines that each tell of a refusal with the code 0A000, and the line behind it,
/// as Python's hmac makes them.
const LAST_LINE: &[u8] = b"10000 refuse app 0A000 \
    f5f284caa0014d5015891599a130d1859758a72d1722a036f25012ec8626023b\n";

const NEXT_LINE: &[u8] = b"10001 settle - 7 \
    e949fa78c357a4d72330b4240b24fa99f503097e62704f345c2dc4b4b0305c00\n";

fn note(kind: NoteKind, client: &str, detail: &str) -> Result<Note, Fail> {
    Ok(Note {
        kind,
        client: ClientId::read(client.as_bytes()).ok(),
        detail: Detail::read(detail.as_bytes()).ok_or("no detail")?,
    })
}

/// What the four lines tell.
fn notes() -> Result<[Note; 4], Fail> {
    Ok([
        note(NoteKind::Start, "app", "-")?,
        note(NoteKind::Deny, "app", "2.1")?,
        note(NoteKind::Rotate, "web_2", "18446744073709551615")?,
        note(NoteKind::Close, "", "-")?,
    ])
}

fn verdict(alloc: Global, log: &[u8]) -> Result<AuditVerdict, VerifyFault> {
    verify(alloc, &mut Pieces::new(log, 100, None), &KEY)
}

fn valid(lines: u64, closed: bool) -> Result<AuditVerdict, VerifyFault> {
    Ok(AuditVerdict::Valid { lines, closed })
}

fn broken(line: u64) -> Result<AuditVerdict, VerifyFault> {
    Ok(AuditVerdict::Broken { line })
}

fn long(line: u64) -> Result<AuditVerdict, VerifyFault> {
    Err(VerifyFault::LineTooLong { line })
}

#[test]
fn verdicts(rt: HostRuntime) -> Result<(), Fail> {
    let alloc = rt.alloc();
    let [one, two, three, four] = LINES;
    let altered: &[u8] = b"3 rotate web_2 18446744073709551614 \
        5d2dfcf051b4be6b88e740c879647ff4158715f9061e5fa141ab1e26c14900b2\n";
    let cases: [(&[&[u8]], Result<AuditVerdict, VerifyFault>); 15] = [
        (&[one, two, three, four], valid(4, true)),
        (&[one, two, altered, four], broken(3)),
        (&[one, two, three], valid(3, false)),
        (&[one, three, two, four], broken(2)),
        (&[one, two, three, &four[..four.len() - 1]], broken(4)),
        (&[], valid(0, false)),
        (&[&[b'a'; 513], b"\n"], long(1)),
        (&[&[b'a'; 512], b"\n"], broken(1)),
        (&[&[b'a'; 512]], broken(1)),
        (&[&[b'a'; 513]], long(1)),
        (&[one, two, three, four, four], broken(5)),
        (&[one, two, three, four, &[b'a'; 513]], long(5)),
        (&[one, b"\n"], broken(2)),
        (&[two], broken(1)),
        (&[b"0", one], broken(1)),
    ];
    'cases: for (parts, want) in cases {
        let log = joined(alloc, parts)?;
        assert_eq!(rt; verdict(alloc, &log), want, "at {parts:?}");
    }
    Ok(())
}

#[test]
fn pieces_of_each_size(rt: HostRuntime) -> Result<(), Fail> {
    let alloc = rt.alloc();
    let log = joined(alloc, &LINES)?;
    'sizes: for most in 1..log.len() + 1 {
        let found = verify(alloc, &mut Pieces::new(&log, most, None), &KEY);
        assert_eq!(rt; found, valid(4, true), "in pieces of {most}");
    }
    Ok(())
}

#[test]
fn appended_lines(rt: HostRuntime) -> Result<(), Fail> {
    let alloc = rt.alloc();
    let mut chain = Chain::new(KEY);
    let mut keeper = SureKeeper::new(alloc);
    let mut next = 1u64;
    'notes: for note in notes()? {
        assert_eq!(rt; chain.append(alloc, &mut keeper, &note), Ok(next));
        next = next.saturating_add(1);
    }
    assert!(rt; keeper.whole());
    assert_eq!(rt; keeper.kept().len(), 4);
    'lines: for place in 0..4 {
        assert_eq!(rt; keeper.kept()[place].as_slice(), LINES[place]);
    }
    let late = note(NoteKind::Settle, "", "7")?;
    let refused = chain.append(alloc, &mut keeper, &late);
    assert_eq!(rt; refused, Err(AppendRefusal::Closed));
    assert_eq!(rt; keeper.kept().len(), 4);
    Ok(())
}

/// Each byte is changed to every other value. The line that breaks is the one that the byte stands in, and a
/// newline stands in the line that it ends.
#[test]
fn each_changed_byte_breaks_its_line(rt: HostRuntime) -> Result<(), Fail> {
    let alloc = rt.alloc();
    let mut log = joined(alloc, &LINES)?;
    let mut line = 1u64;
    'bytes: for place in 0..log.len() {
        let byte = log[place];
        'values: for value in 0..256u16 {
            if value == byte as u16 {
                continue;
            }
            log[place] = value as u8;
            assert_eq!(rt; verdict(alloc, &log), broken(line), "at {place}, {value}");
        }
        log[place] = byte;
        if byte == b'\n' {
            line = line.saturating_add(1);
        }
    }
    assert_eq!(rt; line, 5);
    assert_eq!(rt; verdict(alloc, &log), valid(4, true));
    Ok(())
}

fn tell(
    alloc: Global,
    chain: &mut Chain,
    keeper: &mut SureKeeper,
    kind: NoteKind,
    client: &str,
    detail: &str,
) -> Result<Option<u64>, Fail> {
    let client: Option<ClientId> = ClientId::read(client.as_bytes()).ok();
    let detail: Detail = Detail::read(detail.as_bytes()).ok_or("no detail")?;
    let note = Note {
        kind,
        client,
        detail,
    };
    Ok(chain.append(alloc, keeper, &note).ok())
}

/// The log of 10,000 lines. It is empty where one was not appended under its number.
fn long_log(alloc: Global) -> Result<Vec<u8>, Fail> {
    let mut chain = Chain::new(KEY);
    let mut keeper = SureKeeper::new(alloc);
    'lines: for number in 1..10_001u64 {
        let told = tell(
            alloc,
            &mut chain,
            &mut keeper,
            NoteKind::Refuse,
            "app",
            "0A000",
        )?;
        if told != Some(number) {
            return Ok(Vec::new(alloc));
        }
    }
    let mut log = Vec::new(alloc);
    'pieces: for piece in keeper.kept() {
        log.extend_from_slice(piece.as_slice())?;
    }
    Ok(log)
}

#[test]
fn ten_thousand_lines(rt: HostRuntime) -> Result<(), Fail> {
    let log = long_log(rt.alloc())?;
    assert_eq!(rt; log.len(), 868_894);
    assert!(rt; log.ends_with(LAST_LINE));
    let found = verify(rt.alloc(), &mut Pieces::new(&log, 4096, None), &KEY);
    assert_eq!(rt; found, valid(10_000, false));
    Ok(())
}

/// A chain that is resumed goes on with the line that would have come.
#[test]
fn the_line_after_ten_thousand(rt: HostRuntime) -> Result<(), Fail> {
    let alloc = rt.alloc();
    let mut source = SureLink::new(alloc, long_log(alloc)?);
    let Ok(mut resumed) = Chain::resume(alloc, &mut source, &KEY) else {
        panic!(rt; "not resumed");
    };
    let mut next = SureKeeper::new(alloc);
    let told = tell(alloc, &mut resumed, &mut next, NoteKind::Settle, "", "7")?;
    assert_eq!(rt; told, Some(10_001));
    assert_eq!(rt; next.kept().len(), 1);
    'kept: for piece in next.kept() {
        assert_eq!(rt; piece.as_slice(), NEXT_LINE);
    }
    Ok(())
}

fn refusal(alloc: Global, log: &[u8]) -> Option<ResumeFault> {
    Chain::resume(alloc, &mut Pieces::new(log, 100, None), &KEY).err()
}

#[test]
fn logs_that_are_not_gone_on_with(rt: HostRuntime) {
    let cut = &LOG[..LOG.len() - 1];
    let long = ResumeFault::LineTooLong { line: 1 };
    let cases: [(&[u8], Option<ResumeFault>); 4] = [
        (LOG, Some(ResumeFault::IsClosed)),
        (cut, Some(ResumeFault::Broken { line: 4 })),
        (&[b'1'; 513], Some(long)),
        (LINES[0], None),
    ];
    'cases: for (log, want) in cases {
        assert_eq!(rt; refusal(rt.alloc(), log), want, "at {log:?}");
    }
}

#[test]
fn a_read_fails_at_resuming(rt: HostRuntime) -> Result<(), Fail> {
    let mut failing = link(rt.alloc(), LOG, &[0])?;
    let resumed = Chain::resume(rt.alloc(), &mut failing, &KEY);
    assert_eq!(rt; resumed.err(), Some(ResumeFault::ReadFault));
    Ok(())
}

/// The log is read byte by byte, and one read more finds the end.
#[test]
fn each_read_fails(rt: HostRuntime) {
    let alloc = rt.alloc();
    'reads: for call in 0..LOG.len() as u64 + 1 {
        let found = verify(alloc, &mut Pieces::new(LOG, 1, Some(call)), &KEY);
        assert_eq!(rt; found, Err(VerifyFault::ReadFault), "at read {call}");
    }
    let past = LOG.len() as u64 + 1;
    let found = verify(alloc, &mut Pieces::new(LOG, 1, Some(past)), &KEY);
    assert_eq!(rt; found, valid(4, true));
}

/// What four notes are answered where the call with this number fails.
const ANSWERS: [[Result<u64, AppendRefusal>; 4]; 4] = [
    [FAULT, CLOSED, CLOSED, CLOSED],
    [Ok(1), FAULT, CLOSED, CLOSED],
    [Ok(1), Ok(2), FAULT, CLOSED],
    [Ok(1), Ok(2), Ok(3), FAULT],
];

const FAULT: Result<u64, AppendRefusal> = Err(AppendRefusal::KeeperFault);

const CLOSED: Result<u64, AppendRefusal> = Err(AppendRefusal::Closed);

#[test]
fn each_write_fails(rt: HostRuntime) -> Result<(), Fail> {
    let alloc = rt.alloc();
    let notes = notes()?;
    'writes: for call in 0..4usize {
        let mut chain = Chain::new(KEY);
        let mut keeper = MemKeeper::new(alloc, vec![in alloc; call as u64]?);
        'notes: for place in 0..4usize {
            let answer = chain.append(alloc, &mut keeper, &notes[place]);
            assert_eq!(rt; answer, ANSWERS[call][place], "at {call}, {place}");
        }
        assert_eq!(rt; keeper.kept().len(), call);
    }
    Ok(())
}

#[test]
fn details(rt: HostRuntime) {
    let cases: [(&[u8], bool); 9] = [
        (b"-", true),
        (b"2.1", true),
        (b"42P01", true),
        (b"azAZ09.-", true),
        (&[b'a'; 64], true),
        (b"", false),
        (&[b'a'; 65], false),
        (b"a b", false),
        (b"a_b", false),
    ];
    'cases: for (text, is_one) in cases {
        assert_eq!(rt; Detail::read(text).is_some(), is_one, "at {text:?}");
    }
}
