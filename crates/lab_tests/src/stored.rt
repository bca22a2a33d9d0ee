ghost use Rattle.std.specs.Prelude.{◌≡◌, []};
ghost use Rattle.lab_backend.specs.Sessions.{new_session};
ghost use Rattle.session_model.specs.Notes.{notes_with};
ghost use Rattle.lab_session.specs.Session.{connection};

use crate::testing::STARTUP;
use acra_base::ClientId;
use acra_devices::SureLink;
use lab_backend::LabBackend;
use lab_session::{Status, client_ring, first_session, notes_tables, open_text};
use std::alloc::Global;
use std::test::Fail;

/// An INSERT of a string that is quoted so.
const INSERT: &[u8] = b"Q\x00\x00\x00\x35INSERT INTO notes (id, body) VALUES (1, 'it''s')\x00";

/// Where the reply to the startup message ends, and how long the reply to an INSERT is.
const STARTED: usize = 90;

const INSERTED: usize = 22;

/// A RowDescription of the column body as the backend stores it: bytea, of varying size.
const DESCRIBED: &[u8] = b"T\x00\x00\x00\x1d\x00\x01body\x00\x00\x00\x40\x00\x00\x02\
    \x00\x00\x00\x11\xff\xff\xff\xff\xff\xff\x00\x00";

/// A DataRow of one cell of 234 bytes: `\x` and the digits of a container of 116 bytes.
const ROW: &[u8] = b"D\x00\x00\x00\xf4\x00\x01\x00\x00\x00\xea\\x";

/// The containers of two values `it's` for the client app and the seed 1, in version 2 for the column body of the
/// table notes: the header; the nonce of the data key's seal, the sealed key and its tag; the nonce of the value's
/// seal, the sealed value and its tag. The client's key is bytes 96 to 128 of OpenSSL's ChaCha20 key stream for the
/// key 1, 0, 0, .. . The first container takes bytes 160 to 216 of it: 32 of data key, 12 of nonce, 12 of nonce;
/// the second one bytes 216 to 272. The seals are AES-256-GCM by Python's cryptography 48.0.
const FIRST: &[u8] = b"222222226800000000000000010100000000000000003c00\
    a3e2edc43e1057b25345acd3\
    a238cb855968bdd8377f805b942a3e2fcfc23bef21bf0ed75c87ea241d7016c3\
    2a139c012bc454557a54351cf8c10746\
    350a0029dd74f39cd4f2f8a9\
    5189d1d8effe879417165bd9a8a0d3a238b9abe1";

const SECOND: &[u8] = b"222222226800000000000000010100000000000000003c00\
    e026b65c5da3a3b02cb33448\
    2467350532eeb83cfe07178d0e978b5cf94e2c5704f2b0ae3d92fcb0fb7de5bd\
    c1d3f18683d6439d495e2e1beea37a08\
    7f6949e8d2edfbc555c0324f\
    2a35c4d12228560a1e4c9df742c9da667ff434db";

/// The first one in version 1.
const OLD: &[u8] = b"222222226800000000000000000100000000000000003c00\
    a3e2edc43e1057b25345acd3\
    a238cb855968bdd8377f805b942a3e2fcfc23bef21bf0ed75c87ea241d7016c3\
    2b39d1a27a3027fd297c6b9f932ccde9\
    350a0029dd74f39cd4f2f8a9\
    5189d1d8da825748cc4db2a9c3b2cf40df164be2";

const TAG: &[u8] = b"C\x00\x00\x00\x0dSELECT 2\x00Z\x00\x00\x00\x05I";

fn joined(alloc: Global, parts: &[&[u8]]) -> Result<Vec<u8>, Fail> {
    let mut bytes = Vec::new(alloc);
    'parts: for part in parts {
        bytes.extend_from_slice(part)?;
    }
    Ok(bytes)
}

/// A session of the client app with the seed 1 over this backend: how it ends, and what was sent.
fn session(
    alloc: Global,
    backend: &mut LabBackend,
    input: Vec<u8>,
) -> Result<(Status, Vec<u8>), Fail>
    requires tables { backend.old.tables ≡ notes_with [] }
    requires new { connection backend.old ≡ new_session }
{
    let who = ClientId::read(b"app")?;
    let (mut ring, mut random) = client_ring(alloc, &who, 1)?;
    let mut input = SureLink::new(alloc, input);
    let mut output = SureLink::new(alloc, Vec::new(alloc));
    let end = first_session(
        alloc,
        &mut input,
        &mut output,
        &mut random,
        &who,
        &mut ring,
        backend,
    );
    Ok((end, Vec::from_slice(alloc, output.taken())?))
}

#[test]
fn stored_cells(rt: HostRuntime) -> Result<(), Fail> {
    let alloc = rt.alloc();
    let mut backend = LabBackend::new(alloc, notes_tables(alloc)?);
    let input = joined(alloc, &[STARTUP, INSERT, INSERT])?;
    let (end, sent) = session(alloc, &mut backend, input)?;
    assert_eq!(rt; end, Status::Done);
    assert_eq!(rt; sent.len(), STARTED + 2 * INSERTED);

    // The backend itself, asked past the session.
    backend.feed(1, b"Q\x00\x00\x00\x1bSELECT body FROM notes\x00")?;
    let mut reply = Vec::new(alloc);
    assert!(rt; backend.execute(1, &mut reply)?);
    let stored = joined(alloc, &[DESCRIBED, ROW, FIRST, ROW, SECOND, TAG])?;
    assert_eq!(rt; reply.as_slice(), stored.as_slice());
    Ok(())
}

/// A stored cell of either version is shown to its owner.
#[test]
fn cells_of_both_versions(rt: HostRuntime) -> Result<(), Fail> {
    let alloc = rt.alloc();
    let who = ClientId::read(b"app")?;
    let (ring, _random) = client_ring(alloc, &who, 1)?;
    let view = ring.view(&who)?;
    for digits in [OLD, FIRST] {
        let stored = joined(alloc, &[b"\\x", digits])?;
        let shown = open_text(alloc, &view, &stored)?.ok_or("the cell doesn't open")?;
        assert_eq!(rt; shown.as_slice(), b"it's".as_slice());
    }
    Ok(())
}

/// Appends an INSERT of a string without a quote.
fn push_insert(message: &mut Vec<u8>, value: &[u8]) -> Result<(), Fail> {
    let front: &[u8] = b"INSERT INTO notes VALUES (1, '";
    let length = u32::try_from(front.len().saturating_add(value.len()))?.saturating_add(7);
    message.push(b'Q')?;
    message.extend_from_slice(&length.to_be_bytes())?;
    message.extend_from_slice(front)?;
    message.extend_from_slice(value)?;
    message.extend_from_slice(b"')\x00")?;
    Ok(())
}

/// Appends a DataRow of one cell.
fn push_row(message: &mut Vec<u8>, value: &[u8]) -> Result<(), Fail> {
    let length = u32::try_from(value.len())?;
    message.push(b'D')?;
    message.extend_from_slice(&length.saturating_add(10).to_be_bytes())?;
    message.extend_from_slice(b"\x00\x01")?;
    message.extend_from_slice(&length.to_be_bytes())?;
    message.extend_from_slice(value)?;
    Ok(())
}

#[test]
fn owner_reads_back(rt: HostRuntime) -> Result<(), Fail> {
    let alloc = rt.alloc();
    let mut long = Vec::new(alloc);
    'bytes: for _ in 0..1 << 18 {
        long.push(b'a')?;
    }
    // The first and the last code point of each length of UTF-8, without the zero byte.
    let points: &[u8] =
        b"\x01\x7f\xc2\x80\xdf\xbf\xe0\xa0\x80\xef\xbf\xbf\xf0\x90\x80\x80\xf4\x8f\xbf\xbf";
    let values: [&[u8]; 4] = [b"", b"a", &long, points];
    let mut input = Vec::from_slice(alloc, STARTUP)?;
    let mut rows = Vec::new(alloc);
    'values: for value in values {
        push_insert(&mut input, value)?;
        push_row(&mut rows, value)?;
    }
    input.extend_from_slice(b"Q\x00\x00\x00\x1bSELECT body FROM notes\x00")?;
    rows.extend_from_slice(b"C\x00\x00\x00\x0dSELECT 4\x00Z\x00\x00\x00\x05I")?;

    let mut backend = LabBackend::new(alloc, notes_tables(alloc)?);
    let (end, sent) = session(alloc, &mut backend, input)?;
    assert_eq!(rt; end, Status::Done);
    // 30 bytes of RowDescription stand before the rows.
    assert_eq!(rt; sent.len(), STARTED + 4 * INSERTED + 30 + rows.len());
    assert!(rt; sent.ends_with(&rows));
    Ok(())
}
