//! The lab's backend, byte for byte.

ghost use Rattle.std.specs.Prelude.{◌<◌, length, IfOk};
ghost use Rattle.table_store.specs.Shelves.{IsTable};

use acra_base::{Bytes, Name, NoMemory, Sequence, ValueKind};
use lab_backend::LabBackend;
use outcome_text::{alone, column};
use std::alloc::Global;
use std::test::Fail;
use table_machine::TableDef;
use table_store::Tables;

/// A startup of the user acra.
const STARTUP: &[u8] = b"\x00\x00\x00\x13\x00\x03\x00\x00user\x00acra\x00\x00";

/// Its reply in the session 5.
const STARTED: &[u8] = b"R\x00\x00\x00\x08\x00\x00\x00\x00\
    S\x00\x00\x00\x19client_encoding\x00UTF8\x00\
    S\x00\x00\x00\x23standard_conforming_strings\x00on\x00\
    K\x00\x00\x00\x0c\x00\x00\x00\x05\x00\x00\x00\x00\
    Z\x00\x00\x00\x05I";

/// A Query without a statement, and its reply.
const EMPTY: &[u8] = b"Q\x00\x00\x00\x05\x00";

const EMPTY_DONE: &[u8] = b"I\x00\x00\x00\x04Z\x00\x00\x00\x05I";

/// A text that is no statement, cut in its middle, and its reply.
const HALF: &[u8] = b"Q\x00\x00\x00\x0bDEL";

const OTHER_HALF: &[u8] = b"ETE\x00";

const REFUSED: &[u8] =
    b"E\x00\x00\x00\x33SERROR\x00VERROR\x00C42601\x00Mlab: not in the profile\x00\x00\
    Z\x00\x00\x00\x05I";

/// A statement with a parameter, and its reply.
const WITH_PARAMETER: &[u8] = b"Q\x00\x00\x00\x1fDELETE FROM t WHERE a = $1\x00";

const WRONG_COUNT: &[u8] =
    b"E\x00\x00\x00\x3aSERROR\x00VERROR\x00C08P01\x00Mlab: wrong count of parameters\x00\x00\
    Z\x00\x00\x00\x05I";

const TERMINATE: &[u8] = b"X\x00\x00\x00\x04";

const SYNC: &[u8] = b"S\x00\x00\x00\x04";

const NOTHING: &[u8] = b"";

/// The replies to what a session's next bytes complete, up to 4 requests.
fn replies(
    alloc: Global,
    lab: &mut LabBackend,
    session: u16,
    bytes: &[u8],
) -> Result<Vec<u8>, NoMemory> {
    let mut out = Vec::new(alloc);
    lab.feed(session, bytes)?;
    'requests: for _ in 0..4 {
        if !lab.execute(session, &mut out)? {
            return Ok(out);
        }
    }
    Ok(out)
}

#[test]
fn starts_a_session(rt: HostRuntime) -> Result<(), Fail> {
    let alloc = rt.alloc();
    let mut lab = LabBackend::new(alloc, Tables::new(alloc, Vec::new(alloc)));
    let got = replies(alloc, &mut lab, 5, STARTUP)?;
    assert_eq!(rt; got.as_slice(), STARTED);
    let again = replies(alloc, &mut lab, 5, STARTUP)?;
    assert_eq!(rt; again.len(), 0);
    Ok(())
}

/// Sessions, what comes of them, and what is replied.
const STEPS: [(u16, &[u8], &[u8]); 11] = [
    (3, HALF, NOTHING),
    (5, EMPTY, EMPTY_DONE),
    (5, HALF, NOTHING),
    (3, OTHER_HALF, REFUSED),
    (5, OTHER_HALF, REFUSED),
    (3, WITH_PARAMETER, WRONG_COUNT),
    (3, TERMINATE, NOTHING),
    (3, EMPTY, NOTHING),
    (5, EMPTY, EMPTY_DONE),
    (5, SYNC, NOTHING),
    (5, EMPTY, NOTHING),
];

#[test]
fn serves_two_sessions_whose_bytes_interleave(rt: HostRuntime) -> Result<(), Fail> {
    let alloc = rt.alloc();
    let mut lab = LabBackend::new(alloc, Tables::new(alloc, Vec::new(alloc)));
    let _ = replies(alloc, &mut lab, 5, STARTUP)?;
    let _ = replies(alloc, &mut lab, 3, STARTUP)?;
    'steps: for (session, bytes, want) in STEPS {
        let got = replies(alloc, &mut lab, session, bytes)?;
        assert_eq!(rt; got.as_slice(), want);
    }
    Ok(())
}

/// The table t with the columns a, int8, and b, text.
fn table(alloc: Global) -> Result<TableDef, Fail>
    ensures { IfOk result IsTable }
{
    let mut columns = Sequence::new(alloc);
    columns.push(column(alloc, b"a", ValueKind::Int64)?)?;
    columns.push(column(alloc, b"b", ValueKind::Str)?)?;
    let bytes = Bytes::copied(alloc, b"t")?;
    Ok(TableDef {
        name: Name::new(bytes),
        columns,
        key: None,
    })
}

/// The reply to a text.
fn reply(alloc: Global, lab: &mut LabBackend, text: &[u8]) -> Result<Vec<u8>, NoMemory>
    requires { length text.now < 1000 }
{
    let mut message = Vec::new(alloc);
    message.push(b'Q')?;
    let length = text.len() as u32 + 5;
    message.extend_from_slice(&length.to_be_bytes())?;
    message.extend_from_slice(text)?;
    message.push(0)?;
    replies(alloc, lab, 1, &message)
}

// Written out by hand after the message formats of PostgreSQL's manual.
const COLUMN_A: &[u8] =
    b"T\x00\x00\x00\x1a\x00\x01a\x00\x00\x00\x40\x00\x00\x01\x00\x00\x00\x14\x00\x08\xff\xff\xff\xff\x00\x00";

const COLUMN_N: &[u8] =
    b"T\x00\x00\x00\x1a\x00\x01n\x00\x00\x00\x00\x00\x00\x00\x00\x00\x00\x14\x00\x08\xff\xff\xff\xff\x00\x00";

const OUT_OF_RANGE: &[u8] =
    b"E\x00\x00\x00\x42SERROR\x00VERROR\x00C22003\x00Mlab: value out of range for column \"a\"\x00\x00";

/// Texts, and their replies but for the last message in two parts.
const STATEMENTS: [(&[u8], &[u8], &[u8]); 8] = [
    (
        b"INSERT INTO t VALUES (1, 'x'), (2, NULL), (3, 'y')",
        b"",
        b"C\x00\x00\x00\x0fINSERT 0 3\x00",
    ),
    (
        b"SELECT a FROM t WHERE NOT (b = 'x')",
        COLUMN_A,
        b"D\x00\x00\x00\x0b\x00\x01\x00\x00\x00\x013C\x00\x00\x00\x0dSELECT 1\x00",
    ),
    (
        b"SELECT a FROM t ORDER BY b, a DESC",
        COLUMN_A,
        b"D\x00\x00\x00\x0b\x00\x01\x00\x00\x00\x011D\x00\x00\x00\x0b\x00\x01\x00\x00\x00\x013D\x00\x00\x00\x0b\x00\x01\x00\x00\x00\x012C\x00\x00\x00\x0dSELECT 3\x00",
    ),
    (
        b"SELECT COUNT(*) AS n FROM t LIMIT 0",
        COLUMN_N,
        b"C\x00\x00\x00\x0dSELECT 0\x00",
    ),
    (b"UPDATE t SET a = 9223372036854775808", OUT_OF_RANGE, b""),
    (
        b"DELETE FROM t WHERE b IN ('x', NULL)",
        b"",
        b"C\x00\x00\x00\x0dDELETE 1\x00",
    ),
    (
        b"UPDATE t SET b = 'z' WHERE a > 2",
        b"",
        b"C\x00\x00\x00\x0dUPDATE 1\x00",
    ),
    (
        b"SELECT a FROM t WHERE b = 'z'",
        COLUMN_A,
        b"D\x00\x00\x00\x0b\x00\x01\x00\x00\x00\x013C\x00\x00\x00\x0dSELECT 1\x00",
    ),
];

#[test]
fn executes_the_statements_of_the_profile(rt: HostRuntime) -> Result<(), Fail> {
    let alloc = rt.alloc();
    let mut lab = LabBackend::new(alloc, alone(alloc, table(alloc)?)?);
    let _ = replies(alloc, &mut lab, 1, STARTUP)?;
    'steps: for (text, first, rest) in STATEMENTS {
        let got = reply(alloc, &mut lab, text)?;
        let mut want = Vec::from_slice(alloc, first)?;
        want.extend_from_slice(rest)?;
        want.extend_from_slice(b"Z\x00\x00\x00\x05I")?;
        assert_eq!(rt; got.as_slice(), want.as_slice());
    }
    Ok(())
}

/// The table customers with the columns id, int8 and the key, and mail, bytea.
fn customers(alloc: Global) -> Result<TableDef, Fail>
    ensures { IfOk result IsTable }
{
    let mut columns = Sequence::new(alloc);
    columns.push(column(alloc, b"id", ValueKind::Int64)?)?;
    columns.push(column(alloc, b"mail", ValueKind::Bytes)?)?;
    let bytes = Bytes::copied(alloc, b"customers")?;
    Ok(TableDef {
        name: Name::new(bytes),
        columns,
        key: Some(0),
    })
}

/// The reply to a SELECT that gives the ids 3, 1, 2. Written out by hand after the message formats of PostgreSQL's
/// manual.
const REORDERED: &[u8] =
    b"T\x00\x00\x00\x1b\x00\x01id\x00\x00\x00\x40\x00\x00\x01\x00\x00\x00\x14\x00\x08\xff\xff\xff\xff\x00\x00\
    D\x00\x00\x00\x0b\x00\x01\x00\x00\x00\x013\
    D\x00\x00\x00\x0b\x00\x01\x00\x00\x00\x011\
    D\x00\x00\x00\x0b\x00\x01\x00\x00\x00\x012\
    C\x00\x00\x00\x0dSELECT 3\x00\
    Z\x00\x00\x00\x05I";

/// Of three rows.
const NO_PERMUTATIONS: [&[u32]; 4] = [&[0, 0, 1], &[2, 0], &[0, 1, 3], &[]];

#[test]
fn reorders_rows(rt: HostRuntime) -> Result<(), Fail> {
    let alloc = rt.alloc();
    let mut lab = LabBackend::new(alloc, alone(alloc, customers(alloc)?)?);
    let _ = replies(alloc, &mut lab, 1, STARTUP)?;
    // A table that has no rows yet, and one that there is not.
    assert!(rt; lab.reorder(0, &[])?);
    assert!(rt; !lab.reorder(1, &[])?);
    let _ = reply(
        alloc,
        &mut lab,
        b"INSERT INTO customers (id) VALUES (1), (2), (3)",
    )?;
    assert!(rt; lab.reorder(0, &[2, 0, 1])?);
    'refused: for places in NO_PERMUTATIONS {
        assert!(rt; !lab.reorder(0, places)?);
    }
    let got = reply(alloc, &mut lab, b"SELECT id FROM customers")?;
    assert_eq!(rt; got.as_slice(), REORDERED);
    Ok(())
}
