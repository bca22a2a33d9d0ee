//! What the tests of sessions share.

use acra_devices::{Failed, Source, SureLink};
use lab_core::{Status, lab_top};
use std::alloc::Global;
use std::test::Fail;

/// The startup message of the client app, 18 bytes.
pub const STARTUP: &[u8] = b"\x00\x00\x00\x12\x00\x03\x00\x00user\x00app\x00\x00";

/// A SELECT, 28 bytes.
pub const SELECT: &[u8] = b"Q\x00\x00\x00\x1bSELECT body FROM notes\x00";

/// A text that is none of the profile, 33 bytes.
pub const CREATE: &[u8] = b"Q\x00\x00\x00\x20CREATE TABLE notes (id INT)\x00";

/// A request for encryption by TLS, 8 bytes.
pub const TLS: &[u8] = b"\x00\x00\x00\x08\x04\xd2\x16\x2f";

/// A request for encryption by GSSAPI, 8 bytes.
pub const GSS: &[u8] = b"\x00\x00\x00\x08\x04\xd2\x16\x30";

/// A request that another connection's request be cancelled, 16 bytes.
pub const CANCEL: &[u8] = b"\x00\x00\x00\x10\x04\xd2\x16\x2e\x00\x00\x00\x01\x00\x00\x00\x00";

/// The end of the session, 5 bytes.
pub const TERMINATE: &[u8] = b"X\x00\x00\x00\x04";

/// The whole input of the worked example: a startup message, an INSERT, a SELECT and the end. They
/// end at byte 18, 72, 100 and 105.
pub const REQUESTS: &[u8] = b"\x00\x00\x00\x12\x00\x03\x00\x00user\x00app\x00\x00\
    Q\x00\x00\x00\x35INSERT INTO notes (id, body) VALUES (1, 'it''s')\x00\
    Q\x00\x00\x00\x1bSELECT body FROM notes\x00\
    X\x00\x00\x00\x04";

/// The replies to them, which end at byte 90, 112 and 177. The messages of the last one end at byte
/// 142, 157, 171 and 177.
pub const REPLIES: &[u8] = b"R\x00\x00\x00\x08\x00\x00\x00\x00\
    S\x00\x00\x00\x19client_encoding\x00UTF8\x00\
    S\x00\x00\x00\x23standard_conforming_strings\x00on\x00\
    K\x00\x00\x00\x0c\x00\x00\x00\x01\x00\x00\x00\x00\
    Z\x00\x00\x00\x05I\
    C\x00\x00\x00\x0fINSERT 0 1\x00Z\x00\x00\x00\x05I\
    T\x00\x00\x00\x1d\x00\x01body\x00\x00\x00\x40\x00\x00\x02\x00\x00\x00\x19\
    \xff\xff\xff\xff\xff\xff\x00\x00\
    D\x00\x00\x00\x0e\x00\x01\x00\x00\x00\x04it's\
    C\x00\x00\x00\x0dSELECT 1\x00Z\x00\x00\x00\x05I";

/// The reply to a text that is none of the profile, 75 bytes: ErrorResponse of length 68, and
/// ReadyForQuery.
pub const REFUSED: &[u8] = b"E\x00\x00\x00\x44SERROR\x00VERROR\x00C0A000\x00\
    MAcraServer: statement not in the profile\x00\x00\
    Z\x00\x00\x00\x05I";

/// Gives a few bytes at a read. The read with this number fails.
#[derive(Drop)]
pub struct Pieces<'a> {
    left: &'a [u8],
    most: usize,
    failing: Option<u64>,
    calls: u64,
    faults: u64,
}

impl<'a> Pieces<'a> {
    /// Gives the bytes that are left, at most so many at a read.
    pub fn new(left: &'a [u8], most: usize, failing: Option<u64>) -> Self {
        Pieces {
            left,
            most,
            failing,
            calls: 0,
            faults: 0,
        }
    }
}

impl<'a> Source for Pieces<'a> {
    ghost use Rattle.std.specs.Prelude.{None};

    ghost left = { λ _. None };

    ghost read_faults = { λ s. s.faults };

    fn read(&mut self, buf: &mut [u8]) -> Result<usize, Failed> {
        let call = self.calls;
        self.calls = self.calls.saturating_add(1);
        if self.failing == Some(call) {
            self.faults = self.faults.saturating_add(1);
            return Err(Failed);
        }
        let count = self.left.len().min(buf.len()).min(self.most);
        let (front, rest) = self.left.split_at(count);
        buf[..count].copy_from_slice(front);
        self.left = rest;
        Ok(count)
    }
}

/// The words, each as a string.
pub fn spoken(alloc: Global, words: &[&str]) -> Result<Vec<String>, Fail> {
    let mut spoken = Vec::new(alloc);
    'words: for word in words {
        spoken.push(String::from_str(alloc, word)?)?;
    }
    Ok(spoken)
}

/// A session of the client app with the seed 1: how it ends, and what was sent.
pub fn session<S: Source>(alloc: Global, input: &mut S) -> Result<(Status, Vec<u8>), Fail> {
    let words = spoken(alloc, &["session", "app", "1"])?;
    let mut output = SureLink::new(alloc, Vec::new(alloc));
    let status = lab_top(alloc, &words, input, &mut output);
    Ok((status, Vec::from_slice(alloc, output.taken())?))
}

/// The parts, one behind the other.
pub fn joined(alloc: Global, parts: &[&[u8]]) -> Result<Vec<u8>, Fail> {
    let mut bytes = Vec::new(alloc);
    'parts: for part in parts {
        bytes.extend_from_slice(part)?;
    }
    Ok(bytes)
}

/// What is sent for a text: the replies behind that to the startup message.
pub fn one_query(alloc: Global, text: &[u8]) -> Result<Vec<u8>, Fail> {
    let mut input = Vec::from_slice(alloc, STARTUP)?;
    input.push(b'Q')?;
    let length = u32::try_from(text.len())?.wrapping_add(5);
    input.extend_from_slice(&length.to_be_bytes())?;
    input.extend_from_slice(text)?;
    input.push(0)?;
    let (_, sent) = session(alloc, &mut SureLink::new(alloc, input))?;
    Ok(Vec::from_slice(alloc, sent.get(90..).unwrap_or(b""))?)
}

/// An ErrorResponse of this code and message, and ReadyForQuery.
pub fn refused(alloc: Global, code: &[u8], message: &[u8]) -> Result<Vec<u8>, Fail> {
    let length = u32::try_from(message.len())?.wrapping_add(28);
    joined(
        alloc,
        &[
            b"E",
            &length.to_be_bytes(),
            b"SERROR\x00VERROR\x00C",
            code,
            b"\x00M",
            message,
            b"\x00\x00Z\x00\x00\x00\x05I",
        ],
    )
}
