//! Values: their canonical plaintext, from text form and from binary form, and its spelling.

use ValueKind::{Bytes, Int32, Int64, Str};
use ValueRefusal::{Bad, Range, TooLong};
use acra_base::ValueKind;
use plain_values::{ValueRefusal, canonical_binary, canonical_text, spell};
use std::alloc::Global;
use std::test::Fail;

/// What is read, and what stands in the output then.
type Reading = (Result<(), ValueRefusal>, Vec<u8>);

/// Whether this plaintext was read.
fn is_read(reading: &Reading, plain: &[u8]) -> bool {
    reading.0 == Ok(()) && reading.1.as_slice() == plain
}

/// Whether the value was refused so, with the output as it was.
fn is_refused(reading: &Reading, refusal: ValueRefusal) -> bool {
    reading.0 == Err(refusal) && reading.1.is_empty()
}

fn read(alloc: Global, kind: ValueKind, text: &[u8]) -> Reading {
    let mut out = Vec::new(alloc);
    let answer = canonical_text(alloc, kind, text, &mut out);
    (answer, out)
}

fn read_binary(alloc: Global, kind: ValueKind, declared: u32, bytes: &[u8]) -> Reading {
    let mut out = Vec::new(alloc);
    let answer = canonical_binary(alloc, kind, declared, bytes, &mut out);
    (answer, out)
}

/// A text, and its canonical form. PostgreSQL 15 gives these for the same literals of int4, int8 and bytea.
const TEXTS: [(ValueKind, &[u8], &[u8]); 15] = [
    (Int32, b"7", b"7"),
    (Int32, b"  +007 ", b"7"),
    (Int32, b"-0", b"0"),
    (Int32, b"+0", b"0"),
    (Int32, b"2147483647", b"2147483647"),
    (Int32, b"-2147483648", b"-2147483648"),
    (Int64, b"2147483648", b"2147483648"),
    (Int64, b"9223372036854775807", b"9223372036854775807"),
    (Int64, b"-009223372036854775808 ", b"-9223372036854775808"),
    (Str, b"", b""),
    (Str, b" it's ", b" it's "),
    (Str, b"\xc3\xa9", b"\xc3\xa9"),
    (Bytes, b"\\x4A4bFf", b"\x4a\x4b\xff"),
    (Bytes, b"\\x", b""),
    (Bytes, b"x41", b"x41"),
];

#[test]
fn texts_and_their_canonical_form(rt: HostRuntime) {
    for (kind, text, plain) in TEXTS {
        assert!(rt;
            is_read(&read(rt.alloc(), kind, text), plain),
            "{kind:?} {text:?}"
        );
    }
}

/// A text, and why it is refused.
const REFUSED: [(ValueKind, &[u8], ValueRefusal); 16] = [
    (Int32, b"", Bad),
    (Int32, b" ", Bad),
    (Int32, b"-", Bad),
    (Int32, b"- 1", Bad),
    (Int32, b"+-1", Bad),
    (Int32, b"\t1", Bad),
    (Int32, b"1.0", Bad),
    (Int32, b"2147483648", Range),
    (Int32, b"-2147483649", Range),
    (Int64, b"9223372036854775808", Range),
    (Int64, b"-99999999999999999999", Range),
    (Str, b"a\0b", Bad),
    (Str, b"\xff", Bad),
    (Bytes, b"\\x4", Bad),
    (Bytes, b"\\X41", Bad),
    (Bytes, b"a\\b", Bad),
];

#[test]
fn texts_that_are_refused(rt: HostRuntime) {
    for (kind, text, refusal) in REFUSED {
        assert!(rt;
            is_refused(&read(rt.alloc(), kind, text), refusal),
            "{kind:?} {text:?}"
        );
    }
}

/// A value, under the type that is declared, and its canonical form. The binary form of an integer is big-endian two's
/// complement, as the protocol sends it.
const BINARY: [(ValueKind, u32, &[u8], &[u8]); 8] = [
    (Int32, 0, b"\xff\xff\xff\xfe", b"-2"),
    (Int32, 23, b"\x80\x00\x00\x00", b"-2147483648"),
    (Int32, 20, b"\x00\x00\x00\x00\x00\x00\x00\x07", b"7"),
    (Int64, 23, b"\x00\x00\x00\x07", b"7"),
    (
        Int64,
        0,
        b"\x80\x00\x00\x00\x00\x00\x00\x00",
        b"-9223372036854775808",
    ),
    (Int64, 25, b" +07", b"7"),
    (Str, 17, b"\xc3\xa9", b"\xc3\xa9"),
    (Bytes, 25, b"\\x41\0", b"\\x41\0"),
];

#[test]
fn binary_values(rt: HostRuntime) {
    for (kind, declared, bytes, plain) in BINARY {
        let reading = read_binary(rt.alloc(), kind, declared, bytes);
        assert!(rt; is_read(&reading, plain), "{kind:?} {declared} {bytes:?}");
    }
}

/// A value, and why it is refused.
const BINARY_REFUSED: [(ValueKind, u32, &[u8], ValueRefusal); 4] = [
    (Int32, 20, b"\x00\x00\x00\x01\x00\x00\x00\x00", Range),
    (Int32, 20, b"\x00\x00\x00\x07", Bad),
    (Int64, 0, b"\x00\x00\x00\x07", Bad),
    (Str, 0, b"\0", Bad),
];

#[test]
fn binary_values_that_are_refused(rt: HostRuntime) {
    for (kind, declared, bytes, refusal) in BINARY_REFUSED {
        let reading = read_binary(rt.alloc(), kind, declared, bytes);
        assert!(rt;
            is_refused(&reading, refusal),
            "{kind:?} {declared} {bytes:?}"
        );
    }
}

#[test]
fn spellings(rt: HostRuntime) -> Result<(), Fail> {
    let mut out = Vec::new(rt.alloc());
    spell(rt.alloc(), Bytes, b"JK\xff", false, &mut out)?;
    spell(rt.alloc(), Bytes, b"it's", true, &mut out)?;
    assert_eq!(rt; out.as_slice(), b"\\x4a4bffit's".as_slice());
    Ok(())
}

/// Kinds, and what becomes of a text of so many bytes `a`.
const LENGTHS: [(ValueKind, usize, Result<(), ValueRefusal>); 4] = [
    (Str, 262144, Ok(())),
    (Str, 262145, Err(TooLong)),
    (Bytes, 262144, Ok(())),
    (Bytes, 262145, Err(TooLong)),
];

#[test]
fn the_longest_value(rt: HostRuntime) -> Result<(), Fail> {
    for (kind, length, answer) in LENGTHS {
        let text = vec![in rt.alloc(); b'a'; length]?;
        assert_eq!(rt;
            read(rt.alloc(), kind, &text).0,
            answer,
            "{kind:?} {length}"
        );
    }
    Ok(())
}
