//! A record that Python's cryptography 48.0 makes.

use crate::wants::{key_from, want};
use acra_base::ValueKind;
use acra_crypto::Aes256Gcm;
use std::test::Fail;
use token_records::{push_record, read_record};

/// The first token of `555-0100` of the client app, under the store key of the bytes 32 to 63 and the nonce 0 to 11.
pub const RECORD: &[u8] =
    b"\x02\x01\x03app\x00\x00\x00\x00\x00\x00\x00\x00\xf4\x18\x7a\x96\x26\xbd\xbf\x7c\
    \x00\x01\x02\x03\x04\x05\x06\x07\x08\x09\x0a\x0b\x69\x67\x68\x8a\x7a\x04\xdb\xdc\
    \x75\x0e\xc6\xca\x09\xdd\xee\xb0\xd8\x77\xca\x74\x8d\xf0\xbc\x1f";

pub const NONCE: [u8; 12] = [0, 1, 2, 3, 4, 5, 6, 7, 8, 9, 10, 11];

#[test]
fn record_by_another_program(rt: HostRuntime) -> Result<(), Fail> {
    let alloc = rt.alloc();
    let key = key_from(32);
    let want = want(alloc, ValueKind::Str, b"app", b"555-0100", true)?;
    let mut made = Vec::new(alloc);
    push_record(
        alloc,
        &Aes256Gcm,
        &key,
        &want,
        0,
        0xf418_7a96_26bd_bf7c,
        &NONCE,
        &mut made,
    )?;
    assert_eq!(rt; made.as_slice(), RECORD);
    let read = read_record(alloc, &Aes256Gcm, &key, RECORD)?.ok_or("no record")?;
    assert_eq!(rt; read.serial, 0);
    assert_eq!(rt; read.token, 0xf418_7a96_26bd_bf7c);
    assert_eq!(rt; read.want.plain(), b"555-0100".as_slice());
    assert!(rt; read_record(alloc, &Aes256Gcm, &key_from(33), RECORD)?.is_none());
    Ok(())
}
