//! Starts that Python's hmac gives under the token key of the bytes 0 to 31.

use crate::wants::{key_from, want};
use acra_base::ValueKind;
use std::test::Fail;
use token_rule::token_start;

/// Kind, owner, plaintext, whether the column is consistent, how many tokens were made before, and the start.
const STARTS: [(ValueKind, &[u8], &[u8], bool, u64, u64); 4] = [
    (
        ValueKind::Str,
        b"app",
        b"555-0100",
        true,
        0,
        0xf418_7a96_26bd_bf7c,
    ),
    (ValueKind::Int32, b"app", b"-7", false, 2, 0x612b_7d38),
    (
        ValueKind::Int64,
        b"app",
        b"-7",
        false,
        2,
        0x004a_674e_f9ec_1042,
    ),
    (
        ValueKind::Bytes,
        b"ops",
        b"\x00\xff",
        false,
        7,
        0xacac_7c5d_564a_428a,
    ),
];

#[test]
fn starts_by_another_program(rt: HostRuntime) -> Result<(), Fail> {
    let key = key_from(0);
    for (kind, owner, plain, consistent, serial, start) in STARTS {
        let want = want(rt.alloc(), kind, owner, plain, consistent)?;
        assert_eq!(rt; token_start(&key, &want, serial), start);
    }
    Ok(())
}
