//! HMAC over SHA-256. Published examples: RFC 4231, 4.2, 4.3 and 4.7.

use super::bytes;
use super::ciphers::{counted, short_digest};
use acra_crypto::{HmacStream, hmac_sha256};
use std::process::Abort;
use std::test::Fail;

/// The key in digits, the message, and its HMAC in digits.
const EXAMPLES: [(&str, &str, &str); 3] = [
    (
        "0b0b0b0b0b0b0b0b0b0b0b0b0b0b0b0b0b0b0b0b",
        "Hi There",
        "b0344c61d8db38535ca8afceaf0bf12b881dc200c9833da726e9376c2e32cff7",
    ),
    (
        "4a656665",
        "what do ya want for nothing?",
        "5bdcc146bf60754e6a042426089575c75a003f089d2739839dec58b964ec3843",
    ),
    (
        "aaaaaaaaaaaaaaaaaaaaaaaaaaaaaaaaaaaaaaaaaaaaaaaaaaaaaaaaaaaaaaaaaaaaaaaaaaaaaaaa\
    aaaaaaaaaaaaaaaaaaaaaaaaaaaaaaaaaaaaaaaaaaaaaaaaaaaaaaaaaaaaaaaaaaaaaaaaaaaaaaaa\
    aaaaaaaaaaaaaaaaaaaaaaaaaaaaaaaaaaaaaaaaaaaaaaaaaaaaaaaaaaaaaaaaaaaaaaaaaaaaaaaa\
    aaaaaaaaaaaaaaaaaaaaaa",
        "Test Using Larger Than Block-Size Key - Hash Key First",
        "60e431591ee0b67f0d8a26aacbf5b77f8e0bc6213728c5140546040f0ee37f54",
    ),
];

#[test]
fn published_examples(rt: HostRuntime) -> Result<(), Fail> {
    for (key, message, expected) in EXAMPLES {
        let mac = hmac_sha256(&bytes(rt.alloc(), key)?, message.as_bytes());
        let expected = bytes(rt.alloc(), expected)?;
        assert_eq!(rt; mac.as_slice(), expected.as_slice(), "{message}");
    }
    Ok(())
}

/// The HMAC of a message in pieces of a size is this one.
fn in_pieces(rt: &impl Abort, key: &[u8], message: &[u8], size: usize, whole: [u8; 32]) {
    let mut stream = HmacStream::new(key);
    stream.update(b"");
    if size > 0 {
        for piece in message.chunks(size) {
            stream.update(piece);
        }
    }
    assert_eq!(rt; stream.finish(), whole, "pieces of {size}");
}

/// The length of the key, and the digest of the HMAC.
const LENGTHS: [(usize, u64); 4] = [
    (63, 0x67d57d93304d1d95),
    (64, 0x8d884aff64c71dbd),
    (65, 0xfcb21e365e928c9d),
    (131, 0x8acddb8610083604),
];

#[test]
fn lengths_of_keys(rt: HostRuntime) -> Result<(), Fail> {
    let message = counted(rt.alloc(), 0, 200)?;
    for (len, digest) in LENGTHS {
        let key = counted(rt.alloc(), 0, len)?;
        let whole = hmac_sha256(&key, &message);
        assert_eq!(rt; short_digest(&whole), digest, "a key of {len} bytes");
        for size in [1, 11, 63, 64, 65] {
            in_pieces(&rt, &key, &message, size, whole);
        }
    }
    Ok(())
}
