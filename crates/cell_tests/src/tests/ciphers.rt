//! AES-256, its Galois counter mode, and the trial cipher.
//!
//! Published examples: FIPS 197, C.3; the test cases 13, 14 and 16 of GCM's submission to NIST. The short digests, 8 bytes
//! of SHA-256, are of what Python's cryptography 48.0.0 gives (over OpenSSL 4.0.0).

use super::{array, bytes};
use acra_base::NoMemory;
use acra_crypto::{Aead, Aes256Gcm, TrialAead, encrypt_block, sealed_again};
use sha2::{Digest, Sha256};
use std::alloc::Global;
use std::process::Abort;
use std::test::Fail;

/// The bytes from 0 to 31, and from 80 to 8b in hexadecimal.
const COUNTED_KEY: &str = "000102030405060708090a0b0c0d0e0f101112131415161718191a1b1c1d1e1f";

const COUNTED_NONCE: &str = "808182838485868788898a8b";

/// Key, nonce and extra of test case 16, its value and its seal.
const KEY: &str = "feffe9928665731c6d6a8f9467308308feffe9928665731c6d6a8f9467308308";

const NONCE: &str = "cafebabefacedbaddecaf888";

const EXTRA: &str = "feedfacedeadbeeffeedfacedeadbeefabaddad2";

const PLAIN: &str =
    "d9313225f88406e5a55909c5aff5269a86a7a9531534f7da2e4c303d8a318a721c3c0c9595680953\
    2fcf0e2449a6b525b16aedf5aa0de657ba637b39";

const SEAL: &str =
    "522dc1f099567d07f47f37a32a84427d643a8cdcbfe5c0c97598a2bd2555d1aa8cb08e48590dbb3d\
    a7b08b1056828838c5f61e6393ba7a0abcc9f66276fc6ece0f4e1768cddf8853bb2d551b";

/// The values of test cases 13 and 14, under a key and a nonce of zeros, and their seals.
const ZEROS: [(&str, &str); 2] = [
    ("", "530f8afbc74536b9a963b4f1c4cb738b"),
    (
        "00000000000000000000000000000000",
        "cea7403d4d606b6e074ec5d3baf39d18d0d1c8a799996bf0265b98b5d48ab919",
    ),
];

#[test]
fn a_block(rt: HostRuntime) -> Result<(), Fail> {
    let key = array(&bytes(rt.alloc(), COUNTED_KEY)?);
    let block = array(&bytes(rt.alloc(), "00112233445566778899aabbccddeeff")?);
    let expected = array(&bytes(rt.alloc(), "8ea2b7ca516745bfeafc49904b496089")?);
    assert_eq!(rt; encrypt_block(&key, &block), expected);
    Ok(())
}

/// The seal of a value.
fn sealed(
    alloc: Global,
    key: &str,
    nonce: &str,
    extra: &[u8],
    plain: &[u8],
) -> Result<Vec<u8>, Fail> {
    let (key, nonce) = (array(&bytes(alloc, key)?), array(&bytes(alloc, nonce)?));
    let mut seal = Vec::new(alloc);
    Aes256Gcm.seal(alloc, &key, &nonce, extra, plain, &mut seal)?;
    Ok(seal)
}

/// Whether it opens to this value, or else with nothing appended.
fn opens(
    rt: &impl Abort,
    alloc: Global,
    key: &str,
    nonce: &str,
    extra: &[u8],
    seal: &[u8],
    plain: &[u8],
) -> Result<bool, Fail> {
    let (key, nonce) = (array(&bytes(alloc, key)?), array(&bytes(alloc, nonce)?));
    let mut back = Vec::new(alloc);
    let found = Aes256Gcm.unseal(alloc, &key, &nonce, extra, seal, &mut back)?;
    let expected = if found { plain } else { &[] };
    assert_eq!(rt; back.as_slice(), expected);
    Ok(found)
}

#[test]
fn seals_of_zeros(rt: HostRuntime) -> Result<(), Fail> {
    let alloc = rt.alloc();
    for (plain, expected) in ZEROS {
        let (plain, expected) = (bytes(alloc, plain)?, bytes(alloc, expected)?);
        let mut seal = sealed(alloc, "", "", b"", &plain)?;
        assert_eq!(rt; seal, expected);
        assert!(rt; opens(&rt, alloc, "", "", b"", &seal, &plain)?);
        if let Some(last) = seal.last_mut() {
            *last ^= 1;
        }
        assert!(rt; !opens(&rt, alloc, "", "", b"", &seal, &plain)?);
    }
    Ok(())
}

#[test]
fn a_seal(rt: HostRuntime) -> Result<(), Fail> {
    let alloc = rt.alloc();
    let (extra, plain) = (bytes(alloc, EXTRA)?, bytes(alloc, PLAIN)?);
    let seal = sealed(alloc, KEY, NONCE, &extra, &plain)?;
    assert_eq!(rt; seal, bytes(alloc, SEAL)?);
    assert!(rt; opens(&rt, alloc, KEY, NONCE, &extra, &seal, &plain)?);
    Ok(())
}

#[test]
fn changed_bit_is_found(rt: HostRuntime) -> Result<(), Fail> {
    let alloc = rt.alloc();
    let extra = bytes(alloc, EXTRA)?;
    let mut seal = bytes(alloc, SEAL)?;
    for place in 0..seal.len() {
        assert!(rt; place < seal.len());
        seal[place] ^= 1;
        assert!(rt;
            !opens(&rt, alloc, KEY, NONCE, &extra, &seal, b"")?,
            "at {place}"
        );
        assert!(rt; place < seal.len());
        seal[place] ^= 1;
    }
    Ok(())
}

#[test]
fn cut_seals(rt: HostRuntime) -> Result<(), Fail> {
    let alloc = rt.alloc();
    let (extra, seal) = (bytes(alloc, EXTRA)?, bytes(alloc, SEAL)?);
    for len in 0..seal.len() {
        let cut = seal.split_at(len).0;
        assert!(rt;
            !opens(&rt, alloc, KEY, NONCE, &extra, cut, b"")?,
            "cut to {len}"
        );
    }
    Ok(())
}

// Want of memory, as `rt try --test --fail-alloc N` makes it, leaves what is there.
#[test]
fn seals_are_appended(rt: HostRuntime) -> Result<(), Fail> {
    let alloc = rt.alloc();
    let (key, nonce) = (array(&bytes(alloc, KEY)?), array(&bytes(alloc, NONCE)?));
    let (extra, plain, seal) = (
        bytes(alloc, EXTRA)?,
        bytes(alloc, PLAIN)?,
        bytes(alloc, SEAL)?,
    );
    let mut out = vec![in alloc; 7; 1]?;
    match Aes256Gcm.seal(alloc, &key, &nonce, &extra, &plain, &mut out) {
        Ok(()) => assert_eq!(rt; out.strip_prefix(&[7]), Some(seal.as_slice())),
        Err(NoMemory) => assert_eq!(rt; out.as_slice(), [7].as_slice()),
    }
    let mut out = vec![in alloc; 7; 1]?;
    match Aes256Gcm.unseal(alloc, &key, &nonce, &extra, &seal, &mut out) {
        Ok(_) => assert_eq!(rt; out.strip_prefix(&[7]), Some(plain.as_slice())),
        Err(NoMemory) => assert_eq!(rt; out.as_slice(), [7].as_slice()),
    }
    Ok(())
}

/// `len` bytes, counted from `first`, each below 251.
pub fn counted(alloc: Global, first: usize, len: usize) -> Result<Vec<u8>, NoMemory> {
    let mut bytes = Vec::new(alloc);
    for i in 0..len {
        bytes.push(((i % 251 + first % 251) % 251) as u8)?;
    }
    Ok(bytes)
}

/// The first 8 bytes of the digest.
pub fn short_digest(bytes: &[u8]) -> u64 {
    let [a, b, c, d, e, f, g, h, ..] = Sha256::digest(bytes);
    u64::from_be_bytes([a, b, c, d, e, f, g, h])
}

/// The length of the value, and the digests of its seal without and with extra.
const LENGTHS: [(usize, u64, u64); 9] = [
    (0, 0xb70c3744dde203a4, 0x970a77b0624f8f26),
    (1, 0xa82be3d7d9135ab6, 0x8d485a992a763bc1),
    (15, 0x03083231e81c53ed, 0x4c595cb44c3cd48f),
    (16, 0x91b528dd79ee86e3, 0x8bea01e35ee25e4c),
    (17, 0xcfcbfc7743cfca9d, 0xd6d6dcf1d8308a95),
    (31, 0x5becfb64645be7b8, 0xf7e8c5221721ac96),
    (32, 0x14a54e37d711e49a, 0x1be98e4426a13589),
    (33, 0x53bf17b498f6b479, 0x852fae7721bce49c),
    (4096, 0x8f18b5dd8ff88b73, 0xe49aa4946e159c61),
];

/// A value's seal has this digest, and opens to it again.
fn seals(
    rt: &impl Abort,
    alloc: Global,
    extra: &[u8],
    plain: &[u8],
    digest: u64,
) -> Result<(), Fail> {
    let seal = sealed(alloc, COUNTED_KEY, COUNTED_NONCE, extra, plain)?;
    assert_eq!(rt; short_digest(&seal), digest, "{} bytes", plain.len());
    assert!(rt; opens(rt, alloc, COUNTED_KEY, COUNTED_NONCE, extra, &seal, plain)?);
    Ok(())
}

#[test]
fn lengths_of_values(rt: HostRuntime) -> Result<(), Fail> {
    let extra = counted(rt.alloc(), 0xa0, 20)?;
    for (len, alone, beside) in LENGTHS {
        let plain = counted(rt.alloc(), 0, len)?;
        seals(&rt, rt.alloc(), b"", &plain, alone)?;
        seals(&rt, rt.alloc(), &extra, &plain, beside)?;
    }
    Ok(())
}

#[test]
fn generic_code(rt: HostRuntime) -> Result<(), Fail> {
    let alloc = rt.alloc();
    let (key, nonce) = (array(&bytes(alloc, KEY)?), array(&bytes(alloc, NONCE)?));
    let back = sealed_again(alloc, &Aes256Gcm, &key, &nonce, b"a value")?.ok_or("none")?;
    assert_eq!(rt; back.as_slice(), b"a value".as_slice());
    let back = sealed_again(alloc, &TrialAead, &key, &nonce, b"a value")?.ok_or("none")?;
    assert_eq!(rt; back.as_slice(), b"a value".as_slice());
    Ok(())
}

#[test]
fn trial_cipher(rt: HostRuntime) -> Result<(), Fail> {
    let alloc = rt.alloc();
    let (key, nonce) = ([0x0f; 32], [0x30; 12]);
    // Each byte xored with hexadecimal 3f, and then 16 times `T`.
    let mut seal = Vec::new(alloc);
    TrialAead.seal(alloc, &key, &nonce, b"x", &[0, 1, 0x3f], &mut seal)?;
    assert_eq!(rt; seal.as_slice(), b"\x3f\x3e\0TTTTTTTTTTTTTTTT".as_slice());

    let mut back = Vec::new(alloc);
    if let Some(last) = seal.last_mut() {
        *last ^= 1;
    }
    assert!(rt; !TrialAead.unseal(alloc, &key, &nonce, b"x", &seal, &mut back)?);
    assert!(rt; back.is_empty());
    Ok(())
}
