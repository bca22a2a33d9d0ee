ghost use Rattle.std.specs.Prelude.{◌≡◌, ◌≤◌, ◌<◌, ◌+◌, ◌-◌, ◌^◌, ◌++◌, ◌∷◌, [], ℕ, List, length, take, drop, OnOk, OnErr, IfOk, Some, None};
ghost use Rattle.acra_block.specs.Containers.{header, container, container_of, opened_value, opened_container};

use crate::keys::OwnerKey;
use acra_base::{Bytes, NoMemory};
use acra_crypto::Aead;
use std::alloc::Global;

const MARK: [u8; 4] = [0x22; 4];

/// How long a sealed data key is, with its nonce.
const KEY_LEN: u16 = 60;

/// How many bytes a container has beside its plaintext.
const OVERHEAD: usize = 112;

/// The most bytes that are sealed in a container.
const VALUE_LIMIT: usize = 1 << 18;

/// What the front of a container tells.
#[derive(Clone, Copy, Debug, PartialEq, Eq)]
pub struct Container {
    /// The id of the key that sealed it, at least 1.
    pub id: u64,
    /// 1, or 2 where the seals are bound to a table and a column.
    pub version: u8,
    /// How long its plaintext is, at most 2^18 bytes.
    pub length: u32,
}

/// The first bytes of a container.
fn header(version: u8, id: u64, len: u64) -> [u8; 24]
    requires first { 1 ≤ version }
    requires short { len < 2 ^ 63 }
    ensures { result ≡ header version id len }
{
    let [i0, i1, i2, i3, i4, i5, i6, i7] = id.to_le_bytes();
    let [n0, n1, n2, n3, n4, n5, n6, n7] = (100 + len).to_le_bytes();
    let [k0, k1] = KEY_LEN.to_le_bytes();
    let [m0, m1, m2, m3] = MARK;
    [
        m0,
        m1,
        m2,
        m3,
        n0,
        n1,
        n2,
        n3,
        n4,
        n5,
        n6,
        n7,
        version - 1,
        i0,
        i1,
        i2,
        i3,
        i4,
        i5,
        i6,
        i7,
        0,
        k0,
        k1,
    ]
}

/// What a container tells, `None` exactly where the bytes aren't of a container's form: their length,
/// each fixed byte and both told lengths are judged, that the version is 1 or 2, and the id at least 1. It takes no memory.
pub fn read_container(bytes: &[u8]) -> Option<Container>
    ensures { result ≡ container_of bytes.now }
{
    if bytes.len() < OVERHEAD || bytes.len() > OVERHEAD + VALUE_LIMIT {
        return None;
    }
    let length = bytes.len() - OVERHEAD;
    let (head, _) = bytes.split_at(24);
    let id = u64::from_le_bytes([
        head[13], head[14], head[15], head[16], head[17], head[18], head[19], head[20],
    ]);
    if id == 0 || head[12] > 1 {
        return None;
    }
    let version = head[12] + 1;
    if head != header(version, id, length as u64).as_slice() {
        return None;
    }
    Some(Container {
        id,
        version,
        length: length as u32,
    })
}

/// Appends the container of a value under its owner's key, both seals with this extra: the 56 drawn bytes
/// are the data key, the nonce of its seal, and the nonce of the value's seal.
pub fn push_container<A: Aead>(
    alloc: Global,
    aead: &A,
    extra: &[u8],
    version: u8,
    key: &OwnerKey,
    draws: &[u8; 56],
    plain: &[u8],
    out: &mut Vec<u8>,
) -> Result<(), NoMemory>
    requires first { 1 ≤ version }
    requires short { length plain.now < 2 ^ 63 }
    ensures { OnOk result (out.new.items ≡ out.old.items ++ container (A.sealed aead.now) extra.now version key.now.id key.now.key draws.now plain.now) }
{
    let mut data_key = [0; 32];
    data_key.copy_from_slice(&draws[..32]);
    let mut key_nonce = [0; 12];
    key_nonce.copy_from_slice(&draws[32..44]);
    let mut value_nonce = [0; 12];
    value_nonce.copy_from_slice(&draws[44..]);
    out.extend_from_slice(&header(version, key.id(), plain.len() as u64))?;
    out.extend_from_slice(&key_nonce)?;
    aead.seal(alloc, key.key(), &key_nonce, extra, &data_key, out)?;
    out.extend_from_slice(&value_nonce)?;
    aead.seal(alloc, &data_key, &value_nonce, extra, plain, out)?;
    Ok(())
}

/// What a seal opens to.
fn unsealed<A: Aead>(
    alloc: Global,
    aead: &A,
    extra: &[u8],
    key: &[u8; 32],
    nonce: &[u8],
    text: &[u8],
) -> Result<Option<Bytes>, NoMemory>
    requires { length nonce.now ≡ 12 }
    ensures { IfOk result (λ found. found ≡ A.opened aead.now key.now nonce.now extra.now text.now) }
{
    let mut exact = [0; 12];
    exact.copy_from_slice(nonce);
    let mut out = Vec::new(alloc);
    if aead.unseal(alloc, key, &exact, extra, text, &mut out)? {
        Ok(Some(Bytes::from_vec(out)))
    } else {
        Ok(None)
    }
}

/// The value that the data key opens.
fn open_value<A: Aead>(
    alloc: Global,
    aead: &A,
    extra: &[u8],
    data_key: &[u8],
    bytes: &[u8],
) -> Result<Option<Bytes>, NoMemory>
    requires key { length data_key.now ≡ 32 }
    requires long { 112 ≤ length bytes.now }
    ensures { IfOk result (λ found. found ≡ opened_value (A.opened aead.now) extra.now bytes.now data_key.now) }
{
    let mut key = [0; 32];
    key.copy_from_slice(data_key);
    unsealed(alloc, aead, extra, &key, &bytes[84..96], &bytes[96..])
}

/// The plaintext of a container, where both seals open: the data key's under the owner's key, and the
/// value's under the data key.
pub fn open_container<A: Aead>(
    alloc: Global,
    aead: &A,
    extra: &[u8],
    key: &[u8; 32],
    bytes: &[u8],
) -> Result<Option<Bytes>, NoMemory>
    requires { 112 ≤ length bytes.now }
    ensures { IfOk result (λ found. found ≡ opened_container (A.opened aead.now) extra.now key.now bytes.now) }
{
    match unsealed(alloc, aead, extra, key, &bytes[24..36], &bytes[36..84])? {
        Some(data_key) => open_value(alloc, aead, extra, data_key.as_slice(), bytes),
        None => Ok(None),
    }
}
