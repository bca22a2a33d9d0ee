ghost use Rattle.std.specs.Prelude.{◌≡◌, ◌++◌, ℕ, List, Some, length, OnOk, OnErr, IfOk, nat_eq};
ghost use Rattle.std.specs.Cmp.Lexicographic.{pointwise};
ghost use Rattle.keystore.specs.Kept.{IsKept};
ghost use Rattle.keystore.specs.Rings.{RingState};
ghost use Rattle.ring_file.specs.Form.{mark, ring_body, ring_file, IsFileRing};
ghost use Rattle.ring_file.specs.Files.{file_body, IsReadBody, IsReadFile, IsPlaced, SpellsRing, ReadsAs};

use crate::body::ring_of;
use crate::writing::body_of;
use acra_base::{Bytes, NoMemory};
use acra_crypto::Aead;
use byte_reader::Unread;
use keystore::Ring;
use std::alloc::Global;
use thiserror::Error;

/// What a ring's file begins with, `AKR1`. The seal is bound to it.
const MARK: [u8; 4] = *b"AKR1";

/// Why a file gives no ring.
#[derive(Clone, Copy, Debug, PartialEq, Eq, Error)]
pub enum RingFault {
    /// It begins otherwise, or the master key doesn't open it.
    #[error("it does not open with this master key")]
    NotSealed,
    /// It opens, and what is in it is no ring: at this place of the sealed body, counted from 0, stands the first
    /// field that can't be so by its own rules and the fields before it.
    #[error("its content is no ring, at byte {place}")]
    BadForm { place: usize },
    /// There was no memory for the ring.
    #[error("out of memory")]
    NoMemory,
}

/// Appends the file of a ring, sealed under the master key with the drawn bytes as its nonce. The tickets aren't
/// part of it. Without memory `out` stays.
pub fn write_ring<A: Aead>(
    alloc: Global,
    aead: &A,
    ring: &Ring,
    master: &[u8; 32],
    draws: &[u8; 12],
    out: &mut Vec<u8>,
) -> Result<(), NoMemory>
    ensures ok { OnOk result (out.new.items ≡ out.old.items ++ ring_file (A.sealed aead.now) master.now draws.now ring.now) }
    ensures err { OnErr result (out.new.items ≡ out.old.items) }
    ensures kept { OnOk result (IsKept ring.now) }
{
    let body = body_of(alloc, ring)?;
    let mut file = Vec::new(alloc);
    file.extend_from_slice(&MARK)?;
    file.extend_from_slice(draws)?;
    aead.seal(alloc, master, draws, &MARK, &body, &mut file)?;
    out.extend_from_slice(&file)?;
    Ok(())
}

/// What the master key opens.
fn unsealed<A: Aead>(
    alloc: Global,
    aead: &A,
    master: &[u8; 32],
    nonce: &[u8],
    text: &[u8],
) -> Result<Option<Bytes>, NoMemory>
    requires { length nonce.now ≡ 12 }
    ensures { IfOk result (λ found. found ≡ A.opened aead.now master.now nonce.now mark text.now) }
{
    let mut exact = [0; 12];
    exact.copy_from_slice(nonce);
    let mut body = Vec::new(alloc);
    if aead.unseal(alloc, master, &exact, &MARK, text, &mut body)? {
        Ok(Some(Bytes::from_vec(body)))
    } else {
        Ok(None)
    }
}

/// The sealed body of a file, where the master key opens it.
fn opened_body<A: Aead>(
    alloc: Global,
    aead: &A,
    bytes: &[u8],
    master: &[u8; 32],
) -> Result<Option<Bytes>, NoMemory>
    ensures { IfOk result (λ found. found ≡ file_body (A.opened aead.now) master.now bytes.now) }
{
    if bytes.len() < 16 || &bytes[..4] != MARK.as_slice() {
        return Ok(None);
    }
    unsealed(alloc, aead, master, &bytes[4..16], &bytes[16..])
}

fn judged(alloc: Global, body: &[u8]) -> Result<Ring, RingFault>
    ensures read { IsReadBody body.now result }
    ensures place { IsPlaced body.now result }
    ensures spelled { IfOk result (λ ring. IsFileRing ring × (body.now ≡ ring_body ring)) }
{
    match ring_of(alloc, body) {
        Ok(ring) => Ok(ring),
        Err(Unread::At { left }) => Err(RingFault::BadForm {
            place: body.len().saturating_sub(left),
        }),
        Err(Unread::NoMemory) => Err(RingFault::NoMemory),
    }
}

/// The ring that a file keeps. No ticket is out, the next one is 1, and each key that isn't current drains or is
/// swept since then.
pub fn read_ring<A: Aead>(
    alloc: Global,
    aead: &A,
    bytes: &[u8],
    master: &[u8; 32],
) -> Result<Ring, RingFault>
    ensures found { IfOk result (λ ring. SpellsRing (A.sealed aead.now) master.now bytes.now ring) }
    ensures only { (r : RingState) → SpellsRing (A.sealed aead.now) master.now bytes.now r → ReadsAs result r }
    ensures exact { IsReadFile (file_body (A.opened aead.now) master.now bytes.now) result }
    ensures place { (body : List ℕ) → file_body (A.opened aead.now) master.now bytes.now ≡ Some body → IsPlaced body result }
{
    match opened_body(alloc, aead, bytes, master) {
        Ok(Some(body)) => judged(alloc, body.as_slice()),
        Ok(None) => Err(RingFault::NotSealed),
        Err(_) => Err(RingFault::NoMemory),
    }
}
