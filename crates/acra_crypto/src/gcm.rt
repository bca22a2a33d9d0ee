// AES-256-GCM (NIST SP 800-38D).

ghost use Rattle.std.specs.Prelude.{◌≡◌, ℕ, ◌+◌, ◌++◌, List, length, OnOk, OnErr, IfOk};
ghost use Rattle.std.specs.Int.{w32, to_be_bytes};
ghost use Rattle.acra_crypto.specs.Seal.{Unseals};
ghost use Rattle.acra_crypto.specs.Aes.{aes256, key_schedule, encrypted};
ghost use Rattle.acra_crypto.specs.Words.{bytes_of};
ghost use Rattle.acra_crypto.specs.Gcm.{aes256_gcm, aes256_gcm_opened, gctr, tag};
ghost use Rattle.acra_crypto.specs.Sealed.{gcm_only, gcm_opens, length-gcm_sealed};
ghost use Rattle.acra_crypto.specs.Bytes.{gcm_bytes};

use crate::aead::Aead;
use crate::aes::RoundKeys;
use crate::counter::{add_keystream, add_mask, counter_block, is_same_tag};
use crate::ghash::HashKey;
use acra_base::NoMemory;
use std::alloc::Global;

const TAG_LEN: usize = 16;

/// The tag of a ciphertext and of what is authenticated beside it.
fn tag(keys: &RoundKeys, nonce: &[u8; 12], extra: &[u8], text: &[u8]) -> [u8; TAG_LEN]
    ensures { result ≡ tag (encrypted (bytes_of keys.now.words)) nonce.now extra.now text.now }
{
    let key = HashKey::new(u128::from_be_bytes(keys.encrypt(&[0; 16])));
    let hash = key.absorb(key.absorb(0, extra), text);
    let mut tag = key.absorb_lengths(hash, extra, text).to_be_bytes();
    add_mask(&mut tag, &keys.encrypt(&counter_block(nonce, 1)));
    tag
}

/// A copy of a string with the keystream added.
fn masked_copy(
    alloc: Global,
    keys: &RoundKeys,
    nonce: &[u8; 12],
    bytes: &[u8],
) -> Result<Vec<u8>, NoMemory>
    ensures { IfOk result (λ copy. copy.items ≡ gctr (encrypted (bytes_of keys.now.words)) (nonce.now ++ to_be_bytes w32 2) bytes.now) }
{
    let mut copy = Vec::with_capacity(alloc, bytes.len() + TAG_LEN)?;
    copy.extend_from_slice(bytes)?;
    add_keystream(keys, nonce, &mut copy);
    Ok(copy)
}

/// AES-256 in Galois counter mode, with nonces of 96 bits and tags of 128 (NIST SP 800-38D).
///
/// A seal is the ciphertext and its tag. A nonce serves one seal under a key. The standard gives
/// values of up to 2^36 - 32 bytes a seal; a longer one is sealed by the same steps, with a count
/// of blocks that goes round.
#[derive(Clone, Copy, Debug)]
pub struct Aes256Gcm;

impl Aead for Aes256Gcm {
    ghost sealed = { λ _ key nonce extra plain. aes256_gcm key nonce extra plain };

    ghost opened = { λ _ key nonce extra text. aes256_gcm_opened key nonce extra text };

    ghost opens = { λ _ key nonce extra plain. gcm_opens (aes256 key) nonce extra plain };

    ghost only = { λ _ key nonce extra text plain h. gcm_only (aes256 key) nonce extra text plain h };

    ghost in_bytes = { λ _ key nonce extra text plain g n h. gcm_bytes key nonce extra text plain g h };

    ghost longer = { λ _ key nonce extra plain. length-gcm_sealed (aes256 key) nonce extra plain };

    fn seal(
        &self,
        alloc: Global,
        key: &[u8; 32],
        nonce: &[u8; 12],
        extra: &[u8],
        plain: &[u8],
        out: &mut Vec<u8>,
    ) -> Result<(), NoMemory> {
        let keys = RoundKeys::new(key);
        let mut text = masked_copy(alloc, &keys, nonce, plain)?;
        let tag = tag(&keys, nonce, extra, &text);
        text.extend_from_slice(&tag)?;
        out.extend_from_slice(&text)?;
        Ok(())
    }

    fn unseal(
        &self,
        alloc: Global,
        key: &[u8; 32],
        nonce: &[u8; 12],
        extra: &[u8],
        text: &[u8],
        out: &mut Vec<u8>,
    ) -> Result<bool, NoMemory> {
        if text.len() < TAG_LEN {
            return Ok(false);
        }
        let (body, given) = text.split_at(text.len() - TAG_LEN);
        let keys = RoundKeys::new(key);
        if !is_same_tag(given, &tag(&keys, nonce, extra, body)) {
            return Ok(false);
        }
        let plain = masked_copy(alloc, &keys, nonce, body)?;
        out.extend_from_slice(&plain)?;
        Ok(true)
    }
}
