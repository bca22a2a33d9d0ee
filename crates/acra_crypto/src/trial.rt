ghost use Rattle.std.specs.Prelude.{◌≡◌, ℕ, ◌+◌, ◌++◌, List, length, OnOk, OnErr, IfOk};
ghost use Rattle.acra_crypto.specs.Trial.{masked, trial_seal, trial_open, trial_opens, trial_only, trial_longer};
ghost use Rattle.acra_crypto.specs.Bytes.{trial_bytes};

use crate::aead::Aead;
use acra_base::NoMemory;
use std::alloc::Global;

const TAG: [u8; 16] = [0x54; 16];

/// No cipher: each byte is xored with one of the key and one of the nonce, and 16 fixed bytes follow.
/// It keeps nothing secret, and serves tests and first runs.
#[derive(Clone, Copy, Debug)]
pub struct TrialAead;

fn masked_copy(
    alloc: Global,
    key: &[u8; 32],
    nonce: &[u8; 12],
    plain: &[u8],
) -> Result<Vec<u8>, NoMemory>
    ensures { IfOk result (λ v. v.items ≡ masked key.now nonce.now 0 plain.now) }
{
    let mut out = Vec::new(alloc);
    for i in 0..plain.len() {
        out.push(plain[i] ^ key[i % 32] ^ nonce[i % 12])?;
    }
    Ok(out)
}

impl Aead for TrialAead {
    ghost sealed = { λ _ key nonce _ plain. trial_seal key nonce plain };

    ghost opened = { λ _ key nonce _ text. trial_open key nonce text };

    ghost opens = { λ _ key nonce _ p. trial_opens key nonce p };

    ghost only = { λ _ key nonce _ s p h. trial_only key nonce s p h };

    ghost in_bytes = { λ _ key nonce _ s p g n h. trial_bytes key nonce s p g n h };

    ghost longer = { λ _ key nonce _ p. trial_longer key nonce p };

    fn seal(
        &self,
        alloc: Global,
        key: &[u8; 32],
        nonce: &[u8; 12],
        _extra: &[u8],
        plain: &[u8],
        out: &mut Vec<u8>,
    ) -> Result<(), NoMemory> {
        let mut text = masked_copy(alloc, key, nonce, plain)?;
        text.extend_from_slice(&TAG)?;
        out.extend_from_slice(&text)?;
        Ok(())
    }

    fn unseal(
        &self,
        alloc: Global,
        key: &[u8; 32],
        nonce: &[u8; 12],
        _extra: &[u8],
        text: &[u8],
        out: &mut Vec<u8>,
    ) -> Result<bool, NoMemory> {
        let (body, tag) = text.split_at(text.len().saturating_sub(16));
        if tag != TAG.as_slice() {
            return Ok(false);
        }
        let plain = masked_copy(alloc, key, nonce, body)?;
        out.extend_from_slice(&plain)?;
        Ok(true)
    }
}
