ghost use Rattle.std.specs.Prelude.{◌≡◌, ℕ, ◌+◌, ◌++◌, List, length, OnOk, OnErr, IfOk, Option, Some};
ghost use Rattle.acra_crypto.specs.Seal.{Unseals};
ghost use Rattle.acra_crypto.specs.Bytes.{AreBytes};

use acra_base::NoMemory;
use std::alloc::Global;

/// An authenticated cipher with extra data: 32 bytes of key, 12 of nonce, 16 of tag.
///
/// Its meaning is two functions: the seal of a value, and the value that a seal opens to, if any.
pub trait Aead {
    /// The seal of a value, by key, nonce, extra and value.
    ghost sealed: { Self → List ℕ → List ℕ → List ℕ → List ℕ → List ℕ };

    /// What a seal opens to, by key, nonce, extra and seal.
    ghost opened: { Self → List ℕ → List ℕ → List ℕ → List ℕ → Option (List ℕ) };

    /// Appends the seal of `plain`. Without memory `out` stays.
    fn seal(
        &self,
        alloc: Global,
        key: &[u8; 32],
        nonce: &[u8; 12],
        extra: &[u8],
        plain: &[u8],
        out: &mut Vec<u8>,
    ) -> Result<(), NoMemory>
        ensures ok { OnOk result (out.new.items ≡ out.old.items ++ sealed self.now key.now nonce.now extra.now plain.now) }
        ensures err { OnErr result (out.new.items ≡ out.old.items) };

    /// Appends the value of a seal and answers true, or answers false for what is the seal of no value.
    /// Without memory, and at false, `out` stays.
    fn unseal(
        &self,
        alloc: Global,
        key: &[u8; 32],
        nonce: &[u8; 12],
        extra: &[u8],
        text: &[u8],
        out: &mut Vec<u8>,
    ) -> Result<bool, NoMemory>
        ensures ok { IfOk result (λ found. Unseals (opened self.now key.now nonce.now extra.now text.now) found out.old.items out.new.items) }
        ensures err { OnErr result (out.new.items ≡ out.old.items) };

    /// What was sealed opens to its value.
    ghost opens: { (c : Self) (k n e p : List ℕ) → opened c k n e (sealed c k n e p) ≡ Some p };

    /// What opens to a value is that value's seal.
    ghost only: { (c : Self) (k n e s p : List ℕ) → opened c k n e s ≡ Some p → s ≡ sealed c k n e p };

    /// What a seal of bytes opens to, under a key and a nonce of bytes, is bytes.
    ghost in_bytes: { (c : Self) (k n e s p : List ℕ) → AreBytes k → AreBytes n → AreBytes s → opened c k n e s ≡ Some p → AreBytes p };

    /// A seal is 16 bytes longer than its value.
    ghost longer: { (c : Self) (k n e p : List ℕ) → length (sealed c k n e p) ≡ length p + 16 };
}

/// Seals a value and unseals it again, which gives the value.
pub fn sealed_again<A: Aead>(
    alloc: Global,
    cipher: &A,
    key: &[u8; 32],
    nonce: &[u8; 12],
    plain: &[u8],
) -> Result<Option<Vec<u8>>, NoMemory>
    ensures { IfOk result (λ found. (v : _) × (found ≡ Some v) × (v.items ≡ plain.now)) }
{
    let mut text = Vec::new(alloc);
    cipher.seal(alloc, key, nonce, &[], plain, &mut text)?;
    let mut back = Vec::new(alloc);
    if cipher.unseal(alloc, key, nonce, &[], &text, &mut back)? {
        Ok(Some(back))
    } else {
        Ok(None)
    }
}
