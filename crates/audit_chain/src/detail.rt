ghost use Rattle.std.specs.Prelude.{◌≡◌, ◌≤◌, ◌-◌, ◌++◌, ◌↔◌, length, replicate, IsSome, IfSome, true};
ghost use Rattle.std.specs.List.{list_all};
ghost use Rattle.audit_chain.specs.Details.{is_detail, is_detail_byte};

use std::marker::Model;

/// What a line says beside its kind and its client, held in place: 1 to 64 letters, digits, dots and
/// dashes.
#[derive(Clone, Copy)]
pub struct Detail {
    bytes: [u8; 64],
    len: usize,
}

impl Model for Detail {
    ghost use Rattle.std.specs.Prelude.{◌≡◌, ◌-◌, ◌++◌, List, ℕ, length, take, replicate, true};
    ghost use Rattle.acra_base.specs.Padded.{IsPadded, padded_again, len_again};
    ghost use Rattle.audit_chain.specs.Details.{is_detail};

    ghost Value = { List ℕ };

    ghost view = { λ d. take d.len d.bytes };

    ghost invariant = { λ d. IsPadded d.bytes d.len × (is_detail (take d.len d.bytes) ≡ true) };

    ghost inverse = { λ text. record { bytes = text ++ replicate (64 - length text) 0; len = length text } };

    ghost inverse_ok = { λ d h i. record {
      bytes = padded_again d.bytes d.len h.0 i;
      len = len_again d.bytes d.len h.0 i;
    } };
}

fn is_detail_byte(byte: u8) -> bool
    ensures { result ≡ is_detail_byte byte }
{
    matches!(byte, b'a'..=b'z' | b'A'..=b'Z' | b'0'..=b'9' | b'.' | b'-')
}

fn padded(text: &[u8]) -> [u8; 64]
    requires { length text.now ≤ 64 }
    ensures { result ≡ text.now ++ replicate (64 - length text.now) 0 }
{
    let mut bytes = [0; 64];
    bytes[..text.len()].copy_from_slice(text);
    bytes
}

fn are_detail_bytes(text: &[u8]) -> bool
    ensures { result ≡ list_all is_detail_byte text.now }
{
    text.iter().all(|byte| is_detail_byte(*byte))
}

fn is_detail(text: &[u8]) -> bool
    ensures { result ≡ is_detail text.now }
{
    if text.is_empty() {
        return false;
    }
    if text.len() > 64 {
        return false;
    }
    are_detail_bytes(text)
}

impl Detail {
    /// The detail that the text spells, where it is one.
    pub fn read(text: &[u8]) -> Option<Detail>
        ensures found { IsSome result ↔ (is_detail text.now ≡ true) }
        ensures value { IfSome result (λ detail. detail ≡ text.now) }
    {
        if !is_detail(text) {
            return None;
        }
        Some(Detail {
            bytes: padded(text),
            len: text.len(),
        })
    }

    /// Its bytes.
    pub fn text(&self) -> &[u8]
        ensures value { result.now ≡ self.now }
        ensures detail { is_detail self.now ≡ true }
    {
        &self.bytes[..self.len]
    }
}
