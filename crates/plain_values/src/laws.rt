//! What holds of the definitions of values.
ghost use Rattle.std.specs.Prelude.{◌≡◌, List, ℕ};
ghost use Rattle.plain_values.specs.Values.{IsCanonical, canonical, canonical_binary, plain, text_spelling, binary_spelling};

use acra_base::ValueKind;

/// What is spelled for a client reads back as the plaintext: from text form, and from binary form
/// where the client declares no type.
pub fn spelled_again(kind: ValueKind, value: &[u8])
    requires { IsCanonical kind value.now }
    ensures text { canonical kind (text_spelling kind value.now) ≡ plain value.now }
    ensures binary { canonical_binary kind 0 (binary_spelling kind value.now) ≡ plain value.now }
{}

/// What is read of a text, or of a binary value of any declared type, is canonical.
pub fn read_is_canonical(kind: ValueKind, declared: u32, value: &[u8])
    ensures text { (p : List ℕ) → canonical kind value.now ≡ plain p → IsCanonical kind p }
    ensures binary { (p : List ℕ) → canonical_binary kind declared value.now ≡ plain p → IsCanonical kind p }
{}
