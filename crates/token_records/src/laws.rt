//! What holds of records.
ghost use Rattle.std.specs.Prelude.{◌≡◌, ℕ, List};
ghost use Rattle.token_rule.specs.Rule.{Want};
ghost use Rattle.token_records.specs.Records.{IsRecord};

use acra_crypto::Aead;

/// The same bytes are the record of one token.
pub fn one_record<A: Aead>(_aead: &A)
    ensures { (store_key bytes : List ℕ) (want other : Want) (serial later token another : ℕ)
        → IsRecord (A.sealed _aead.now) store_key bytes want serial token → IsRecord (A.sealed _aead.now) store_key bytes other later another
        → (want ≡ other) × (serial ≡ later) × (token ≡ another) }
{}
