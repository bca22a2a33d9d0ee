//! What holds of the definitions of a policy's text.
ghost use Rattle.std.specs.Prelude.{◌≡◌, List};
ghost use Rattle.enc_config.specs.Reads.{IsPolicy, IsRefusal};
ghost use Rattle.enc_config.specs.declared.policy.Table.{Table};
ghost use Rattle.enc_config.specs.declared.read.ConfigRefusal.{ConfigRefusal};

/// A text has one answer: no second policy, no second refusal, and not both.
pub fn one_answer(text: &[u8])
    ensures policy { (p : List Table) (q : List Table) → IsPolicy text.now p → IsPolicy text.now q → p ≡ q }
    ensures refusal { (a : ConfigRefusal) (b : ConfigRefusal) → IsRefusal text.now a → IsRefusal text.now b → a ≡ b }
    ensures either { (p : List Table) (a : ConfigRefusal) → IsPolicy text.now p → IsRefusal text.now a → ⊥ }
{}
