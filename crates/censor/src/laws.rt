//! What holds of the definitions of a censor's settings.
ghost use Rattle.std.specs.Prelude.{◌≡◌, List};
ghost use Rattle.censor.specs.Reads.{IsCensor, IsRefusal};
ghost use Rattle.censor.specs.declared.handler.Handler.{Handler};
ghost use Rattle.censor.specs.declared.read.CensorRefusal.{CensorRefusal};

/// A text has one answer: no second censor, no second refusal, and not both.
pub fn one_answer(text: &[u8])
    ensures censor { (a : List Handler) (b : List Handler) → IsCensor text.now a → IsCensor text.now b → a ≡ b }
    ensures refusal { (a : CensorRefusal) (b : CensorRefusal) → IsRefusal text.now a → IsRefusal text.now b → a ≡ b }
    ensures either { (a : List Handler) (b : CensorRefusal) → IsCensor text.now a → IsRefusal text.now b → ⊥ }
{}
