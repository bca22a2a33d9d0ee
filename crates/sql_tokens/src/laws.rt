ghost use Rattle.std.specs.Prelude.{◌≡◌, List, ℕ, Option};
ghost use Rattle.sql_tokens.specs.declared.token.Placed.{Placed};
ghost use Rattle.sql_tokens.specs.Lexing.{Lexes};

/// A text has one lexing: its tokens with their places, and the place of its first fault.
pub fn one_lexing()
    ensures same { (at : ℕ) (text : List ℕ) (a b : List Placed) (f g : Option ℕ) → Lexes at text a f → Lexes at text b g → (a ≡ b) × (f ≡ g) }
{}
