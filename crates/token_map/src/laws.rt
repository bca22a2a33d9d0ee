//! What holds of lists of tokens, and of the number that is given out next.
ghost use Rattle.std.specs.Prelude.{◌≡◌, ℕ, List, [], ◌∷◌, ◌++◌, Some, None, true, false};
ghost use Rattle.acra_base.specs.declared.kind.ValueKind.{ValueKind};
ghost use Rattle.token_rule.specs.Rule.{Want};
ghost use Rattle.token_rule.specs.Entries.{Entry, is_token, is_taken, is_standing, entry_of, standing_token, IsFirstFree};

/// From one start there is one first number that no token of the kind has.
pub fn one_first_free()
    ensures { (entries : List Entry) (kind : ValueKind) (start number other : ℕ) → IsFirstFree entries kind start number → IsFirstFree entries kind start other → number ≡ other }
{}

/// A token that is put behind the others, where none stands yet, is the one that is found.
pub fn added_is_found()
    ensures entry { (entries : List Entry) (e : Entry) → is_taken entries e.want.kind e.token ≡ false → entry_of (entries ++ e ∷ []) e.want.kind e.token ≡ Some e }
    ensures standing { (entries : List Entry) (e : Entry) → e.want.consistent ≡ true → standing_token entries e.want ≡ None → standing_token (entries ++ e ∷ []) e.want ≡ Some e.token }
{}

/// Tokens that are put behind others leave what is found of them, and a token leaves what is found of other tokens
/// and other values.
pub fn added_leaves()
    ensures entry { (entries more : List Entry) (kind : ValueKind) (token : ℕ) (found : Entry) → entry_of entries kind token ≡ Some found → entry_of (entries ++ more) kind token ≡ Some found }
    ensures standing { (entries more : List Entry) (w : Want) (found : ℕ) → standing_token entries w ≡ Some found → standing_token (entries ++ more) w ≡ Some found }
    ensures other_entries { (entries : List Entry) (e : Entry) (kind : ValueKind) (token : ℕ) → is_token kind token e ≡ false → entry_of (entries ++ e ∷ []) kind token ≡ entry_of entries kind token }
    ensures other_standing { (entries : List Entry) (e : Entry) (w : Want) → is_standing w e ≡ false → standing_token (entries ++ e ∷ []) w ≡ standing_token entries w }
{}
