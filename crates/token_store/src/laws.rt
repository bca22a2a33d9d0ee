//! What holds of stores over many calls.
ghost use Rattle.std.specs.Prelude.{◌≡◌, ℕ, List, [], ◌∷◌, ◌++◌, Some, None, true};
ghost use Rattle.acra_base.specs.declared.kind.ValueKind.{ValueKind};
ghost use Rattle.token_rule.specs.Rule.{Want};
ghost use Rattle.token_rule.specs.Entries.{Entry, entry_of};
ghost use Rattle.token_store.specs.Stores.{Store, standing_in, Makes};
ghost use Rattle.token_store.specs.Loading.{IsNextRecord, Loads, IsBadAt};

use acra_crypto::Aead;

/// A token that is made is told from then on for the value that it was made for, and for that alone; where equal values
/// share one, the value keeps it.
pub fn made_is_told()
    ensures entry { (s t : Store) (w : Want) (token : ℕ) → Makes s t w token → entry_of t.entries w.kind token ≡ Some (record { want = w; token = token }) }
    ensures standing { (s t : Store) (w : Want) (token : ℕ) → Makes s t w token → w.consistent ≡ true → standing_in s w ≡ None → standing_in t w ≡ Some token }
{}

/// What is told of a token, and the token that a value has, stay whatever tokens are made afterwards.
pub fn tokens_stay<A: Aead>(_aead: &A)
    ensures entry { (s t : Store) (pieces : List (List ℕ)) (kind : ValueKind) (token : ℕ) (found : Entry) → Loads (A.sealed _aead.now) s pieces t → entry_of s.entries kind token ≡ Some found → entry_of t.entries kind token ≡ Some found }
    ensures standing { (s t : Store) (pieces : List (List ℕ)) (w : Want) (token : ℕ) → Loads (A.sealed _aead.now) s pieces t → standing_in s w ≡ Some token → standing_in t w ≡ Some token }
{}

/// Records lead from a store to one store at most; those that lead on are behind them; and where they lead to none, there is
/// one first record that is not the next.
pub fn one_store<A: Aead>(_aead: &A)
    ensures same { (s t u : Store) (pieces : List (List ℕ)) → Loads (A.sealed _aead.now) s pieces t → Loads (A.sealed _aead.now) s pieces u → t ≡ u }
    ensures more { (s t u : Store) (pieces : List (List ℕ)) (piece : List ℕ) → Loads (A.sealed _aead.now) s pieces t → IsNextRecord (A.sealed _aead.now) t u piece → Loads (A.sealed _aead.now) s (pieces ++ piece ∷ []) u }
    ensures none { (s t : Store) (pieces : List (List ℕ)) (index : ℕ) → Loads (A.sealed _aead.now) s pieces t → IsBadAt (A.sealed _aead.now) s pieces index → ⊥ }
    ensures first { (s : Store) (pieces : List (List ℕ)) (index other : ℕ) → IsBadAt (A.sealed _aead.now) s pieces index → IsBadAt (A.sealed _aead.now) s pieces other → index ≡ other }
{}
