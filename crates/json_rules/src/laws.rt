//! What holds of places and of the rules that are broken there.
ghost use Rattle.std.specs.Prelude.{◌≡◌, ◌↔◌, ℕ, Bool};
ghost use Rattle.json_rules.specs.Places.{IsBefore, IsLeast, IsUnbroken};
ghost use Rattle.json_rules.specs.Order.{IsLess, IsOfPart};
ghost use Rattle.json_rules.specs.declared.place.Place.{Place};
ghost use Rattle.json_rules.specs.declared.place.Place.TheVariants.{Text};

/// Places come in the order of the two numbers by which a refusal names them, of which 65535 is the
/// last. The text as a whole, which has neither number, comes before its parts.
pub fn places_by_numbers()
    ensures parts { (p : Place) (q : Place) → IsOfPart p → IsOfPart q → IsBefore p q ↔ IsLess p q }
    ensures text { (q : Place) → IsOfPart q → IsBefore Text q }
{}

/// There is one least rule that is broken, at one first place, or none is broken anywhere.
pub fn one_least()
    ensures one { (broken : ℕ → Place → Bool) (rule other : ℕ) (place elsewhere : Place) → IsLeast broken rule place → IsLeast broken other elsewhere → (rule ≡ other) × (place ≡ elsewhere) }
    ensures none { (broken : ℕ → Place → Bool) (rule : ℕ) (place : Place) → IsLeast broken rule place → IsUnbroken broken → ⊥ }
{}
