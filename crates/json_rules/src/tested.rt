//! Settings whose rules are tested place by place, and the search for the refusal that comes first.
ghost use Rattle.std.specs.Prelude.{◌≡◌, ◌<◌, ◌≤◌, ℕ, Bool, false, MatchOption};
ghost use Rattle.json_rules.specs.declared.place.Place.{Place};
ghost use Rattle.json_rules.specs.declared.place.Place.TheVariants.{Text, Part, Entry};
ghost use Rattle.json_rules.specs.Places.{IsFirst};
ghost use Rattle.json_rules.specs.Found.{FirstEntry, FoundIn, AreUnbroken, IsLeastOf};

use crate::place::{Broken, Place};

/// What a text of settings says, and the tests of its rules. No rule is broken at a part or an entry that isn't there.
pub trait Tested {
    ghost broken: { Self → ℕ → Place → Bool };

    ghost parts: { Self → ℕ };

    ghost entries: { Self → ℕ → ℕ };

    /// How many parts there are.
    fn part_count(&self) -> usize
        ensures { result ≡ parts self.now };

    /// How many entries a part has.
    fn entry_count(&self, part: usize) -> usize
        requires { part < parts self.now }
        ensures { result ≡ entries self.now part };

    /// Whether the text as a whole breaks a rule.
    fn text_breaks(&self, rule: u8) -> bool
        ensures { result ≡ broken self.now rule Text };

    /// Whether a part breaks a rule.
    fn part_breaks(&self, rule: u8, part: usize) -> bool
        requires { part < parts self.now }
        ensures { result ≡ broken self.now rule (Part part) };

    /// Whether an entry of a part breaks a rule.
    fn entry_breaks(&self, rule: u8, part: usize, entry: usize) -> bool
        requires part { part < parts self.now }
        requires entry { entry < entries self.now part }
        ensures { result ≡ broken self.now rule (Entry part entry) };

    ghost no_part: { (s : Self) (rule i : ℕ) → parts s ≤ i → broken s rule (Part i) ≡ false };

    ghost no_entries: { (s : Self) (rule i j : ℕ) → parts s ≤ i → broken s rule (Entry i j) ≡ false };

    ghost no_entry: { (s : Self) (rule i j : ℕ) → i < parts s → entries s i ≤ j → broken s rule (Entry i j) ≡ false };
}

/// The first entry of a part that breaks a rule.
fn first_entry<S: Tested>(settings: &S, rule: u8, part: usize) -> Option<usize>
    requires { part < S.parts settings.now }
    ensures { FirstEntry (S.broken settings.now rule) part result }
{
    'each: for entry in 0..settings.entry_count(part) {
        if settings.entry_breaks(rule, part, entry) {
            return Some(entry);
        }
    }
    None
}

/// The first place of one part that breaks a rule.
fn first_in<S: Tested>(settings: &S, rule: u8, part: usize) -> Option<Place>
    requires { part < S.parts settings.now }
    ensures { FoundIn (S.broken settings.now rule) part result }
{
    if let Some(entry) = first_entry(settings, rule, part) {
        return Some(Place::Entry { part, entry });
    }
    if settings.part_breaks(rule, part) {
        return Some(Place::Part { part });
    }
    None
}

/// The first place that breaks a rule.
pub fn first_place<S: Tested>(settings: &S, rule: u8) -> Option<Place>
    ensures { MatchOption result ((q : Place) → S.broken settings.now rule q ≡ false) (IsFirst (S.broken settings.now rule)) }
{
    if settings.text_breaks(rule) {
        return Some(Place::Text);
    }
    'each: for part in 0..settings.part_count() {
        if let Some(place) = first_in(settings, rule, part) {
            return Some(place);
        }
    }
    None
}

/// The least rule from one on, and before an end, that is broken, at its first place.
pub fn first_broken<S: Tested>(settings: &S, from: u8, end: u8) -> Option<Broken>
    ensures { MatchOption result (AreUnbroken (S.broken settings.now) from end) (λ b. IsLeastOf (S.broken settings.now) from end b.rule b.place) }
{
    'each: for rule in from..end {
        if let Some(place) = first_place(settings, rule) {
            return Some(Broken { rule, place });
        }
    }
    None
}
