ghost use Rattle.std.specs.Prelude.{◌≡◌, ◌↔◌, [], ◌∷◌, map, string_bytes, codes};

/// What the words ask that every program answers.
#[derive(Clone, Copy, Debug, PartialEq, Eq)]
pub enum Asked {
    /// How the program is used.
    Help,
    /// Which version it is.
    Version,
    /// Nothing of these: the words are the program's own.
    Work,
}

/// Whether the words are exactly `--help` or `--version`, one word alone.
pub fn asked_by(words: &[String]) -> Asked
    ensures help { (result ≡ Asked.Help) ↔ (map string_bytes words.now ≡ codes "--help" ∷ []) }
    ensures version { (result ≡ Asked.Version) ↔ (map string_bytes words.now ≡ codes "--version" ∷ []) }
{
    match words {
        [word] => {
            if word.as_str() == "--help" {
                return Asked::Help;
            }
            if word.as_str() == "--version" {
                return Asked::Version;
            }
            Asked::Work
        }
        _ => Asked::Work,
    }
}
