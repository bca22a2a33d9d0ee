ghost use Rattle.std.specs.Prelude.{◌≡◌, ℕ, List, map, string_bytes, MatchOption};
ghost use Rattle.lab_core.specs.Words.{IsSession};

use acra_base::ClientId;
use command_words::{read_client, read_number};

/// The client and the seed of the words `session CLIENT SEED`.
pub fn session_words(words: &[String]) -> Option<(ClientId, u64)>
    ensures { MatchOption result ((client : List ℕ) (seed : ℕ) → IsSession (map string_bytes words.now) client seed → ⊥)
        (λ found. IsSession (map string_bytes words.now) found.0 found.1) }
{
    if words.len() != 3 {
        return None;
    }
    if words[0].as_str() != "session" {
        return None;
    }
    match read_client(words[1].as_str()) {
        None => None,
        Some(client) => match read_number(words[2].as_str()) {
            None => None,
            Some(seed) => Some((client, seed)),
        },
    }
}
