ghost use Rattle.std.specs.Prelude.{◌≡◌, MatchOption};
ghost use Rattle.acra_base.specs.Client.{IsClientId};
ghost use Rattle.command_words.specs.Clients.{client_of};

use acra_base::ClientId;

/// The client of this name, where the word is one.
pub fn read_client(word: &str) -> Option<ClientId>
    ensures exact { result ≡ client_of word.now }
    ensures named { MatchOption result (IsClientId word.now → ⊥) (λ client. (client ≡ word.now) × IsClientId word.now) }
{
    match ClientId::read(word.as_bytes()) {
        Ok(client) => Some(client),
        Err(_) => None,
    }
}
