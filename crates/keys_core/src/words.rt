ghost use Rattle.std.specs.Prelude.{◌≡◌, map, string_bytes};
ghost use Rattle.keys_core.specs.Words.{one_word, with_id, with_key, asked};

use acra_base::ClientId;
use command_words::{read_client, read_number};

/// What the words ask.
#[derive(Clone, Copy)]
pub enum Ask {
    /// A new client with its first key.
    Generate(ClientId),
    /// All keys.
    ListKeys,
    /// A swept key's end.
    Destroy(ClientId, u64),
    /// How many clients and keys there are.
    Check,
}

fn one_word(word: &str) -> Option<Ask>
    ensures { result ≡ one_word word.now }
{
    if word == "list" {
        return Some(Ask::ListKeys);
    }
    if word == "check" {
        return Some(Ask::Check);
    }
    None
}

fn with_id(word: &str, name: &str) -> Option<Ask>
    ensures { result ≡ with_id word.now name.now }
{
    if word != "generate" {
        return None;
    }
    match read_client(name) {
        Some(client) => Some(Ask::Generate(client)),
        None => None,
    }
}

fn with_key(word: &str, name: &str, digits: &str) -> Option<Ask>
    ensures { result ≡ with_key word.now name.now digits.now }
{
    if word != "destroy" {
        return None;
    }
    match read_client(name) {
        None => None,
        Some(client) => match read_number(digits) {
            Some(id) => Some(Ask::Destroy(client, id)),
            None => None,
        },
    }
}

/// What the words after the program's name ask.
pub fn ask_of(words: &[String]) -> Option<Ask>
    ensures { result ≡ asked (map string_bytes words.now) }
{
    match words {
        [_, word] => one_word(word.as_str()),
        [_, word, name] => with_id(word.as_str(), name.as_str()),
        [_, word, name, digits] => with_key(word.as_str(), name.as_str(), digits.as_str()),
        _ => None,
    }
}
