//! How the lines of the log are spelled, and how the note of one is read.

ghost use Rattle.std.specs.Prelude.{◌≡◌, ◌<◌, ◌^◌, ℕ, List, ◌∷◌, ◌++◌, Option, Some, IfOk, OnOk, IfSome, IsSomeAnd, true, position};
ghost use Rattle.std.specs.List.{list_all};
ghost use Rattle.acra_base.specs.Client.{IsClientId};
ghost use Rattle.audit_chain.specs.Lines.{client_word, IsNote, note_text, line_of, is_within, is_space};
ghost use Rattle.audit_chain.specs.Words.{AreWords};

use crate::detail::Detail;
use crate::kind::NoteKind;
use crate::note::Note;
use acra_base::{ClientId, NoMemory};
use itoa::Buffer;
use std::alloc::Global;

fn client_word(client: &Option<ClientId>) -> &[u8]
    ensures value { result.now ≡ client_word client.now }
    ensures id { IfSome client.now IsClientId }
{
    match client {
        None => b"-",
        Some(client) => {
            client.is_spelled();
            client.text()
        }
    }
}

fn write_word(text: &mut Vec<u8>, word: &[u8]) -> Result<(), NoMemory>
    ensures { OnOk result (text.new.items ≡ text.old.items ++ 32 ∷ word.now) }
{
    text.push(b' ')?;
    text.extend_from_slice(word)?;
    Ok(())
}

/// The text of the line that has this number and says this note.
pub fn note_text(alloc: Global, number: u64, note: &Note) -> Result<Vec<u8>, NoMemory>
    ensures value { IfOk result (λ text. text.items ≡ note_text number note.now) }
    ensures formed { OnOk result (IsNote note.now) }
{
    let client = client_word(&note.client);
    let detail = note.detail.text();
    let mut buffer = Buffer::new();
    let mut text = Vec::from_slice(alloc, buffer.format(number).as_bytes())?;
    write_word(&mut text, note.kind.word())?;
    write_word(&mut text, client)?;
    write_word(&mut text, detail)?;
    Ok(text)
}

/// A text with its mac.
pub fn with_mac(alloc: Global, text: Vec<u8>, mac: &[u8; 32]) -> Result<Vec<u8>, NoMemory>
    ensures { IfOk result (λ line. line.items ≡ line_of text.items mac.now) }
{
    let digits = hex::encode(alloc, mac)?;
    let mut line = text;
    write_word(&mut line, digits.as_bytes())?;
    Ok(line)
}

fn first_space(text: &[u8]) -> Option<usize>
    ensures { result ≡ position is_space text.now }
{
    text.iter().position(|byte| *byte == b' ')
}

// The word before the first space, and what follows that space.
fn split_word(text: &[u8]) -> Option<(&[u8], &[u8])>
    ensures { (word rest : List ℕ) → list_all is_within word ≡ true → text.now ≡ word ++ 32 ∷ rest → IsSomeAnd result (λ parts. (parts.0.now ≡ word) × (parts.1.now ≡ rest)) }
{
    match first_space(text) {
        None => None,
        Some(at) => Some((&text[..at], &text[at + 1..])),
    }
}

#[derive(Clone, Copy)]
struct Words<'a> {
    kind: &'a [u8],
    client: &'a [u8],
    detail: &'a [u8],
}

// The words of a line between its number and its mac.
fn words_of(line: &[u8]) -> Option<Words<'_>>
    ensures { (number : ℕ) (note : Note) (mac : List ℕ) → number < 2 ^ 64 → IsNote note → line.now ≡ line_of (note_text number note) mac → IsSomeAnd result (λ words. AreWords words note) }
{
    let (_, rest) = split_word(line)?;
    let (kind, rest) = split_word(rest)?;
    let (client, rest) = split_word(rest)?;
    let (detail, _) = split_word(rest)?;
    Some(Words {
        kind,
        client,
        detail,
    })
}

fn read_client(word: &[u8]) -> Option<Option<ClientId>>
    ensures { (client : Option (List ℕ)) → IfSome client IsClientId → word.now ≡ client_word client → result ≡ Some client }
{
    if word == b"-".as_slice() {
        return Some(None);
    }
    match ClientId::read(word) {
        Ok(client) => Some(Some(client)),
        Err(_) => None,
    }
}

/// The note that a line says, whatever its number and its mac are.
pub fn read_note(line: &[u8]) -> Option<Note>
    ensures { (number : ℕ) (note : Note) (mac : List ℕ) → number < 2 ^ 64 → IsNote note → line.now ≡ line_of (note_text number note) mac → result ≡ Some note }
{
    let words = words_of(line)?;
    let kind = NoteKind::read(words.kind)?;
    let client = read_client(words.client)?;
    let detail = Detail::read(words.detail)?;
    Some(Note {
        kind,
        client,
        detail,
    })
}
