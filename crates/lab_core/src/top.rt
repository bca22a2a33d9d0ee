ghost use Rattle.std.specs.Prelude.{◌≡◌, ◌↔◌, ℕ, List, map, string_bytes};
ghost use Rattle.acra_devices.specs.Causes.{Rose};
ghost use Rattle.lab_core.specs.Words.{IsSession};
ghost use Rattle.lab_core.specs.Headline.{WhereTold, Headline, IsDue, Untouched};

use crate::words::session_words;
use acra_devices::{Sink, Source};
use lab_backend::LabBackend;
use lab_session::{Status, client_ring, first_session, notes_tables};
use std::alloc::Global;

/// All that the lab does under its words, `session CLIENT SEED`: one session of the client over a backend
/// whose tables are empty, with keys and nonces drawn from a generator of the seed.
pub fn lab_top<S: Source, K: Sink>(
    alloc: Global,
    words: &[String],
    input: &mut S,
    output: &mut K,
) -> Status
    ensures usage { (result ≡ Status.Usage) ↔ ((client : List ℕ) (seed : ℕ) → IsSession (map string_bytes words.now) client seed → ⊥) }
    ensures headline { (client : List ℕ) (seed : ℕ) → IsSession (map string_bytes words.now) client seed
        → WhereTold (S.left input.old) (S.left input.new) (K.held output.old) (K.held output.new) (Headline client seed result) }
    ensures exact { (client : List ℕ) (seed : ℕ) → IsSession (map string_bytes words.now) client seed
        → WhereTold (S.left input.old) (S.left input.new) (K.held output.old) (K.held output.new) (IsDue client seed result) }
    ensures untouched { result ≡ Status.Usage → WhereTold (S.left input.old) (S.left input.new) (K.held output.old) (K.held output.new) Untouched }
    ensures read_fault { result ≡ Status.ReadFault → Rose (S.read_faults input.old) (S.read_faults input.new) }
    ensures write_fault { result ≡ Status.WriteFault → Rose (K.write_faults output.old) (K.write_faults output.new) }
{
    match session_words(words) {
        None => Status::Usage,
        Some((client, seed)) => match client_ring(alloc, &client, seed) {
            Err(_) => Status::NoMemory,
            Ok((mut ring, mut random)) => match notes_tables(alloc) {
                Err(_) => Status::NoMemory,
                Ok(tables) => {
                    let mut backend = LabBackend::new(alloc, tables);
                    first_session(
                        alloc,
                        input,
                        output,
                        &mut random,
                        &client,
                        &mut ring,
                        &mut backend,
                    )
                }
            },
        },
    }
}
