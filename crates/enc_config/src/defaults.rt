//! The default value of an entry.
ghost use Rattle.std.specs.Prelude.{◌≡◌, IfOk, Option, Some, None, option_and_then, option_map, length};
ghost use Rattle.base64.specs.Engines.{standard};
ghost use Rattle.base64.specs.GeneralPurpose.{decoded_of};
ghost use Rattle.plain_values.specs.Values.{canonical};
ghost use Rattle.enc_config.specs.Defaults.{short_default, plain_of, default_of};

use acra_base::{Bytes, NoMemory, ValueKind};
use base64::DecodeAllocError;
use base64::engine::general_purpose::STANDARD;
use plain_values::{ValueRefusal, canonical_text};
use std::alloc::Global;

/// The bytes, where they are at most 1,024.
fn short_default(bytes: Vec<u8>) -> Option<Bytes>
    ensures { result ≡ short_default bytes.items }
{
    if bytes.len() <= 1024 {
        Some(Bytes::from_vec(bytes))
    } else {
        None
    }
}

fn decoded_default(alloc: Global, text: &[u8]) -> Result<Option<Bytes>, NoMemory>
    ensures { IfOk result (λ o. o ≡ option_and_then short_default (decoded_of standard text.now)) }
{
    match STANDARD.decode(alloc, text) {
        Ok(bytes) => Ok(short_default(bytes)),
        Err(DecodeAllocError::OutOfMemory) => Err(NoMemory),
        Err(DecodeAllocError::DecodeError(_)) => Ok(None),
    }
}

fn canonical_default(alloc: Global, kind: ValueKind, text: &[u8]) -> Result<Option<Bytes>, NoMemory>
    ensures { IfOk result (λ o. o ≡ option_and_then short_default (plain_of (canonical kind text.now))) }
{
    let mut plain = Vec::new(alloc);
    match canonical_text(alloc, kind, text, &mut plain) {
        Ok(()) => Ok(short_default(plain)),
        Err(ValueRefusal::NoMemory) => Err(NoMemory),
        Err(_) => Ok(None),
    }
}

fn default_of(alloc: Global, kind: ValueKind, text: &[u8]) -> Result<Option<Bytes>, NoMemory>
    ensures { IfOk result (λ o. o ≡ default_of kind text.now) }
{
    match kind {
        ValueKind::Bytes => decoded_default(alloc, text),
        ValueKind::Str | ValueKind::Int32 | ValueKind::Int64 => {
            canonical_default(alloc, kind, text)
        }
    }
}

/// The plaintext that an entry's default stands for.
pub(crate) fn default_plain(
    alloc: Global,
    kind: ValueKind,
    text: &Option<Bytes>,
) -> Result<Option<Bytes>, NoMemory>
    ensures { IfOk result (λ o. o ≡ option_and_then (default_of kind) text.now) }
{
    match text {
        Some(text) => default_of(alloc, kind, text.as_slice()),
        None => Ok(None),
    }
}
