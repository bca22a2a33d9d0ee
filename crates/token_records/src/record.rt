//! Tokens' records.
ghost use Rattle.std.specs.Prelude.{◌≡◌, ◌++◌, ◌<◌, ℕ, List, length, OnOk, OnErr, IfOk, IfSome};
ghost use Rattle.token_rule.specs.Rule.{Want, number_count};
ghost use Rattle.token_records.specs.Records.{record_head, token_record, IsRecord, ReadsAs};
ghost use Rattle.token_records.specs.Reading.{Seals, shown, want_of};

use crate::front::{Front, front_of};
use crate::value::is_token_value;
use acra_base::{Bytes, ClientId, NoMemory};
use acra_crypto::Aead;
use byte_reader::Unread;
use std::alloc::Global;
use token_rule::{TokenWant, kind_byte};

/// What a token's record tells.
#[derive(Drop)]
pub struct Record {
    /// What the token stands for.
    pub want: TokenWant,
    /// How many tokens were made before it.
    pub serial: u64,
    /// The token.
    pub token: u64,
}

/// What stands before a record's nonce.
fn head_of(alloc: Global, want: &TokenWant, serial: u64, token: u64) -> Result<Bytes, NoMemory>
    ensures { IfOk result (λ head. head ≡ record_head want.now serial token) }
{
    want.owner().is_spelled();
    let owner = want.owner().text();
    let mut head = Vec::from_slice(
        alloc,
        &[
            kind_byte(want.kind()),
            u8::from(want.is_consistent()),
            owner.len() as u8,
        ],
    )?;
    head.extend_from_slice(owner)?;
    head.extend_from_slice(&serial.to_le_bytes())?;
    head.extend_from_slice(&token.to_be_bytes())?;
    Ok(Bytes::from_vec(head))
}

/// Appends the record of a token. Without memory `out` stays.
pub fn push_record<A: Aead>(
    alloc: Global,
    aead: &A,
    store_key: &[u8; 32],
    want: &TokenWant,
    serial: u64,
    token: u64,
    nonce: &[u8; 12],
    out: &mut Vec<u8>,
) -> Result<(), NoMemory>
    ensures ok { OnOk result (out.new.items ≡ out.old.items ++ token_record (A.sealed aead.now) store_key.now nonce.now want.now serial token) }
    ensures err { OnErr result (out.new.items ≡ out.old.items) }
    ensures is { OnOk result (token < number_count want.now.kind → IsRecord (A.sealed aead.now) store_key.now (token_record (A.sealed aead.now) store_key.now nonce.now want.now serial token) want.now serial token) }
{
    let head = head_of(alloc, want, serial, token)?;
    let mut text = Vec::from_slice(alloc, head.as_slice())?;
    text.extend_from_slice(nonce)?;
    aead.seal(
        alloc,
        store_key,
        nonce,
        head.as_slice(),
        want.plain(),
        &mut text,
    )?;
    out.extend_from_slice(&text)?;
    Ok(())
}

/// What a seal opens to.
fn unsealed<A: Aead>(
    alloc: Global,
    aead: &A,
    store_key: &[u8; 32],
    nonce: &[u8; 12],
    head: &[u8],
    text: &[u8],
) -> Result<Option<Bytes>, NoMemory>
    ensures { IfOk result (λ found. found ≡ A.opened aead.now store_key.now nonce.now head.now text.now) }
{
    let mut out = Vec::new(alloc);
    if aead.unseal(alloc, store_key, nonce, head, text, &mut out)? {
        Ok(Some(Bytes::from_vec(out)))
    } else {
        Ok(None)
    }
}

/// The record that a seal makes of its front.
fn judged<A: Aead>(
    alloc: Global,
    aead: &A,
    store_key: &[u8; 32],
    head: &[u8],
    front: &Front<'_>,
    text: &[u8],
) -> Result<Option<Record>, NoMemory>
    ensures found { IfOk result (λ found. IfSome found (λ r. Seals (A.sealed aead.now) store_key.now head.now text.now (shown front.now) r.want.plain
        × (r.want ≡ want_of (shown front.now) r.want.plain) × (r.serial ≡ front.now.serial) × (r.token ≡ front.now.token))) }
    ensures only { (plain : List ℕ) → Seals (A.sealed aead.now) store_key.now head.now text.now (shown front.now) plain → ReadsAs result (want_of (shown front.now) plain) front.now.serial front.now.token }
{
    let Ok(owner) = ClientId::read(front.owner) else {
        return Ok(None);
    };
    let Some(plain) = unsealed(alloc, aead, store_key, &front.nonce, head, text)? else {
        return Ok(None);
    };
    if !is_token_value(front.kind, plain.as_slice()) {
        return Ok(None);
    }
    Ok(Some(Record {
        want: TokenWant::new(front.kind, owner, plain, front.consistent),
        serial: front.serial,
        token: front.token,
    }))
}

/// The token of a record, `None` exactly where the bytes are the record of none.
pub fn read_record<A: Aead>(
    alloc: Global,
    aead: &A,
    store_key: &[u8; 32],
    bytes: &[u8],
) -> Result<Option<Record>, NoMemory>
    ensures found { IfOk result (λ found. IfSome found (λ r. IsRecord (A.sealed aead.now) store_key.now bytes.now r.want r.serial r.token)) }
    ensures only { (want : Want) (serial token : ℕ) → IsRecord (A.sealed aead.now) store_key.now bytes.now want serial token → ReadsAs result want serial token }
{
    match front_of(bytes) {
        Ok((front, text)) => judged(
            alloc,
            aead,
            store_key,
            &bytes[..19 + front.owner.len()],
            &front,
            text,
        ),
        Err(Unread::At { .. }) => Ok(None),
        Err(Unread::NoMemory) => Err(NoMemory),
    }
}
