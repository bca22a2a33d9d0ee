ghost use Rattle.std.specs.Prelude.{◌≡◌, IfOk};
ghost use Rattle.ring_file.specs.Form.{ring_body, IsFileRing};
ghost use Rattle.ring_file.specs.Reading.{ring_at, ring_read};
ghost use Rattle.byte_reader.specs.Readers.{Gives};

use crate::clients::clients_of;
use crate::fields::{client_count_of, next_id_of};
use byte_reader::{Unread, array_of};
use keystore::{Client, Ring};
use std::alloc::Global;
use std::marker::Model;

/// What a body says of a ring.
#[derive(Drop)]
struct Parts {
    token_key: [u8; 32],
    store_key: [u8; 32],
    audit_key: [u8; 32],
    next_id: u64,
    clients: Vec<Client>,
}

impl Model for Parts {
    ghost use Rattle.keystore.specs.Rings.{RingState, restored_ring};

    ghost Value = { RingState };

    ghost view = { λ p. restored_ring p.token_key p.store_key p.audit_key p.clients.items p.next_id };
}

/// Reads them at the front.
#[tactic(auto, unfolding(crate::specs::Reading::ring_at))]
fn parts_of(alloc: Global, bytes: &[u8]) -> Result<(Parts, &[u8]), Unread>
    ensures { Gives (λ x. (x.0, x.1.now)) result (ring_at bytes.now) }
{
    let (token_key, rest) = array_of(bytes)?;
    let (store_key, rest) = array_of(rest)?;
    let (audit_key, rest) = array_of(rest)?;
    let (next_id, rest) = next_id_of(rest)?;
    let (count, rest) = client_count_of(rest)?;
    let (clients, rest) = clients_of(alloc, next_id, count, rest)?;
    let parts = Parts {
        token_key,
        store_key,
        audit_key,
        next_id,
        clients,
    };
    Ok((parts, rest))
}

/// Reads them, all of the body.
#[tactic(auto, unfolding(crate::specs::Reading::ring_read))]
fn whole_parts(alloc: Global, body: &[u8]) -> Result<Parts, Unread>
    ensures { Gives (λ p. p) result (ring_read body.now) }
{
    match parts_of(alloc, body) {
        Ok((parts, rest)) => {
            if rest.is_empty() {
                Ok(parts)
            } else {
                Err(Unread::At { left: rest.len() })
            }
        }
        Err(why) => Err(why),
    }
}

/// The ring that a body spells.
pub fn ring_of(alloc: Global, body: &[u8]) -> Result<Ring, Unread>
    ensures read { Gives (λ r. r) result (ring_read body.now) }
    ensures spelled { IfOk result (λ r. IsFileRing r × (body.now ≡ ring_body r)) }
{
    match whole_parts(alloc, body) {
        Ok(parts) => {
            let Parts {
                token_key,
                store_key,
                audit_key,
                next_id,
                clients,
            } = parts;
            Ok(Ring::restored(alloc, token_key, store_key, audit_key, clients, next_id))
        }
        Err(why) => Err(why),
    }
}
