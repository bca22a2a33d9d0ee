ghost use Rattle.std.specs.Prelude.{◌≡◌, ◌-◌};
ghost use Rattle.std.specs.List.{AllByRecursion, list_any};
ghost use Rattle.keystore.specs.Lists.{AscendsBy};
ghost use Rattle.keystore.specs.Kept.{IsOlder, has_id};
ghost use Rattle.ring_file.specs.Reading.{id_at, can_be_id, id_or_zero, last_of};
ghost use Rattle.byte_reader.specs.Readers.{Gives};

use byte_reader::{Unread, le_u64_of};
use keystore::{Client, OldKey};

/// The id of the newest of these keys, 0 where there is none.
fn last_id(past: &[OldKey]) -> u64
    ensures { result ≡ id_or_zero (last_of past.now) }
{
    match past.last() {
        Some(key) => key.id,
        None => 0,
    }
}

/// Whether one of these clients has a key of this id.
fn is_taken(clients: &[Client], id: u64) -> bool
    requires { AllByRecursion (λ c. AscendsBy IsOlder c.past) clients.now }
    ensures { result ≡ list_any (has_id id) clients.now }
{
    'clients: for client in clients {
        if client.has_key(id) {
            return true;
        }
    }
    false
}

fn can_be_id(next: u64, clients: &[Client], past: &[OldKey], id: u64) -> bool
    requires { AllByRecursion (λ c. AscendsBy IsOlder c.past) clients.now }
    ensures { result ≡ can_be_id next clients.now past.now id }
{
    last_id(past) < id && id < next && !is_taken(clients, id)
}

/// Reads the id of a client's key behind these clients and these keys.
#[tactic(auto, unfolding(crate::specs::Reading::id_at))]
pub fn id_of<'a>(
    next: u64,
    clients: &[Client],
    past: &[OldKey],
    bytes: &'a [u8],
) -> Result<(u64, &'a [u8]), Unread>
    requires { AllByRecursion (λ c. AscendsBy IsOlder c.past) clients.now }
    ensures { Gives (λ x. (x.0, x.1.now)) result (id_at next clients.now past.now bytes.now) }
{
    let (id, rest) = le_u64_of(bytes)?;
    if !can_be_id(next, clients, past, id) {
        return Err(Unread::At { left: bytes.len() });
    }
    Ok((id, rest))
}
