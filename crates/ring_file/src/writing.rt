ghost use Rattle.std.specs.Prelude.{◌≡◌, ◌≤◌, ◌<◌, ◌++◌, length, IfOk, OnOk};
ghost use Rattle.std.specs.List.{AllByRecursion, flat_map};
ghost use Rattle.keystore.specs.Kept.{IsKept};
ghost use Rattle.ring_file.specs.Form.{key_bytes, old_bytes, client_bytes, ring_body};

use acra_base::NoMemory;
use keystore::{Client, OldKey, Ring};
use std::alloc::Global;

fn put_key(out: &mut Vec<u8>, id: u64, phase: u8, key: &[u8; 32]) -> Result<(), NoMemory>
    ensures { OnOk result (out.new.items ≡ out.old.items ++ key_bytes id phase key.now) }
{
    out.extend_from_slice(&id.to_le_bytes())?;
    out.push(phase)?;
    out.extend_from_slice(key)?;
    Ok(())
}

fn put_old_keys(out: &mut Vec<u8>, past: &[OldKey]) -> Result<(), NoMemory>
    ensures { OnOk result (out.new.items ≡ out.old.items ++ flat_map old_bytes past.now) }
{
    'keys: for key in past {
        put_key(out, key.id, key.phase.number(), &key.key)?;
    }
    Ok(())
}

fn put_client(out: &mut Vec<u8>, client: &Client) -> Result<(), NoMemory>
    requires { length client.now.past < 256 }
    ensures { OnOk result (out.new.items ≡ out.old.items ++ client_bytes client.now) }
{
    let name = client.name();
    name.is_spelled();
    let text = name.text();
    out.push(text.len() as u8)?;
    out.extend_from_slice(text)?;
    out.extend_from_slice(client.search())?;
    let count = client.past().len() as u16 + 1;
    out.extend_from_slice(&count.to_le_bytes())?;
    put_old_keys(out, client.past())?;
    put_key(out, client.id(), 0, client.key())
}

fn put_clients(out: &mut Vec<u8>, clients: &[Client]) -> Result<(), NoMemory>
    requires { AllByRecursion (λ c. length c.past < 256) clients.now }
    ensures { OnOk result (out.new.items ≡ out.old.items ++ flat_map client_bytes clients.now) }
{
    'clients: for client in clients {
        put_client(out, client)?;
    }
    Ok(())
}

/// The body of a ring's file.
pub fn body_of(alloc: Global, ring: &Ring) -> Result<Vec<u8>, NoMemory>
    ensures value { IfOk result (λ body. body.items ≡ ring_body ring.now) }
    ensures kept { OnOk result (IsKept ring.now) }
{
    let clients = ring.clients();
    let mut body = Vec::new(alloc);
    body.extend_from_slice(ring.token_key())?;
    body.extend_from_slice(ring.store_key())?;
    body.extend_from_slice(ring.audit_key())?;
    body.extend_from_slice(&ring.next_id().to_le_bytes())?;
    let count = clients.len() as u16;
    body.extend_from_slice(&count.to_le_bytes())?;
    put_clients(&mut body, clients)?;
    Ok(body)
}
