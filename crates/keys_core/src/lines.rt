ghost use Rattle.std.specs.Prelude.{◌≡◌, ◌≤◌, ◌<◌, ◌+◌, ◌*◌, ◌^◌, ◌++◌, [], length, codes, IfOk, OnOk};
ghost use Rattle.std.specs.List.{AllByRecursion, flat_map};
ghost use Rattle.std.specs.Fmt.{decimal};
ghost use Rattle.keys_core.specs.Lines.{key_then, newline, phase_line, old_word, old_line, client_lines, ring_lines, key_count, check_line, refusal_word, refused_line};

use crate::status::Refusal;
use acra_base::{ClientId, NoMemory};
use itoa::Buffer;
use keystore::{Client, OldKey, OldPhase};
use std::alloc::Global;

fn put_number(out: &mut Vec<u8>, number: u64) -> Result<(), NoMemory>
    ensures { OnOk result (out.new.items ≡ out.old.items ++ decimal number) }
{
    let mut digits = Buffer::new();
    out.extend_from_slice(digits.format(number).as_bytes())?;
    Ok(())
}

/// Appends a client's name, a key's id, and what follows.
fn put_key(out: &mut Vec<u8>, name: &ClientId, id: u64, behind: &[u8]) -> Result<(), NoMemory>
    ensures { OnOk result (out.new.items ≡ out.old.items ++ key_then name.now id behind.now) }
{
    out.extend_from_slice(name.text())?;
    out.push(b' ')?;
    put_number(out, id)?;
    out.extend_from_slice(behind)?;
    Ok(())
}

/// A line for a key, behind these bytes.
pub fn key_line(alloc: Global, front: &[u8], name: &ClientId, id: u64) -> Result<Vec<u8>, NoMemory>
    ensures { IfOk result (λ line. line.items ≡ front.now ++ key_then name.now id newline) }
{
    let mut line = Vec::from_slice(alloc, front)?;
    put_key(&mut line, name, id, b"\n")?;
    Ok(line)
}

fn put_old_key(out: &mut Vec<u8>, name: &ClientId, key: &OldKey) -> Result<(), NoMemory>
    ensures { OnOk result (out.new.items ≡ out.old.items ++ old_line name.now key.now) }
{
    match key.phase {
        OldPhase::Draining(_) => put_key(out, name, key.id, b" draining\n"),
        OldPhase::Swept(_) => put_key(out, name, key.id, b" swept\n"),
    }
}

fn put_old_keys(out: &mut Vec<u8>, name: &ClientId, past: &[OldKey]) -> Result<(), NoMemory>
    ensures { OnOk result (out.new.items ≡ out.old.items ++ flat_map (old_line name.now) past.now) }
{
    'keys: for key in past {
        put_old_key(out, name, key)?;
    }
    Ok(())
}

fn put_client(out: &mut Vec<u8>, client: &Client) -> Result<(), NoMemory>
    ensures { OnOk result (out.new.items ≡ out.old.items ++ client_lines client.now) }
{
    put_old_keys(out, client.name(), client.past())?;
    put_key(out, client.name(), client.id(), b" current\n")
}

/// A line for each key.
pub fn key_lines(alloc: Global, clients: &[Client]) -> Result<Vec<u8>, NoMemory>
    ensures { IfOk result (λ lines. lines.items ≡ ring_lines clients.now) }
{
    let mut lines = Vec::new(alloc);
    'clients: for client in clients {
        put_client(&mut lines, client)?;
    }
    Ok(lines)
}

/// How many keys these clients have.
fn key_count(clients: &[Client]) -> u64
    requires few { length clients.now ≤ 256 }
    requires each { AllByRecursion (λ c. length c.past < 256) clients.now }
    ensures { result ≡ key_count clients.now }
{
    let mut count = 0;
    'clients: for client in clients {
        count += client.past().len() as u64 + 1;
    }
    count
}

/// The line of `check`.
pub fn count_line(alloc: Global, clients: &[Client]) -> Result<Vec<u8>, NoMemory>
    requires few { length clients.now ≤ 256 }
    requires each { AllByRecursion (λ c. length c.past < 256) clients.now }
    ensures { IfOk result (λ line. line.items ≡ check_line clients.now) }
{
    let mut line = Vec::from_slice(alloc, b"clients ")?;
    put_number(&mut line, clients.len() as u64)?;
    line.extend_from_slice(b" keys ")?;
    put_number(&mut line, key_count(clients))?;
    line.push(b'\n')?;
    Ok(line)
}

fn refusal_word(why: Refusal) -> &'static [u8]
    ensures { result.now ≡ refusal_word why }
{
    match why {
        Refusal::Exists => b"exists",
        Refusal::TooMany => b"too-many",
        Refusal::NoSuchKey => b"no-such-key",
        Refusal::NotSwept => b"not-swept",
    }
}

/// The line of a refusal.
pub fn refused_line(alloc: Global, why: Refusal) -> Result<Vec<u8>, NoMemory>
    ensures { IfOk result (λ line. line.items ≡ refused_line why) }
{
    let mut line = Vec::from_slice(alloc, b"refused ")?;
    line.extend_from_slice(refusal_word(why))?;
    line.push(b'\n')?;
    Ok(line)
}
