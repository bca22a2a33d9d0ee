ghost use Rattle.std.specs.Prelude.{◌≡◌, take, drop, length, ◌+◌, ◌≤◌, IfOk};
ghost use Rattle.lab_session.specs.ClientKey.{ring_drawn};

use acra_base::{ClientId, NoMemory};
use acra_devices::SureRandom;
use keystore::{AddRefusal, NewKeys, Ring};
use std::alloc::Global;

// These 32 of the bytes.
fn key_at(drawn: &[u8], place: usize) -> [u8; 32]
    requires { place + 32 ≤ length drawn.now }
    ensures { result ≡ take 32 (drop place drawn.now) }
{
    let mut key = [0; 32];
    key.copy_from_slice(&drawn[place..place + 32]);
    key
}

/// A ring with the client alone, and the generator after it. The ring draws 96 bytes, which are its token key,
/// its store key and its audit key, and then the client 64, of which the first 32 are the key of its
/// containers, with the id 1, and the others that of its indexes.
pub fn client_ring(
    alloc: Global,
    client: &ClientId,
    seed: u64,
) -> Result<(Ring, SureRandom), NoMemory>
    ensures { IfOk result (λ made. (made.0, made.1) ≡ ring_drawn client.now seed) }
{
    let mut random = SureRandom::new(seed);
    let mut own = [0; 96];
    random.fill(&mut own);
    let mut drawn = [0; 64];
    random.fill(&mut drawn);
    let mut ring = Ring::new(alloc, key_at(&own, 0), key_at(&own, 32), key_at(&own, 64));
    let keys = NewKeys {
        key: key_at(&drawn, 0),
        search: key_at(&drawn, 32),
    };
    match ring.add_client(client, keys) {
        Ok(_) => Ok((ring, random)),
        Err(AddRefusal::NoMemory) => Err(NoMemory),
        Err(AddRefusal::Exists | AddRefusal::TooMany) => unreachable!(),
    }
}
