ghost use Rattle.std.specs.Prelude.{◌≡◌, ◌≤◌, ◌==◌, ◌&&◌, [], false, length, take, drop, IfOk, IfErr, OnOk};
ghost use Rattle.acra_devices.specs.Causes.{Rose};
ghost use Rattle.keystore.specs.Rings.{RingState};
ghost use Rattle.ring_file.specs.Form.{IsFileRing};
ghost use Rattle.keys_core.specs.Work.{new_ring, made_or_read, read_file};
ghost use Rattle.keys_core.specs.Told.{Drew, OpensAs};
ghost use Rattle.keys_core.specs.Draws.{OpensBy, OpenDrew};
ghost use Rattle.keys_core.specs.Untouched.{ShutUntouched};
ghost use Rattle.keys_core.specs.declared.opening.Shut.TheVariants as shut;

use crate::status::RingTrouble;
use acra_crypto::Aes256Gcm;
use acra_devices::Random;
use keystore::Ring;
use ring_file::{RingFault, read_ring};
use std::alloc::Global;

/// Why there is no ring.
#[derive(Clone, Copy, Debug, PartialEq, Eq)]
pub enum Shut {
    /// The file gives none.
    Trouble(RingTrouble),
    /// There was no memory.
    NoMemory,
    /// A draw failed.
    RandomFault,
}

/// A ring with these bytes as its token key, its store key and its audit key.
fn ring_of(alloc: Global, drawn: &[u8; 96]) -> Ring
    ensures { result ≡ new_ring drawn.now }
{
    let mut token_key = [0; 32];
    token_key.copy_from_slice(&drawn[..32]);
    let mut store_key = [0; 32];
    store_key.copy_from_slice(&drawn[32..64]);
    let mut audit_key = [0; 32];
    audit_key.copy_from_slice(&drawn[64..96]);
    Ring::new(alloc, token_key, store_key, audit_key)
}

/// The ring of a file; an empty one is a new ring where the ask makes rings.
pub fn open_ring<R: Random>(
    alloc: Global,
    makes: bool,
    master: &[u8; 32],
    bytes: &[u8],
    random: &mut R,
) -> Result<Ring, Shut>
    ensures opened { Drew (R.coming random.old) (R.coming random.new) (λ s t. OpensAs result t (made_or_read makes master.now bytes.now s)) }
    ensures ring { OpensBy (makes && (length bytes.now == 0)) (read_file master.now bytes.now) result }
    ensures drawn { OpenDrew (makes && (length bytes.now == 0)) result (R.coming random.old) (R.coming random.new) }
    ensures still { makes ≡ false → random.new ≡ random.old }
    ensures refused { IfErr result (λ why. ShutUntouched why random.old random.new) }
    ensures rules { IfOk result (λ ring. IsFileRing ring) }
    ensures later { R.draw_faults random.old ≤ R.draw_faults random.new }
    ensures stayed { OnOk result (R.draw_faults random.new ≡ R.draw_faults random.old) }
    ensures cause { IfErr result (λ why. why ≡ shut.RandomFault → Rose (R.draw_faults random.old) (R.draw_faults random.new)) }
{
    if makes && bytes.is_empty() {
        let mut drawn = [0; 96];
        if random.draw(&mut drawn).is_err() {
            return Err(Shut::RandomFault);
        }
        return Ok(ring_of(alloc, &drawn));
    }
    match read_ring(alloc, &Aes256Gcm, bytes, master) {
        Ok(ring) => Ok(ring),
        Err(RingFault::NotSealed) => Err(Shut::Trouble(RingTrouble::NotSealed)),
        Err(RingFault::BadForm { place }) => Err(Shut::Trouble(RingTrouble::BadForm { place })),
        Err(RingFault::NoMemory) => Err(Shut::NoMemory),
    }
}
