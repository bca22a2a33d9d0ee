//! The audit key, as the folder's files give it.

ghost use Rattle.std.specs.Prelude.{◌≡◌, ◌≤◌, IsErrOf};
ghost use Rattle.acra_devices.specs.Causes.{Rose};
ghost use Rattle.audit_chain.specs.Verdicts.{WhereRead};
ghost use Rattle.audit_core.specs.Keys.{MasterFound, RingFound, RingDue};

use acra_crypto::Aes256Gcm;
use acra_devices::Source;
use ring_file::{FileRefusal, MasterFault, RingFault, read_file, read_master, read_ring};
use std::alloc::Global;

/// The keystore's file has at most this many bytes.
const RING_LIMIT: usize = 1 << 24;

/// Why a file gives no key.
#[derive(Clone, Copy, Debug, PartialEq, Eq)]
pub enum FileFault {
    /// It is too long, or isn't what it should be.
    Refused,
    /// A read failed.
    ReadFault,
    /// There was no memory.
    NoMemory,
}

/// The key in the master file.
pub fn master_key<S: Source>(alloc: Global, file: &mut S) -> Result<[u8; 32], FileFault>
    ensures found { WhereRead (S.left file.old) (S.left file.new) (MasterFound result) }
    ensures later { S.read_faults file.old ≤ S.read_faults file.new }
    ensures stayed { (IsErrOf result FileFault.ReadFault → ⊥) → S.read_faults file.new ≡ S.read_faults file.old }
    ensures fault { IsErrOf result FileFault.ReadFault → Rose (S.read_faults file.old) (S.read_faults file.new) }
{
    match read_master(alloc, file) {
        Ok(key) => Ok(key),
        Err(MasterFault::NoKey) => Err(FileFault::Refused),
        Err(MasterFault::ReadFault) => Err(FileFault::ReadFault),
        Err(MasterFault::NoMemory) => Err(FileFault::NoMemory),
    }
}

/// The audit key of the ring in the keystore file.
pub fn audit_key<S: Source>(
    alloc: Global,
    file: &mut S,
    master: &[u8; 32],
) -> Result<[u8; 32], FileFault>
    ensures found { WhereRead (S.left file.old) (S.left file.new) (RingFound master.now result) }
    ensures exact { WhereRead (S.left file.old) (S.left file.new) (RingDue master.now result) }
    ensures later { S.read_faults file.old ≤ S.read_faults file.new }
    ensures stayed { (IsErrOf result FileFault.ReadFault → ⊥) → S.read_faults file.new ≡ S.read_faults file.old }
    ensures fault { IsErrOf result FileFault.ReadFault → Rose (S.read_faults file.old) (S.read_faults file.new) }
{
    match read_file(alloc, file, RING_LIMIT) {
        Ok(bytes) => match read_ring(alloc, &Aes256Gcm, bytes.as_slice(), master) {
            Ok(ring) => Ok(*ring.audit_key()),
            Err(RingFault::NoMemory) => Err(FileFault::NoMemory),
            Err(RingFault::NotSealed) => Err(FileFault::Refused),
            Err(RingFault::BadForm { .. }) => Err(FileFault::Refused),
        },
        Err(FileRefusal::TooLong) => Err(FileFault::Refused),
        Err(FileRefusal::ReadFault) => Err(FileFault::ReadFault),
        Err(FileRefusal::NoMemory) => Err(FileFault::NoMemory),
    }
}
