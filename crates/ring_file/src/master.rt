ghost use Rattle.std.specs.Prelude.{◌≡◌, ◌≤◌, ℕ, List, Some, true, is_some, IsErrOf};
ghost use Rattle.acra_devices.specs.Causes.{Rose};
ghost use Rattle.ring_file.specs.Master.{stem, master_of, MasterIs};
ghost use Rattle.ring_file.specs.Whole.{TookFront};

use crate::whole::{FileRefusal, read_file};
use acra_devices::Source;
use std::alloc::Global;

/// 64 digits and a newline.
const MASTER_LIMIT: usize = 65;

/// Why a file gives no master key.
#[derive(Clone, Copy, Debug, PartialEq, Eq)]
pub enum MasterFault {
    /// It isn't 64 hexadecimal digits and an optional newline.
    NoKey,
    /// A read failed.
    ReadFault,
    /// There was no memory.
    NoMemory,
}

/// The text without a newline at its end.
fn stem(text: &[u8]) -> &[u8]
    ensures { result.now ≡ stem text.now }
{
    let len = text.len();
    if len >= 1 && text[len - 1] == b'\n' {
        &text[..len - 1]
    } else {
        text
    }
}

/// The key that a text spells.
fn master_of(text: &[u8]) -> Option<[u8; 32]>
    ensures { result ≡ master_of text.now }
{
    let mut key = [0; 32];
    match hex::decode_to_slice(stem(text), &mut key) {
        Ok(()) => Some(key),
        Err(_) => None,
    }
}

/// The master key in its file: 64 hexadecimal digits of either case, and a newline behind them or not.
pub fn read_master<S: Source>(alloc: Global, file: &mut S) -> Result<[u8; 32], MasterFault>
    ensures key { (text : List ℕ) → S.left file.old ≡ Some text → is_some (S.left file.new) ≡ true → MasterIs result (master_of text) }
    ensures later { S.read_faults file.old ≤ S.read_faults file.new }
    ensures took { TookFront (S.left file.old) (S.left file.new) 66 }
    ensures stayed { (IsErrOf result MasterFault.ReadFault → ⊥) → S.read_faults file.new ≡ S.read_faults file.old }
    ensures fault { IsErrOf result MasterFault.ReadFault → Rose (S.read_faults file.old) (S.read_faults file.new) }
{
    match read_file(alloc, file, MASTER_LIMIT) {
        Ok(text) => match master_of(text.as_slice()) {
            Some(key) => Ok(key),
            None => Err(MasterFault::NoKey),
        },
        Err(FileRefusal::TooLong) => Err(MasterFault::NoKey),
        Err(FileRefusal::ReadFault) => Err(MasterFault::ReadFault),
        Err(FileRefusal::NoMemory) => Err(MasterFault::NoMemory),
    }
}
