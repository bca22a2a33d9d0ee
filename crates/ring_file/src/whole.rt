ghost use Rattle.std.specs.Prelude.{◌≡◌, ◌≤◌, ◌+◌, ℕ, List, Some, true, is_some, length, OnOk, IfOk, IsErrOf};
ghost use Rattle.acra_devices.specs.Causes.{Rose};
ghost use Rattle.acra_devices.specs.Known.{IsAtEnd};
ghost use Rattle.ring_file.specs.Whole.{IsWholly, TookFront};

use acra_base::Bytes;
use acra_devices::Source;
use std::alloc::Global;

/// Why a file isn't read whole.
#[derive(Clone, Copy, Debug, PartialEq, Eq)]
pub enum FileRefusal {
    /// It has more bytes than the limit.
    TooLong,
    /// A read failed.
    ReadFault,
    /// There was no memory.
    NoMemory,
}

/// All bytes that are left of a source, where they are at most `limit`. At most one more is read.
pub fn read_file<S: Source>(
    alloc: Global,
    source: &mut S,
    limit: usize,
) -> Result<Bytes, FileRefusal>
    ensures whole { (file : List ℕ) → S.left source.old ≡ Some file → is_some (S.left source.new) ≡ true → IsWholly limit result file }
    ensures within { IfOk result (λ bytes. length bytes ≤ limit) }
    ensures end { OnOk result (IsAtEnd (S.left source.new)) }
    ensures later { S.read_faults source.old ≤ S.read_faults source.new }
    ensures took { TookFront (S.left source.old) (S.left source.new) (limit + 1) }
    ensures stayed { (IsErrOf result FileRefusal.ReadFault → ⊥) → S.read_faults source.new ≡ S.read_faults source.old }
    ensures fault { IsErrOf result FileRefusal.ReadFault → Rose (S.read_faults source.old) (S.read_faults source.new) }
{
    let mut bytes = Bytes::new(alloc);
    let mut buf = [0; 4096];
    'pieces: loop {
        let room = (limit - bytes.len()).min(4095) + 1;
        match source.read(&mut buf[..room]) {
            Err(_) => return Err(FileRefusal::ReadFault),
            Ok(0) => return Ok(bytes),
            Ok(count) => {
                if count > limit - bytes.len() {
                    return Err(FileRefusal::TooLong);
                }
                match bytes.extend(&buf[..count]) {
                    Ok(()) => {}
                    Err(_) => return Err(FileRefusal::NoMemory),
                }
            }
        }
    }
}
