//! Reading a log once, from its beginning, in memory that doesn't grow with it.

ghost use Rattle.std.specs.Prelude.{◌≡◌, ◌≤◌, ◌<◌, ◌^◌, IsErrOf};
ghost use Rattle.acra_devices.specs.Causes.{Rose};
ghost use Rattle.audit_chain.specs.Reads.{ReadsPiece, Ends};
ghost use Rattle.audit_chain.specs.Verdicts.{Took};

use crate::chain::Chain;
use crate::stop::Stop;
use crate::walk::Walk;
use acra_devices::Source;
use std::alloc::Global;

/// At most so many bytes of a log are read.
const READ_LIMIT: u64 = 1 << 48;

// Reads a piece of at most `room` bytes, and walks along it.
fn read_piece<S: Source>(
    alloc: Global,
    source: &mut S,
    walk: &mut Walk,
    room: u64,
) -> Result<usize, Stop>
    requires { 0 < room }
    ensures reads { ReadsPiece (S.left source.old) (S.left source.new) walk.old walk.new room result }
    ensures took { Took (S.left source.old) (S.left source.new) room }
    ensures later { S.read_faults source.old ≤ S.read_faults source.new }
    ensures stayed { (IsErrOf result Stop.ReadFault → ⊥) → S.read_faults source.new ≡ S.read_faults source.old }
    ensures fault { IsErrOf result Stop.ReadFault → Rose (S.read_faults source.old) (S.read_faults source.new) }
{
    let mut buf = [0; 4096];
    let most = room.min(4096) as usize;
    match source.read(&mut buf[..most]) {
        Err(_) => Err(Stop::ReadFault),
        Ok(count) => match walk.take_front(alloc, &buf, count) {
            Ok(()) => Ok(count),
            Err(stop) => Err(stop),
        },
    }
}

/// Reads a log to its end, and gives the chain behind its lines where all recompute.
pub fn read_log<S: Source>(alloc: Global, source: &mut S, key: &[u8; 32]) -> Result<Chain, Stop>
    ensures ends { Ends key.now (S.left source.old) (S.left source.new) result }
    ensures took { Took (S.left source.old) (S.left source.new) (2 ^ 48) }
    ensures later { S.read_faults source.old ≤ S.read_faults source.new }
    ensures stayed { (IsErrOf result Stop.ReadFault → ⊥) → S.read_faults source.new ≡ S.read_faults source.old }
    ensures fault { IsErrOf result Stop.ReadFault → Rose (S.read_faults source.old) (S.read_faults source.new) }
{
    let mut walk = Walk::new(alloc, *key);
    let mut taken: u64 = 0;
    'pieces: loop {
        if taken >= READ_LIMIT {
            return Err(Stop::Spent);
        }
        match read_piece(alloc, source, &mut walk, READ_LIMIT - taken) {
            Err(stop) => return Err(stop),
            Ok(0) => return walk.end(),
            Ok(count) => taken += count as u64,
        }
    }
}
