ghost use Rattle.std.specs.Prelude.{◌≡◌, ◌≤◌, ◌+◌, ◌-◌, ◌^◌, min, OnOk, OnErr, IfSome};
ghost use Rattle.acra_devices.specs.Pieces.{Added, Replaced, Stayed, AppendKeeps, ReplaceKeeps};
ghost use Rattle.acra_devices.specs.Causes.{HasCause};
ghost use Rattle.token_records.specs.Pieces.{piece_bytes};

use acra_base::NoMemory;
use acra_devices::{Failed, Keeper};
use std::alloc::Global;
use token_records::piece_head;

/// A keeper that keeps each piece behind its length of 4 bytes, little-endian, by one call of the keeper below.
///
/// A call fails where the keeper below fails, where there is no memory for the piece and its length, and where the piece
/// has 2^32 bytes or more. Each failure counts.
#[derive(Drop)]
pub struct PieceKeeper<K: Keeper + Drop> {
    alloc: Global,
    below: K,
    // The failures that are none of the keeper below.
    faults: u64,
}

impl<K: Keeper + Drop> PieceKeeper<K> {
    /// A keeper over this one. It takes no memory now.
    pub fn new(alloc: Global, below: K) -> Self
        ensures below { result.below ≡ below }
        ensures faults { ⟦<PieceKeeper<K> as Keeper>⟧.keeper_faults result ≡ K.keeper_faults below }
    {
        PieceKeeper {
            alloc,
            below,
            faults: 0,
        }
    }

    /// The keeper below.
    pub fn below(&self) -> &K
        ensures { result.now ≡ self.now.below }
    {
        &self.below
    }

    fn count(&mut self)
        ensures below { self.new.below ≡ self.old.below }
        ensures later { self.old.faults ≤ self.new.faults }
        ensures more { self.new.faults ≡ min (self.old.faults + 1) (2 ^ 64 - 1) }
    {
        self.faults = self.faults.saturating_add(1);
    }
}

/// The piece behind its length, where its length has 32 bits and there is memory.
fn framed(alloc: Global, piece: &[u8]) -> Option<Vec<u8>>
    ensures { IfSome result (λ frame. frame.items ≡ piece_bytes piece.now) }
{
    let length = u32::try_from(piece.len()).ok()?;
    let mut frame = Vec::with_capacity(alloc, piece.len().checked_add(4)?).ok()?;
    frame.extend_from_slice(&piece_head(length)).ok()?;
    frame.extend_from_slice(piece).ok()?;
    Some(frame)
}

impl<K: Keeper + Drop> Keeper for PieceKeeper<K> {
    ghost use Rattle.piece_keeper.specs.Framed.{behind_lengths};

    ghost kept = { λ k. behind_lengths (K.kept k.below) };

    ghost keeper_faults = { λ k. K.keeper_faults k.below + k.faults };

    fn append(&mut self, piece: &[u8]) -> Result<(), Failed>
        ensures pieces { AppendKeeps (behind_lengths (K.kept self.old.below)) (behind_lengths (K.kept self.new.below)) result piece.now }
        ensures cause { HasCause (K.keeper_faults self.old.below + self.old.faults) (K.keeper_faults self.new.below + self.new.faults) result }
        ensures framed { OnOk result (Added (K.kept self.old.below) (K.kept self.new.below) (piece_bytes piece.now)) }
        ensures stayed { OnErr result (Stayed (K.kept self.old.below) (K.kept self.new.below)) }
    {
        let Some(frame) = framed(self.alloc, piece) else {
            self.count();
            return Err(Failed);
        };
        self.below.append(&frame)
    }

    fn replace(&mut self, whole: &[u8]) -> Result<(), Failed>
        ensures pieces { ReplaceKeeps (behind_lengths (K.kept self.old.below)) (behind_lengths (K.kept self.new.below)) result whole.now }
        ensures cause { HasCause (K.keeper_faults self.old.below + self.old.faults) (K.keeper_faults self.new.below + self.new.faults) result }
        ensures framed { OnOk result (Replaced (K.kept self.old.below) (K.kept self.new.below) (piece_bytes whole.now)) }
        ensures stayed { OnErr result (Stayed (K.kept self.old.below) (K.kept self.new.below)) }
    {
        let Some(frame) = framed(self.alloc, whole) else {
            self.count();
            return Err(Failed);
        };
        self.below.replace(&frame)
    }
}
