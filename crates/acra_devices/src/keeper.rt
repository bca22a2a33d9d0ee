ghost use Rattle.std.specs.Prelude.{◌≡◌, List, ℕ, Option};
ghost use Rattle.acra_devices.specs.Pieces.{AppendKeeps, ReplaceKeeps};
ghost use Rattle.acra_devices.specs.Causes.{HasCause};

use crate::device::Failed;

/// What pieces of bytes are kept by for good, as a file.
///
/// A device in memory tells what it keeps; a real one tells nothing. A count of faults never falls.
pub trait Keeper {
    /// The pieces that it keeps, in order, where they are told.
    ghost kept: { Self → Option (List (List ℕ)) };

    /// How often an `append` or a `replace` has failed.
    ghost keeper_faults: { Self → ℕ };

    /// Keeps one piece more, after the others. `Failed` changes nothing of what is kept, and comes
    /// only where the count of faults rose.
    fn append(&mut self, piece: &[u8]) -> Result<(), Failed>
        ensures pieces { AppendKeeps (kept self.old) (kept self.new) result piece.now }
        ensures cause { HasCause (keeper_faults self.old) (keeper_faults self.new) result };

    /// Keeps this piece in place of all others. `Failed` changes nothing of what is kept, and comes
    /// only where the count of faults rose.
    fn replace(&mut self, whole: &[u8]) -> Result<(), Failed>
        ensures pieces { ReplaceKeeps (kept self.old) (kept self.new) result whole.now }
        ensures cause { HasCause (keeper_faults self.old) (keeper_faults self.new) result };
}
