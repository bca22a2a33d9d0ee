ghost use Rattle.std.specs.Prelude.{◌≡◌, ◌++◌, ◌∷◌, [], ℕ, List, Some, None, Option};
ghost use Rattle.acra_devices.specs.Pieces.{Added, Replaced};

use acra_base::Bytes;
use std::alloc::Global;

/// Pieces in memory.
#[derive(Drop)]
pub struct Shelf {
    alloc: Global,
    pieces: Vec<Bytes>,
    whole: bool,
}

impl Shelf {
    ghost use Rattle.acra_devices.specs.Shelves.{shelf_kept};

    /// No pieces.
    pub fn new(alloc: Global) -> Self
        ensures { shelf_kept result ≡ Some [] }
    {
        Shelf {
            alloc,
            pieces: Vec::new(alloc),
            whole: true,
        }
    }

    /// The pieces, in order.
    pub fn pieces(&self) -> &[Bytes]
        ensures { result.now ≡ self.now.pieces.items }
    {
        &self.pieces
    }

    /// Whether each call found memory.
    pub fn whole(&self) -> bool
        ensures { result ≡ self.now.whole }
    {
        self.whole
    }

    /// Puts a piece at the end, where there is memory.
    pub fn append(&mut self, piece: &[u8])
        ensures { Added (shelf_kept self.old) (shelf_kept self.new) piece.now }
    {
        match Bytes::copied(self.alloc, piece) {
            Ok(copy) => {
                if self.pieces.push(copy).is_err() {
                    self.whole = false;
                }
            }
            Err(_) => self.whole = false,
        }
    }

    /// Puts this piece in place of all, where there is memory.
    pub fn replace(&mut self, whole: &[u8])
        ensures { Replaced (shelf_kept self.old) (shelf_kept self.new) whole.now }
    {
        self.pieces.clear();
        self.append(whole);
    }
}
