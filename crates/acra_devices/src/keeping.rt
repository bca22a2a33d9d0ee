ghost use Rattle.std.specs.Prelude.{◌≡◌, ◌-◌, ◌+◌, ◌^◌, ◌↔◌, [], min, Some, IsErr, Contains, IsTrue};
ghost use Rattle.acra_devices.specs.Pieces.{AppendKeeps, ReplaceKeeps};
ghost use Rattle.acra_devices.specs.Causes.{HasCause};

use crate::calls::Calls;
use crate::device::Failed;
use crate::keeper::Keeper;
use crate::shelf::Shelf;
use acra_base::Bytes;
use std::alloc::Global;

/// A keeper in memory. No call fails. It tells what it keeps while `whole`.
#[derive(Drop)]
pub struct SureKeeper {
    shelf: Shelf,
}

impl SureKeeper {
    ghost use Rattle.acra_devices.specs.Keepers.{sure_kept, sure_keeper_whole};

    /// A keeper of nothing yet. It takes no memory now.
    pub fn new(alloc: Global) -> Self
        ensures { sure_kept result ≡ Some [] }
    {
        SureKeeper {
            shelf: Shelf::new(alloc),
        }
    }

    /// The pieces that it keeps, in order, while it is whole.
    pub fn kept(&self) -> &[Bytes]
        ensures { IsTrue (sure_keeper_whole self.now) → sure_kept self.now ≡ Some result.now }
    {
        self.shelf.pieces()
    }

    /// Whether it still tells what it keeps. A call that finds no memory makes this false for good.
    pub fn whole(&self) -> bool
        ensures { result ≡ sure_keeper_whole self.now }
    {
        self.shelf.whole()
    }
}

impl Keeper for SureKeeper {
    ghost use Rattle.std.specs.Prelude.{ℕ};
    ghost use Rattle.acra_devices.specs.Shelves.{shelf_kept};

    ghost kept = { λ k. shelf_kept k.shelf };

    ghost keeper_faults = { λ _. 0 };

    fn append(&mut self, piece: &[u8]) -> Result<(), Failed> {
        self.shelf.append(piece);
        Ok(())
    }

    fn replace(&mut self, whole: &[u8]) -> Result<(), Failed> {
        self.shelf.replace(whole);
        Ok(())
    }
}

/// A keeper in memory. Exactly the calls whose numbers are listed fail, counted from 0 over both
/// calls. It tells what it keeps while `whole`.
#[derive(Drop)]
pub struct MemKeeper {
    shelf: Shelf,
    calls: Calls,
    faults: u64,
}

impl MemKeeper {
    ghost use Rattle.acra_devices.specs.Keepers.{mem_kept, mem_keeper_whole, keeper_failing, keeper_calls};

    /// A keeper of nothing yet. It takes no memory now.
    pub fn new(alloc: Global, failing: Vec<u64>) -> Self
        ensures kept { mem_kept result ≡ Some [] }
        ensures failing { keeper_failing result ≡ failing.items }
        ensures calls { keeper_calls result ≡ 0 }
        ensures faults { ⟦<MemKeeper as Keeper>⟧.keeper_faults result ≡ 0 }
    {
        MemKeeper {
            shelf: Shelf::new(alloc),
            calls: Calls::new(failing),
            faults: 0,
        }
    }

    /// The pieces that it keeps, in order, while it is whole.
    pub fn kept(&self) -> &[Bytes]
        ensures { IsTrue (mem_keeper_whole self.now) → mem_kept self.now ≡ Some result.now }
    {
        self.shelf.pieces()
    }

    /// Whether it still tells what it keeps. A call that finds no memory makes this false for good.
    pub fn whole(&self) -> bool
        ensures { result ≡ mem_keeper_whole self.now }
    {
        self.shelf.whole()
    }
}

impl Keeper for MemKeeper {
    ghost use Rattle.acra_devices.specs.Shelves.{shelf_kept};
    ghost use Rattle.acra_devices.specs.Keepers.{mem_kept, keeper_failing, keeper_calls};

    ghost kept = { λ k. shelf_kept k.shelf };

    ghost keeper_faults = { λ k. k.faults };

    fn append(&mut self, piece: &[u8]) -> Result<(), Failed>
        ensures pieces { AppendKeeps (mem_kept self.old) (mem_kept self.new) result piece.now }
        ensures cause { HasCause (⟦<MemKeeper as Keeper>⟧.keeper_faults self.old) (⟦<MemKeeper as Keeper>⟧.keeper_faults self.new) result }
        ensures exactly { IsErr result ↔ Contains (keeper_failing self.old) (keeper_calls self.old) }
        ensures counted { keeper_calls self.new ≡ min (keeper_calls self.old + 1) (2 ^ 64 - 1) }
        ensures listed { keeper_failing self.new ≡ keeper_failing self.old }
    {
        if self.calls.fails() {
            self.faults = self.faults.saturating_add(1);
            return Err(Failed);
        }
        self.shelf.append(piece);
        Ok(())
    }

    fn replace(&mut self, whole: &[u8]) -> Result<(), Failed>
        ensures pieces { ReplaceKeeps (mem_kept self.old) (mem_kept self.new) result whole.now }
        ensures cause { HasCause (⟦<MemKeeper as Keeper>⟧.keeper_faults self.old) (⟦<MemKeeper as Keeper>⟧.keeper_faults self.new) result }
        ensures exactly { IsErr result ↔ Contains (keeper_failing self.old) (keeper_calls self.old) }
        ensures counted { keeper_calls self.new ≡ min (keeper_calls self.old + 1) (2 ^ 64 - 1) }
        ensures listed { keeper_failing self.new ≡ keeper_failing self.old }
    {
        if self.calls.fails() {
            self.faults = self.faults.saturating_add(1);
            return Err(Failed);
        }
        self.shelf.replace(whole);
        Ok(())
    }
}
