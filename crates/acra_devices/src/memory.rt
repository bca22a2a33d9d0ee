ghost use Rattle.std.specs.Prelude.{◌≡◌, ◌≢◌, ◌≤◌, ◌<◌, ◌-◌, ◌+◌, ◌^◌, ◌↔◌, ◌++◌, [], min, length, take, Some, None, Option, List, ℕ, IfOk, IsErr, Contains, IsTrue};
ghost use Rattle.acra_devices.specs.Known.{Grew, Shrank, IsAtEnd, ReadGives, WriteTakes};
ghost use Rattle.acra_devices.specs.Causes.{HasCause, TakesSome};

use crate::calls::Calls;
use crate::device::{Failed, Link, Sink, Source};
use crate::wire::Wire;
use std::alloc::Global;

/// Both ends of a connection, in memory. No call fails. It tells its content while `whole`.
#[derive(Drop)]
pub struct SureLink {
    wire: Wire,
}

impl SureLink {
    ghost use Rattle.acra_devices.specs.Memory.{sure_left, sure_held, sure_whole};

    /// A link with this input left, which holds nothing. It takes no memory now.
    pub fn new(alloc: Global, input: Vec<u8>) -> Self
        ensures left { sure_left result ≡ Some input.items }
        ensures held { sure_held result ≡ Some [] }
    {
        SureLink {
            wire: Wire::new(alloc, input),
        }
    }

    /// What it holds, while it is whole.
    pub fn taken(&self) -> &[u8]
        ensures { IsTrue (sure_whole self.now) → sure_held self.now ≡ Some result.now }
    {
        self.wire.taken()
    }

    /// Whether it still tells its content. A call that finds no memory makes this false for good.
    pub fn whole(&self) -> bool
        ensures { result ≡ sure_whole self.now }
    {
        self.wire.whole()
    }
}

impl Source for SureLink {
    ghost use Rattle.std.specs.Prelude.{ℕ};
    ghost use Rattle.acra_devices.specs.Wires.{wire_left, wire_held};

    ghost left = { λ s. wire_left s.wire };

    ghost read_faults = { λ _. 0 };

    ghost held_beside = { λ s. wire_held s.wire };

    fn read(&mut self, buf: &mut [u8]) -> Result<usize, Failed> {
        Ok(self.wire.read(buf))
    }
}

impl Sink for SureLink {
    ghost use Rattle.std.specs.Prelude.{ℕ};
    ghost use Rattle.acra_devices.specs.Wires.{wire_left, wire_held};

    ghost held = { λ s. wire_held s.wire };

    ghost write_faults = { λ _. 0 };

    ghost left_beside = { λ s. wire_left s.wire };

    fn write(&mut self, bytes: &[u8]) -> Result<usize, Failed> {
        self.wire.write(bytes);
        Ok(bytes.len())
    }
}

impl Link for SureLink {
    ghost use Rattle.std.proofs.Common.{refl};

    ghost one_held = { λ _. refl };

    ghost one_left = { λ _. refl };

    ghost one_write_count = { λ _. refl };

    ghost one_read_count = { λ _. refl };
}

/// Both ends of a connection, in memory. Exactly the calls whose numbers are listed fail, counted
/// from 0 over its reads and writes. It tells its content while `whole`.
#[derive(Drop)]
pub struct MemLink {
    wire: Wire,
    calls: Calls,
    read_faults: u64,
    write_faults: u64,
}

impl MemLink {
    ghost use Rattle.acra_devices.specs.Memory.{mem_left, mem_held, mem_whole, mem_failing, mem_calls};

    /// A link with this input left, which holds nothing. It takes no memory now.
    pub fn new(alloc: Global, input: Vec<u8>, failing: Vec<u64>) -> Self
        ensures left { mem_left result ≡ Some input.items }
        ensures held { mem_held result ≡ Some [] }
        ensures failing { mem_failing result ≡ failing.items }
        ensures calls { mem_calls result ≡ 0 }
        ensures read_faults { ⟦<MemLink as Source>⟧.read_faults result ≡ 0 }
        ensures write_faults { ⟦<MemLink as Sink>⟧.write_faults result ≡ 0 }
    {
        MemLink {
            wire: Wire::new(alloc, input),
            calls: Calls::new(failing),
            read_faults: 0,
            write_faults: 0,
        }
    }

    /// What it holds, while it is whole.
    pub fn taken(&self) -> &[u8]
        ensures { IsTrue (mem_whole self.now) → mem_held self.now ≡ Some result.now }
    {
        self.wire.taken()
    }

    /// Whether it still tells its content. A call that finds no memory makes this false for good.
    pub fn whole(&self) -> bool
        ensures { result ≡ mem_whole self.now }
    {
        self.wire.whole()
    }
}

impl Source for MemLink {
    ghost use Rattle.acra_devices.specs.Wires.{wire_left, wire_held};
    ghost use Rattle.acra_devices.specs.Memory.{mem_left, mem_held, mem_failing, mem_calls};

    ghost left = { λ s. wire_left s.wire };

    ghost read_faults = { λ s. s.read_faults };

    ghost held_beside = { λ s. wire_held s.wire };

    ghost write_faults_beside = { λ s. s.write_faults };

    fn read(&mut self, buf: &mut [u8]) -> Result<usize, Failed>
        requires { 0 < length buf.old }
        ensures bound { IfOk result (λ n. n ≤ length buf.new) }
        ensures bytes { ReadGives (mem_left self.old) (mem_left self.new) result buf.new }
        ensures cause { HasCause (⟦<MemLink as Source>⟧.read_faults self.old) (⟦<MemLink as Source>⟧.read_faults self.new) result }
        ensures beside { Grew (mem_held self.old) (mem_held self.new) [] }
        ensures other { ⟦<MemLink as Source>⟧.write_faults_beside self.old ≤ ⟦<MemLink as Source>⟧.write_faults_beside self.new }
        ensures exactly { IsErr result ↔ Contains (mem_failing self.old) (mem_calls self.old) }
        ensures counted { mem_calls self.new ≡ min (mem_calls self.old + 1) (2 ^ 64 - 1) }
        ensures listed { mem_failing self.new ≡ mem_failing self.old }
    {
        if self.calls.fails() {
            self.read_faults = self.read_faults.saturating_add(1);
            return Err(Failed);
        }
        Ok(self.wire.read(buf))
    }
}

impl Sink for MemLink {
    ghost use Rattle.acra_devices.specs.Wires.{wire_left, wire_held};
    ghost use Rattle.acra_devices.specs.Memory.{mem_left, mem_held, mem_failing, mem_calls};

    ghost held = { λ s. wire_held s.wire };

    ghost write_faults = { λ s. s.write_faults };

    ghost left_beside = { λ s. wire_left s.wire };

    ghost read_faults_beside = { λ s. s.read_faults };

    fn write(&mut self, bytes: &[u8]) -> Result<usize, Failed>
        ensures bound { TakesSome result (length bytes.now) }
        ensures bytes { WriteTakes (mem_held self.old) (mem_held self.new) result bytes.now }
        ensures cause { HasCause (⟦<MemLink as Sink>⟧.write_faults self.old) (⟦<MemLink as Sink>⟧.write_faults self.new) result }
        ensures beside { Shrank (mem_left self.old) (mem_left self.new) [] }
        ensures other { ⟦<MemLink as Sink>⟧.read_faults_beside self.old ≤ ⟦<MemLink as Sink>⟧.read_faults_beside self.new }
        ensures exactly { IsErr result ↔ Contains (mem_failing self.old) (mem_calls self.old) }
        ensures counted { mem_calls self.new ≡ min (mem_calls self.old + 1) (2 ^ 64 - 1) }
        ensures listed { mem_failing self.new ≡ mem_failing self.old }
    {
        if self.calls.fails() {
            self.write_faults = self.write_faults.saturating_add(1);
            return Err(Failed);
        }
        self.wire.write(bytes);
        Ok(bytes.len())
    }
}

impl Link for MemLink {
    ghost use Rattle.std.proofs.Common.{refl};

    ghost one_held = { λ _. refl };

    ghost one_left = { λ _. refl };

    ghost one_write_count = { λ _. refl };

    ghost one_read_count = { λ _. refl };
}
