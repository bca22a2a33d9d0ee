ghost use Rattle.std.specs.Prelude.{◌≡◌, ◌≤◌, ◌<◌, ◌++◌, [], length, take, ℕ, List, Some, None, Option};
ghost use Rattle.acra_devices.specs.Known.{Grew, Shrank, IsAtEnd};

use std::alloc::Global;

/// The two directions of a connection in memory: the input that is left, and what it has taken.
#[derive(Drop)]
pub struct Wire {
    input: Vec<u8>,
    at: usize,
    taken: Vec<u8>,
    whole: bool,
}

impl Wire {
    ghost use Rattle.acra_devices.specs.Wires.{wire_left, wire_held};

    /// This input, and nothing taken.
    pub fn new(alloc: Global, input: Vec<u8>) -> Self
        ensures left { wire_left result ≡ Some input.items }
        ensures held { wire_held result ≡ Some [] }
    {
        Wire {
            input,
            at: 0,
            taken: Vec::new(alloc),
            whole: true,
        }
    }

    /// What it has taken.
    pub fn taken(&self) -> &[u8]
        ensures { result.now ≡ self.now.taken.items }
    {
        &self.taken
    }

    /// Whether each call found memory.
    pub fn whole(&self) -> bool
        ensures { result ≡ self.now.whole }
    {
        self.whole
    }

    /// Moves the next bytes into the front of `buf`: none only at the end.
    pub fn read(&mut self, buf: &mut [u8]) -> usize
        requires { 0 < length buf.old }
        ensures bound { result ≤ length buf.new }
        ensures bytes { Shrank (wire_left self.old) (wire_left self.new) (take result buf.new) }
        ensures end { result ≡ 0 → IsAtEnd (wire_left self.new) }
        ensures held { wire_held self.new ≡ wire_held self.old }
    {
        if self.at >= self.input.len() {
            return 0;
        }
        let rest = self.input.len() - self.at;
        let count = rest.min(buf.len());
        buf[..count].copy_from_slice(&self.input[self.at..self.at + count]);
        self.at += count;
        count
    }

    /// Takes all of the bytes, where there is memory.
    pub fn write(&mut self, bytes: &[u8])
        ensures bytes { Grew (wire_held self.old) (wire_held self.new) bytes.now }
        ensures left { Shrank (wire_left self.old) (wire_left self.new) [] }
    {
        if self.taken.extend_from_slice(bytes).is_err() {
            self.whole = false;
        }
    }
}
