ghost use Rattle.std.specs.Prelude.{◌≡◌, ◌≤◌, length, take, ◌∷◌, ◌++◌, List, ℕ, [], Result, MatchResult, IsErrOf};
ghost use Rattle.audit_chain.specs.Walks.{IsAt, Walks, EndsAt};

use crate::chain::Chain;
use crate::stop::Stop;
use std::alloc::Global;

/// A line has at most this many bytes before its newline.
const LINE_LIMIT: usize = 512;

/// A walk along a log: where the lines so far leave the chain, and what has come of the next line.
#[derive(Drop)]
pub struct Walk {
    chain: Chain,
    pending: Vec<u8>,
}

impl Walk {
    /// At the beginning of a log with this key.
    pub fn new(alloc: Global, key: [u8; 32]) -> Walk
        ensures { IsAt key result [] }
    {
        Walk {
            chain: Chain::new(key),
            pending: Vec::new(alloc),
        }
    }

    fn end_line(&mut self, alloc: Global) -> Result<(), Stop>
        ensures walks { Walks self.old self.new (10 ∷ []) result }
        ensures no_read { IsErrOf result Stop.ReadFault → ⊥ }
    {
        let line = self.chain.next_number();
        match self.chain.follow(alloc, &self.pending) {
            Ok(true) => {
                self.pending.clear();
                Ok(())
            }
            Ok(false) => Err(Stop::Broken { line }),
            Err(_) => Err(Stop::NoMemory),
        }
    }

    fn take(&mut self, alloc: Global, byte: u8) -> Result<(), Stop>
        ensures walks { Walks self.old self.new (byte ∷ []) result }
        ensures no_read { IsErrOf result Stop.ReadFault → ⊥ }
    {
        if byte == b'\n' {
            return self.end_line(alloc);
        }
        if self.pending.len() >= LINE_LIMIT {
            let line = self.chain.next_number();
            return Err(Stop::LineTooLong { line });
        }
        match self.pending.push(byte) {
            Ok(()) => Ok(()),
            Err(_) => Err(Stop::NoMemory),
        }
    }

    fn take_all(&mut self, alloc: Global, piece: &[u8]) -> Result<(), Stop>
        ensures walks { Walks self.old self.new piece.now result }
        ensures no_read { IsErrOf result Stop.ReadFault → ⊥ }
    {
        'bytes: for byte in piece {
            match self.take(alloc, *byte) {
                Ok(()) => {}
                Err(stop) => return Err(stop),
            }
        }
        Ok(())
    }

    /// Goes along the first bytes of a buffer.
    pub fn take_front(&mut self, alloc: Global, buf: &[u8; 4096], count: usize) -> Result<(), Stop>
        requires { count ≤ length buf.now }
        ensures walks { Walks self.old self.new (take count buf.now) result }
        ensures no_read { IsErrOf result Stop.ReadFault → ⊥ }
    {
        self.take_all(alloc, &buf[..count])
    }

    /// At the end of the log: the chain behind its lines.
    pub fn end(self) -> Result<Chain, Stop>
        ensures ends { (key bytes : List ℕ) → IsAt key self bytes → EndsAt key bytes result }
        ensures no_read { IsErrOf result Stop.ReadFault → ⊥ }
    {
        let Walk { chain, pending } = self;
        if pending.is_empty() {
            return Ok(chain);
        }
        Err(Stop::Broken {
            line: chain.next_number(),
        })
    }
}
