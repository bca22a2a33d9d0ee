ghost use Rattle.std.specs.Prelude.{◌≡◌, OnErr, OnOk};
ghost use Rattle.lab_backend.specs.Sessions.{TakesOldest, new_session, session_fed};

use crate::requests::{Next, next_request};
use acra_base::NoMemory;
use pg_wire::{Framer, Front, Side};
use std::alloc::Global;
use std::marker::Model;

/// The longest text that is read, in bytes.
pub const TEXT_LIMIT: u32 = 1 << 27;

/// What came of a session and was not executed.
#[derive(Drop)]
pub struct Connection {
    alloc: Global,
    framer: Framer,
    is_over: bool,
}

impl Model for Connection {
    ghost use Rattle.std.specs.Prelude.{◌≡◌};
    ghost use Rattle.pg_wire.specs.declared.frame.Side.TheVariants as side;
    ghost use Rattle.lab_backend.specs.Sessions.{Session};

    ghost Value = { Session };

    ghost view = { λ c. record { stream = c.framer; over = c.is_over } };

    ghost invariant = { λ c. c.framer.who ≡ side.Client };
}

impl Connection {
    /// A session that awaits its startup. It takes no memory.
    pub fn new(alloc: Global) -> Connection
        ensures { result ≡ new_session }
    {
        Connection {
            alloc,
            framer: Framer::new(alloc, Side::Client, TEXT_LIMIT),
            is_over: false,
        }
    }

    /// Takes the next bytes of the client. Without memory it takes none.
    pub fn feed(&mut self, bytes: &[u8]) -> Result<(), NoMemory>
        ensures ok { OnOk result (self.new ≡ session_fed self.old bytes.now) }
        ensures err { OnErr result (self.new ≡ self.old) }
    {
        self.framer.feed(bytes)
    }

    /// Takes the oldest whole request, `None` where there is none. Without memory a request may be lost.
    pub fn next_request(&mut self) -> Result<Option<Front>, NoMemory>
        ensures { TakesOldest self.old result self.new }
    {
        if self.is_over {
            return Ok(None);
        }
        match next_request(self.alloc, &mut self.framer)? {
            Next::Request(request) => Ok(Some(request)),
            Next::Waiting => Ok(None),
            Next::Over => {
                self.is_over = true;
                Ok(None)
            }
        }
    }
}
