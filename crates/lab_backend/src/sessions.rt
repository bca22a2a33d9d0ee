ghost use Rattle.std.specs.Prelude.{◌≡◌, ◌≢◌, ◌≤◌, ℕ, OnErr, OnOk, vec_len};
ghost use Rattle.lab_backend.specs.Sessions.{TakesOldest, new_session, session_at, session_fed};

use crate::connection::Connection;
use acra_base::NoMemory;
use pg_wire::Front;
use std::alloc::Global;
use std::marker::Model;

/// The sessions by their numbers. A session takes room for those of all lower numbers too.
#[derive(Drop)]
pub struct Sessions {
    alloc: Global,
    // Those from this many on were never fed.
    connections: Vec<Connection>,
}

impl Model for Sessions {
    ghost use Rattle.std.specs.Prelude.{List};
    ghost use Rattle.lab_backend.specs.Sessions.{Session};

    ghost Value = { List Session };

    ghost view = { λ s. s.connections.items };
}

/// Makes new sessions until there are this many.
fn extend_to(alloc: Global, connections: &mut Vec<Connection>, count: usize) -> Result<(), NoMemory>
    ensures same { (n : ℕ) → session_at connections.new.items n ≡ session_at connections.old.items n }
    ensures enough { OnOk result (count ≤ vec_len connections.new) }
{
    'more: for _number in connections.len()..count {
        connections.push(Connection::new(alloc))?;
    }
    Ok(())
}

impl Sessions {
    /// Sessions of which nothing came. It takes no memory.
    pub fn new(alloc: Global) -> Sessions
        ensures { (n : ℕ) → session_at result n ≡ new_session }
    {
        Sessions {
            alloc,
            connections: Vec::new(alloc),
        }
    }

    /// Takes the next bytes of a session. Without memory it takes none.
    pub fn feed(&mut self, session: u16, bytes: &[u8]) -> Result<(), NoMemory>
        ensures ok { OnOk result (session_at self.new session ≡ session_fed (session_at self.old session) bytes.now) }
        ensures others { (n : ℕ) → n ≢ session → session_at self.new n ≡ session_at self.old n }
        ensures err { OnErr result ((n : ℕ) → session_at self.new n ≡ session_at self.old n) }
    {
        let number = usize::from(session);
        extend_to(self.alloc, &mut self.connections, number + 1)?;
        self.connections[number].feed(bytes)
    }

    /// Takes a session's oldest whole request, `None` where there is none. Without memory it may be lost.
    pub fn next_request(&mut self, session: u16) -> Result<Option<Front>, NoMemory>
        ensures taken { TakesOldest (session_at self.old session) result (session_at self.new session) }
        ensures others { (n : ℕ) → n ≢ session → session_at self.new n ≡ session_at self.old n }
    {
        let number = usize::from(session);
        if number >= self.connections.len() {
            return Ok(None);
        }
        self.connections[number].next_request()
    }
}
