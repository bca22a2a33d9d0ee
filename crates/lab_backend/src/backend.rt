ghost use Rattle.std.specs.Prelude.{◌≡◌, ◌≢◌, ◌↔◌, ℕ, IfOk, OnErr, OnOk, if◌then◌else◌, slice_get, true};
ghost use Rattle.table_machine.specs.Reordered.{CanReorder, reordered};
ghost use Rattle.lab_backend.specs.Backend.{ExecuteGives, session_of};
ghost use Rattle.lab_backend.specs.Sessions.{new_session, session_fed};

use crate::answers::answer_request;
use crate::sessions::Sessions;
use acra_base::NoMemory;
use std::alloc::Global;
use std::marker::Model;
use table_store::Tables;

/// The lab's backend.
#[derive(Drop)]
pub struct LabBackend {
    alloc: Global,
    tables: Tables,
    sessions: Sessions,
}

impl Model for LabBackend {
    ghost use Rattle.lab_backend.specs.Backend.{Lab};

    ghost Value = { Lab };

    ghost view = { λ b. record { tables = b.tables; sessions = b.sessions } };
}

impl LabBackend {
    /// A backend of these tables, each of whose sessions awaits its startup. It takes no memory.
    pub fn new(alloc: Global, tables: Tables) -> LabBackend
        ensures tables { result.tables ≡ tables }
        ensures sessions { (n : ℕ) → session_of result n ≡ new_session }
    {
        LabBackend {
            alloc,
            tables,
            sessions: Sessions::new(alloc),
        }
    }

    /// Takes the next bytes of a session. Without memory it takes none.
    pub fn feed(&mut self, session: u16, bytes: &[u8]) -> Result<(), NoMemory>
        ensures ok { OnOk result (session_of self.new session ≡ session_fed (session_of self.old session) bytes.now) }
        ensures err { OnErr result (session_of self.new session ≡ session_of self.old session) }

        // The other sessions and the tables stay.
        ensures others { (n : ℕ) → n ≢ session → session_of self.new n ≡ session_of self.old n }
        ensures tables { self.new.tables ≡ self.old.tables }
    {
        self.sessions.feed(session, bytes)
    }

    /// Executes a session's oldest whole request and appends its reply; false where there is none.
    ///
    /// A request is a startup while one is awaited, then a Query. What is neither begins none, and nothing of
    /// the session after it is executed. Without memory nothing is appended, and the request may be taken and
    /// executed. A message of 2^30 bytes or more, or of more than 65,535 columns, counts as want of memory.
    pub fn execute(&mut self, session: u16, out: &mut Vec<u8>) -> Result<bool, NoMemory>
        ensures gives { ExecuteGives session self.old result self.new out.old.items out.new.items }
        // The other sessions stay.
        ensures others { (n : ℕ) → n ≢ session → session_of self.new n ≡ session_of self.old n }
    {
        let Some(request) = self.sessions.next_request(session)? else {
            return Ok(false);
        };
        let mut reply = Vec::new(self.alloc);
        answer_request(self.alloc, &mut self.tables, session, request, &mut reply)?;
        out.extend_from_slice(&reply)?;
        Ok(true)
    }

    /// Brings the rows of the table of this number into the order of these old places, which count from 0; false,
    /// and nothing changes, where there is no such table or the places are no permutation of its rows. Without
    /// memory all stays as it was.
    pub fn reorder(&mut self, table: u16, places: &[u32]) -> Result<bool, NoMemory>
        ensures exact { IfOk result (λ done. (done ≡ true) ↔ CanReorder places.now (slice_get self.old.tables table)) }
        ensures ok { IfOk result (λ done. self.new.tables ≡ (if done then reordered table places.now self.old.tables else self.old.tables)) }
        ensures err { OnErr result (self.new.tables ≡ self.old.tables) }
        // The sessions stay.
        ensures sessions { self.new.sessions ≡ self.old.sessions }
    {
        self.tables.reorder(table, places)
    }
}
