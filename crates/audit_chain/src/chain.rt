ghost use Rattle.std.specs.Prelude.{◌≡◌, ◌≤◌, ◌↔◌, ◌∷◌, ◌++◌, List, ℕ, [], codes, Ok, IfOk, OnOk, IsErrOf, IsTrue, true, false};
ghost use Rattle.acra_devices.specs.Causes.{Rose};
ghost use Rattle.acra_devices.specs.Pieces.{AppendKeeps};
ghost use Rattle.acra_crypto.specs.Hmac.{hmac_sha256};
ghost use Rattle.audit_chain.specs.Kinds.{is_close};
ghost use Rattle.audit_chain.specs.Lines.{IsNote};
ghost use Rattle.audit_chain.specs.Points.{next_number, next_mac, next_line, point_after, start, IsNext, StandsBehind};
ghost use Rattle.audit_chain.specs.Appending.{appended};

use crate::kind::NoteKind;
use crate::line::{note_text, read_note, with_mac};
use crate::note::Note;
use crate::refusals::AppendRefusal;
use acra_base::NoMemory;
use acra_crypto::{HmacStream, hmac_sha256};
use acra_devices::Keeper;
use std::alloc::Global;
use std::marker::Model;

/// Where the log stands: what is needed of the lines so far to write the next one.
#[derive(Drop)]
pub struct Chain {
    number: u64,
    key: [u8; 32],
    mac: [u8; 32],
    ended: bool,
}

impl Model for Chain {
    ghost use Rattle.audit_chain.specs.Points.{Point};

    ghost Value = { Point };

    ghost view = { λ c. record { number = c.number; key = c.key; mac = c.mac; ended = c.ended } };
}

/// A line, without its newline, and its mac.
#[derive(Drop)]
struct Line {
    bytes: Vec<u8>,
    mac: [u8; 32],
}

impl Chain {
    /// An empty log with this key.
    pub fn new(key: [u8; 32]) -> Chain
        ensures value { result ≡ start key }
        ensures stands { StandsBehind key [] result }
    {
        Chain {
            number: 0,
            key,
            mac: [0; 32],
            ended: false,
        }
    }

    /// The number of the last line, 0 before the first.
    pub fn number(&self) -> u64
        ensures { result ≡ self.now.number }
    {
        self.number
    }

    /// Whether nothing more can be appended: a line closed the log, or a keeper failed.
    pub fn is_ended(&self) -> bool
        ensures { result ≡ self.now.ended }
    {
        self.ended
    }

    /// The number of the next line.
    pub fn next_number(&self) -> u64
        ensures { result ≡ next_number self.now }
    {
        self.number.wrapping_add(1)
    }

    fn mac(&self, text: &[u8]) -> [u8; 32]
        ensures { result ≡ hmac_sha256 self.now.key (self.now.mac ++ text.now) }
    {
        let mut stream = HmacStream::new(&self.key);
        stream.update(&self.mac);
        stream.update(text);
        stream.finish()
    }

    fn next(&self, alloc: Global, note: &Note) -> Result<Line, NoMemory>
        ensures bytes { IfOk result (λ line. line.bytes.items ≡ next_line self.now note.now) }
        ensures mac { IfOk result (λ line. line.mac ≡ next_mac self.now note.now) }
        ensures formed { OnOk result (IsNote note.now) }
    {
        let text = note_text(alloc, self.next_number(), note)?;
        let mac = self.mac(&text);
        let bytes = with_mac(alloc, text, &mac)?;
        Ok(Line { bytes, mac })
    }

    // The same with its newline.
    fn next_written(&self, alloc: Global, note: &Note) -> Result<Line, NoMemory>
        ensures bytes { IfOk result (λ line. line.bytes.items ≡ next_line self.now note.now ++ 10 ∷ []) }
        ensures mac { IfOk result (λ line. line.mac ≡ next_mac self.now note.now) }
        ensures formed { OnOk result (IsNote note.now) }
    {
        let Line { mut bytes, mac } = self.next(alloc, note)?;
        bytes.push(b'\n')?;
        Ok(Line { bytes, mac })
    }

    fn advance(&mut self, kind: NoteKind, mac: [u8; 32])
        ensures { self.new ≡ record { number = next_number self.old; key = hmac_sha256 self.old.key (codes "next"); mac = mac; ended = is_close kind } }
    {
        self.number = self.next_number();
        self.key = hmac_sha256(&self.key, b"next");
        self.mac = mac;
        self.ended = kind == NoteKind::Close;
    }

    /// Appends the line that says a note next, and gives its number. Without memory, or where it is ended, the
    /// chain and the keeper stay. Behind a keeper that failed it is ended.
    pub fn append<K: Keeper>(
        &mut self,
        alloc: Global,
        keeper: &mut K,
        note: &Note,
    ) -> Result<u64, AppendRefusal>
        ensures closed { (result ≡ Err AppendRefusal.Closed) ↔ IsTrue self.old.ended }
        ensures number { IfOk result (λ number. number ≡ next_number self.old) }
        ensures kept { AppendKeeps (K.kept keeper.old) (K.kept keeper.new) result (next_line self.old note.now ++ 10 ∷ []) }
        ensures chain { self.new ≡ appended self.old note.now result }
        ensures stands { (key : List ℕ) (lines : List (List ℕ)) → StandsBehind key lines self.old
            → OnOk result (StandsBehind key (lines ++ next_line self.old note.now ∷ []) self.new) }
        ensures later { K.keeper_faults keeper.old ≤ K.keeper_faults keeper.new }
        ensures stayed { OnOk result (K.keeper_faults keeper.new ≡ K.keeper_faults keeper.old) }
        ensures untouched { (IsErrOf result AppendRefusal.NoMemory → keeper.new ≡ keeper.old)
            × (IsErrOf result AppendRefusal.Closed → keeper.new ≡ keeper.old) }
        ensures keeper_fault { IsErrOf result AppendRefusal.KeeperFault → Rose (K.keeper_faults keeper.old) (K.keeper_faults keeper.new) }
    {
        if self.ended {
            return Err(AppendRefusal::Closed);
        }
        let Ok(line) = self.next_written(alloc, note) else {
            return Err(AppendRefusal::NoMemory);
        };
        match keeper.append(&line.bytes) {
            Ok(()) => {
                self.advance(note.kind, line.mac);
                Ok(self.number)
            }
            Err(_) => {
                self.ended = true;
                Err(AppendRefusal::KeeperFault)
            }
        }
    }

    /// Goes on by a line, without its newline, where it is the next one.
    pub(crate) fn follow(&mut self, alloc: Global, line: &[u8]) -> Result<bool, NoMemory>
        ensures yes { result ≡ Ok true → (note : Note) × IsNext self.old line.now note × (self.new ≡ point_after self.old note) }
        ensures no { result ≡ Ok false → (note : Note) → IsNext self.old line.now note → ⊥ }
    {
        if self.is_ended() {
            return Ok(false);
        }
        let Some(note) = read_note(line) else {
            return Ok(false);
        };
        let next = self.next(alloc, &note)?;
        if next.bytes.as_slice() != line {
            return Ok(false);
        }
        self.advance(note.kind, next.mac);
        Ok(true)
    }
}
