//! DataRows that are written where they are sent from.
ghost use Rattle.std.specs.Prelude.{◌≡◌, ◌+◌, ◌-◌, ◌<◌, ◌≤◌, ◌^◌, ◌++◌, ◌∷◌, [], ℕ, List, Option, length, option_map, IfOk, OnOk, OnErr};
ghost use Rattle.pg_wire.specs.Parts.{cell_bytes};
ghost use Rattle.pg_wire.specs.Backs.{back_frame};
ghost use Rattle.pg_wire.specs.declared.back.Back.TheVariants as backs;
ghost use Rattle.wire_views.specs.Drafts.{IsDraft, Overwrites};

use acra_base::NoMemory;

/// The length that stands before NULL, -1.
const NULL_LENGTH: u32 = u32::MAX;

/// The type of a DataRow, and the room for its length and for the count of its cells.
const HEAD: [u8; 7] = [b'D', 0, 0, 0, 0, 0, 0];

/// A DataRow that is being written at the end of a buffer.
#[derive(Debug, Drop)]
pub struct RowDraft {
    /// Where its first byte stands.
    pub start: usize,
    /// How many cells it has so far.
    pub count: u16,
}

fn overwrite(out: &mut Vec<u8>, place: usize, bytes: &[u8])
    requires { place + length bytes.now ≤ length out.old.items }
    ensures over { Overwrites place bytes.now out.old.items out.new.items }
    ensures long { length out.new.items ≡ length out.old.items }
{
    'bytes: for index in 0..bytes.len() {
        out[place + index] = bytes[index];
    }
}

/// Puts a cell at the end.
fn put_cell(cell: Option<&[u8]>, out: &mut Vec<u8>) -> Result<(), NoMemory>
    requires { length (cell_bytes (option_map (λ c. c.now) cell)) < 2 ^ 31 }
    ensures ok { OnOk result (out.new.items ≡ out.old.items ++ cell_bytes (option_map (λ c. c.now) cell.entry)) }
    ensures err { OnErr result ((more : List ℕ) × (out.new.items ≡ out.old.items ++ more)) }
{
    match cell {
        None => out.extend_from_slice(&NULL_LENGTH.to_be_bytes())?,
        Some(bytes) => {
            out.extend_from_slice(&(bytes.len() as u32).to_be_bytes())?;
            out.extend_from_slice(bytes)?;
        }
    }
    Ok(())
}

impl RowDraft {
    /// Begins a row without cells at the end of a buffer. Without memory the buffer stays.
    pub fn begin(out: &mut Vec<u8>) -> Result<RowDraft, NoMemory>
        ensures ok { IfOk result (λ draft. IsDraft draft out.new.items out.old.items []) }
        ensures err { OnErr result (out.new.items ≡ out.old.items) }
    {
        let start = out.len();
        out.extend_from_slice(&HEAD)?;
        Ok(RowDraft { start, count: 0 })
    }

    /// Puts a cell behind those that stand, `None` for NULL. Without memory row and buffer stay.
    pub fn push(&mut self, cell: Option<&[u8]>, out: &mut Vec<u8>) -> Result<(), NoMemory>
        requires few { self.old.count < 65535 }
        requires short { length (cell_bytes (option_map (λ c. c.now) cell)) < 2 ^ 31 }
        ensures ok { (before : List ℕ) (cells : List (Option (List ℕ))) → IsDraft self.old out.old.items before cells → OnOk result (IsDraft self.new out.new.items before (cells ++ option_map (λ c. c.now) cell.entry ∷ [])) }
        ensures count { OnOk result (self.new.count ≡ self.old.count + 1) }
        ensures row { OnErr result (self.new ≡ self.old) }
        ensures buffer { OnErr result (out.new.items ≡ out.old.items) }
    {
        let len = out.len();
        match put_cell(cell, out) {
            Ok(()) => {
                self.count += 1;
                Ok(())
            }
            Err(NoMemory) => {
                out.truncate(len);
                Err(NoMemory)
            }
        }
    }

    /// Sets the length and the count of cells: the row is written. The frame is shorter than 2^30 bytes.
    pub fn finish(self, out: &mut Vec<u8>)
        requires draft { (before : List ℕ) × (cells : List (Option (List ℕ))) × IsDraft self out.old.items before cells }
        requires short { length out.old.items < self.start + 2 ^ 30 }
        ensures { (before : List ℕ) (cells : List (Option (List ℕ))) → IsDraft self out.old.items before cells → out.new.items ≡ before ++ back_frame (backs.Cells cells) }
    {
        let len = (out.len() - self.start - 1) as u32;
        overwrite(out, self.start + 1, &len.to_be_bytes());
        overwrite(out, self.start + 5, &self.count.to_be_bytes());
    }
}
