ghost use Rattle.std.specs.Prelude.{◌≡◌, IfOk};

use acra_base::{Bytes, NoMemory};

/// A cell as it is stored.
#[derive(Debug, Drop)]
pub enum Cell {
    /// NULL.
    Null,
    /// An integer, in an int4 or int8 column.
    Int(i64),
    /// Text or bytes, in a text or bytea column.
    Bytes(Bytes),
}

impl Cell {
    /// A copy of the cell.
    pub fn copied(&self) -> Result<Cell, NoMemory>
        ensures { IfOk result (λ cell. cell ≡ self.now) }
    {
        match self {
            Cell::Null => Ok(Cell::Null),
            Cell::Int(number) => Ok(Cell::Int(*number)),
            Cell::Bytes(bytes) => Ok(Cell::Bytes(bytes.clone()?)),
        }
    }
}
