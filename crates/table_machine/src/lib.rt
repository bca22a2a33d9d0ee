//! What tables are, and what the statements of the SQL profile do to them: the machine of tables, defined
//! once over any kind of cells, with its faults, its stored cells, and its law. Definitions, and no program.
#![tactic(auto)]

mod cell;
mod laws;
mod table;

pub use cell::Cell;
pub use laws::cells_are_carried;
pub use table::{BrokenKey, ColumnDef, LabFault, OutColumn, Outcome, TableDef};
