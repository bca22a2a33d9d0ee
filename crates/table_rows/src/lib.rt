//! The small programs over rows of stored cells: conditions, order, and values read for columns.
#![tactic(auto)]

mod filter;
mod logic;
mod reading;
mod seen;
mod sorting;

pub use filter::{Filter, Term, passes};
pub use reading::{ReadRefusal, read_cell};
pub use seen::{Seen, are_equal, cell_at, is_null};
pub use sorting::{SortKey, sort_rows};
