//! What is wrong with a statement before it is executed, and its parts bound to places and cells.
#![tactic(auto)]

mod columns;
mod conditions;
mod counts;
mod faults;
mod kinds;
mod names;
mod refusal;
mod results;
mod rows;
mod sets;
mod shape;
mod shown;
mod values;

pub use columns::out_columns;
pub use conditions::bind_where;
pub use faults::{key_twice, no_table, null_in};
pub use refusal::BindRefusal;
pub use results::{bind_items, bind_keys};
pub use rows::bind_rows;
pub use sets::{SetCell, bind_sets, set_row};
pub use shape::check_shape;
pub use shown::{out_row, spelled_row};
