//! Cells: what is stored for a value of a protected column, sealed, searchable or masked, and the
//! containers in them.
#![tactic(auto)]

mod cell;
mod container;
mod cut;
mod index;
mod keys;
mod kind;
mod laws;
mod opening;
mod parts;
mod place;

pub use cell::seal_cell;
pub use container::{Container, read_container};
pub use index::blind_index;
pub use keys::{KeyView, LiveKey, OwnerKey};
pub use kind::CellKind;
pub use laws::{one_extra, one_form, one_place, plain_is_spelled, sealed_opens};
pub use opening::{Opened, open_cell};
pub use parts::{PlainPart, key_id, plain_part};
pub use place::CellPlace;
