//! A keeper of pieces in a file: each piece behind its length, so that a file gives back the pieces that it was given.
#![tactic(auto)]

mod keeper;

pub use keeper::PieceKeeper;
