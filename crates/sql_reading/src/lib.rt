//! Reading tokens as statements: each call does what the reader of its production gives.
#![tactic(auto)]

mod comparison;
mod conditions;
mod cursor;
mod items;
mod levels;
mod made;
mod parts;
mod statements;
mod stop;

pub use cursor::Cursor;
pub use made::Reading;
pub use statements::read_whole;
pub use stop::Stop;
