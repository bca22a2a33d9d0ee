//! Texts of settings in JSON that are refused by the least rule that they break, at its first place.
#![tactic(auto)]

mod laws;
mod members;
mod name;
mod place;
mod tested;
mod top;

pub use laws::{one_least, places_by_numbers};
pub use members::{
    all_members_texts, all_texts, count_at, flag_at, items_at, plain_text, text_at, texts_at,
};
pub use name::is_name;
pub use place::{Broken, NO_PLACE, Place};
pub use tested::{Tested, first_broken, first_place};
pub use top::{objects_at, read_json};
