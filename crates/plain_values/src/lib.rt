//! The values of columns: their canonical plaintext, and its spelling for a client.
#![tactic(auto)]

mod laws;
mod numbers;
mod reading;
mod refusal;
mod spelling;
mod texts;

pub use laws::{read_is_canonical, spelled_again};
pub use reading::{MOST_PLAIN, canonical_binary, canonical_text, read_number, read_text};
pub use refusal::ValueRefusal;
pub use spelling::spell;
pub use texts::is_plain_text;
