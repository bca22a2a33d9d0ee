//! The form of tokens' records, and of a file of pieces.
#![tactic(auto)]

mod front;
mod laws;
mod pieces;
mod record;
mod value;

pub use laws::one_record;
pub use pieces::{PiecesFault, piece_head, read_pieces};
pub use record::{Record, push_record, read_record};
pub use value::is_token_value;
