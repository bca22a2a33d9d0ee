//! A file of pieces, each behind its length.
ghost use Rattle.std.specs.Prelude.{◌≡◌, ℕ, List};
ghost use Rattle.std.specs.Int.{w32, to_le_bytes};
ghost use Rattle.byte_reader.specs.Readers.{Gives};
ghost use Rattle.token_records.specs.Pieces.{ArePieces, StopsAt, IsCause, AnswersPieces, AnswersPlace, piece_at};

use acra_base::{Bytes, Sequence};
use byte_reader::{Unread, bytes_of, le_u32_of};
use std::alloc::Global;
use thiserror::Error;

/// Why bytes give no pieces.
#[derive(Clone, Copy, Debug, PartialEq, Eq, Error)]
pub enum PiecesFault {
    /// The bytes before this place are whole pieces, and what stands from there on begins with none.
    #[error("no whole piece stands at byte {place}")]
    NotWhole { place: usize },
    /// There was no memory for the pieces.
    #[error("out of memory")]
    NoMemory,
}

/// What stands before a piece of this length.
pub fn piece_head(length: u32) -> [u8; 4]
    ensures { result ≡ to_le_bytes w32 length }
{
    length.to_le_bytes()
}

/// Reads the first piece.
fn piece_of(alloc: Global, bytes: &[u8]) -> Result<(Bytes, &[u8]), Unread>
    ensures { Gives (λ x. (x.0, x.1.now)) result (piece_at bytes.now) }
{
    let (length, rest) = le_u32_of(bytes)?;
    bytes_of(alloc, length as usize, rest)
}

/// The pieces of a file. Where its bytes aren't whole pieces, the answer is the place of the first piece that isn't whole.
pub fn read_pieces(alloc: Global, bytes: &[u8]) -> Result<Sequence<Bytes>, PiecesFault>
    ensures cause { IsCause bytes.now result }
    ensures whole { (pieces : List (List ℕ)) → ArePieces bytes.now pieces → AnswersPieces result pieces }
    ensures stop { (place : ℕ) → StopsAt bytes.now place → AnswersPlace result place }
{
    let mut pieces = Sequence::new(alloc);
    let mut rest = bytes;
    'pieces: while !rest.is_empty() {
        match piece_of(alloc, rest) {
            Ok((piece, behind)) => match pieces.push(piece) {
                Ok(()) => rest = behind,
                Err(_) => return Err(PiecesFault::NoMemory),
            },
            Err(Unread::At { .. }) => {
                return Err(PiecesFault::NotWhole {
                    place: bytes.len() - rest.len(),
                });
            }
            Err(Unread::NoMemory) => return Err(PiecesFault::NoMemory),
        }
    }
    Ok(pieces)
}
