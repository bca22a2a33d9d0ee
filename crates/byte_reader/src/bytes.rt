ghost use Rattle.std.specs.Prelude.{◌≡◌, ◌==◌};
ghost use Rattle.std.specs.List.{position};
ghost use Rattle.byte_reader.specs.Fields.{bytes_at, str_at};
ghost use Rattle.byte_reader.specs.Readers.{Gives};

use crate::unread::Unread;
use acra_base::Bytes;
use std::alloc::Global;

/// Reads this many bytes where they stand.
pub fn slice_of(count: usize, bytes: &[u8]) -> Result<(&[u8], &[u8]), Unread>
    ensures { Gives (λ x. (x.0.now, x.1.now)) result (bytes_at count bytes.now) }
{
    if bytes.len() < count {
        return Err(Unread::At { left: bytes.len() });
    }
    Ok(bytes.split_at(count))
}

/// Reads as many bytes as the array has.
pub fn array_of<const N: usize>(bytes: &[u8]) -> Result<([u8; N], &[u8]), Unread>
    ensures { Gives (λ x. (x.0, x.1.now)) result (bytes_at N bytes.now) }
{
    let (taken, rest) = slice_of(N, bytes)?;
    let mut array = [0; N];
    array.copy_from_slice(taken);
    Ok((array, rest))
}

/// Reads this many bytes.
pub fn bytes_of(alloc: Global, count: usize, bytes: &[u8]) -> Result<(Bytes, &[u8]), Unread>
    ensures { Gives (λ x. (x.0, x.1.now)) result (bytes_at count bytes.now) }
{
    let (taken, rest) = slice_of(count, bytes)?;
    Ok((Bytes::copied(alloc, taken)?, rest))
}

/// Where the first zero byte stands.
fn zero_at(bytes: &[u8]) -> Option<usize>
    ensures { result ≡ position (λ b. b == 0) bytes.now }
{
    bytes.iter().position(|byte| *byte == 0)
}

/// Reads a text and the zero byte that ends it.
#[tactic(auto, unfolding(crate::specs::Fields::str_at))]
pub fn text_of(alloc: Global, bytes: &[u8]) -> Result<(Bytes, &[u8]), Unread>
    ensures { Gives (λ x. (x.0, x.1.now)) result (str_at bytes.now) }
{
    match zero_at(bytes) {
        None => Err(Unread::At { left: bytes.len() }),
        Some(end) => {
            let text = Bytes::copied(alloc, &bytes[..end])?;
            Ok((text, &bytes[end + 1..]))
        }
    }
}
