ghost use Rattle.std.specs.Prelude.{◌≡◌};
ghost use Rattle.std.specs.Int.{w16, w32, w64};
ghost use Rattle.byte_reader.specs.Fields.{byte_at, be_number_at, le_number_at};
ghost use Rattle.byte_reader.specs.Readers.{Gives};

use crate::bytes::array_of;
use crate::unread::Unread;

/// Reads a byte.
pub fn byte_of(bytes: &[u8]) -> Result<(u8, &[u8]), Unread>
    ensures { Gives (λ x. (x.0, x.1.now)) result (byte_at bytes.now) }
{
    match bytes {
        [] => Err(Unread::At { left: 0 }),
        [byte, rest @ ..] => Ok((*byte, rest)),
    }
}

/// Reads a number of two bytes, the greatest first.
pub fn be_u16_of(bytes: &[u8]) -> Result<(u16, &[u8]), Unread>
    ensures { Gives (λ x. (x.0, x.1.now)) result (be_number_at w16 bytes.now) }
{
    let (number, rest) = array_of(bytes)?;
    Ok((u16::from_be_bytes(number), rest))
}

/// Reads a number of four bytes, the greatest first.
pub fn be_u32_of(bytes: &[u8]) -> Result<(u32, &[u8]), Unread>
    ensures { Gives (λ x. (x.0, x.1.now)) result (be_number_at w32 bytes.now) }
{
    let (number, rest) = array_of(bytes)?;
    Ok((u32::from_be_bytes(number), rest))
}

/// Reads a number of eight bytes, the greatest first.
pub fn be_u64_of(bytes: &[u8]) -> Result<(u64, &[u8]), Unread>
    ensures { Gives (λ x. (x.0, x.1.now)) result (be_number_at w64 bytes.now) }
{
    let (number, rest) = array_of(bytes)?;
    Ok((u64::from_be_bytes(number), rest))
}

/// Reads a number of two bytes, the least first.
pub fn le_u16_of(bytes: &[u8]) -> Result<(u16, &[u8]), Unread>
    ensures { Gives (λ x. (x.0, x.1.now)) result (le_number_at w16 bytes.now) }
{
    let (number, rest) = array_of(bytes)?;
    Ok((u16::from_le_bytes(number), rest))
}

/// Reads a number of four bytes, the least first.
pub fn le_u32_of(bytes: &[u8]) -> Result<(u32, &[u8]), Unread>
    ensures { Gives (λ x. (x.0, x.1.now)) result (le_number_at w32 bytes.now) }
{
    let (number, rest) = array_of(bytes)?;
    Ok((u32::from_le_bytes(number), rest))
}

/// Reads a number of eight bytes, the least first.
pub fn le_u64_of(bytes: &[u8]) -> Result<(u64, &[u8]), Unread>
    ensures { Gives (λ x. (x.0, x.1.now)) result (le_number_at w64 bytes.now) }
{
    let (number, rest) = array_of(bytes)?;
    Ok((u64::from_le_bytes(number), rest))
}
