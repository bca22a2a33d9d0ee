ghost use Rattle.std.specs.Prelude.{◌≡◌};
ghost use Rattle.ring_file.specs.Reading.{next_id_at, client_count_at, key_count_at, name_length_at, old_phase_at, current_at};
ghost use Rattle.byte_reader.specs.Readers.{Gives};

use byte_reader::{Unread, byte_of, le_u16_of, le_u64_of};
use keystore::OldPhase;

/// Reads the id that the next key gets.
pub fn next_id_of(bytes: &[u8]) -> Result<(u64, &[u8]), Unread>
    ensures { Gives (λ x. (x.0, x.1.now)) result (next_id_at bytes.now) }
{
    let (next, rest) = le_u64_of(bytes)?;
    if next < 1 {
        return Err(Unread::At { left: bytes.len() });
    }
    Ok((next, rest))
}

/// Reads how many clients there are.
pub fn client_count_of(bytes: &[u8]) -> Result<(u16, &[u8]), Unread>
    ensures { Gives (λ x. (x.0, x.1.now)) result (client_count_at bytes.now) }
{
    let (count, rest) = le_u16_of(bytes)?;
    if count > 256 {
        return Err(Unread::At { left: bytes.len() });
    }
    Ok((count, rest))
}

/// Reads how many keys a client has.
pub fn key_count_of(bytes: &[u8]) -> Result<(u16, &[u8]), Unread>
    ensures { Gives (λ x. (x.0, x.1.now)) result (key_count_at bytes.now) }
{
    let (count, rest) = le_u16_of(bytes)?;
    if count < 1 || count > 256 {
        return Err(Unread::At { left: bytes.len() });
    }
    Ok((count, rest))
}

/// Reads how long a name is.
pub fn name_length_of(bytes: &[u8]) -> Result<(u8, &[u8]), Unread>
    ensures { Gives (λ x. (x.0, x.1.now)) result (name_length_at bytes.now) }
{
    let (len, rest) = byte_of(bytes)?;
    if len < 1 || len > 64 {
        return Err(Unread::At { left: bytes.len() });
    }
    Ok((len, rest))
}

/// Reads the phase of a key that isn't the last.
pub fn old_phase_of(bytes: &[u8]) -> Result<(OldPhase, &[u8]), Unread>
    ensures { Gives (λ x. (x.0, x.1.now)) result (old_phase_at bytes.now) }
{
    let (number, rest) = byte_of(bytes)?;
    match number {
        1 => Ok((OldPhase::Draining(1), rest)),
        2 => Ok((OldPhase::Swept(1), rest)),
        _ => Err(Unread::At { left: bytes.len() }),
    }
}

/// Reads the phase of the last key, which is current.
pub fn current_of(bytes: &[u8]) -> Result<(u8, &[u8]), Unread>
    ensures { Gives (λ x. (x.0, x.1.now)) result (current_at bytes.now) }
{
    let (number, rest) = byte_of(bytes)?;
    if number != 0 {
        return Err(Unread::At { left: bytes.len() });
    }
    Ok((number, rest))
}
