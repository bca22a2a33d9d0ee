ghost use Rattle.std.specs.Prelude.{◌≡◌, ℕ, List, Option, option_map};
ghost use Rattle.std.specs.Int.{w16, w32};
ghost use Rattle.byte_reader.specs.Fields.{be_number_at};
ghost use Rattle.pg_wire.specs.Bodies.{cell_at, items_at};
ghost use Rattle.wire_views.specs.Seeing.{Sees, Skips};

/// The length that stands before NULL, -1.
const NULL_LENGTH: u32 = u32::MAX;

/// What no length reaches, as it isn't negative.
const LENGTH_END: u32 = 2_147_483_648;

/// The number of two bytes at the front.
pub fn u16_at(bytes: &[u8]) -> Result<(u16, &[u8]), usize>
    ensures { Sees (λ x. (x.0, x.1.now)) result (be_number_at w16 bytes.now) }
{
    if bytes.len() < 2 {
        return Err(bytes.len());
    }
    let (front, rest) = bytes.split_at(2);
    Ok((u16::from_be_bytes([front[0], front[1]]), rest))
}

/// The number of four bytes at the front.
pub fn u32_at(bytes: &[u8]) -> Result<(u32, &[u8]), usize>
    ensures { Sees (λ x. (x.0, x.1.now)) result (be_number_at w32 bytes.now) }
{
    if bytes.len() < 4 {
        return Err(bytes.len());
    }
    let (front, rest) = bytes.split_at(4);
    Ok((
        u32::from_be_bytes([front[0], front[1], front[2], front[3]]),
        rest,
    ))
}

/// The cell at the front, `None` for NULL, and what follows it.
#[tactic(auto, unfolding(pg_wire::specs::Bodies::cell_at))]
pub fn cell_at(bytes: &[u8]) -> Result<(Option<&[u8]>, &[u8]), usize>
    ensures { Sees (λ x. (option_map (λ c. c.now) x.0, x.1.now)) result (cell_at bytes.now) }
{
    let (size, rest) = u32_at(bytes)?;
    if size == NULL_LENGTH {
        return Ok((None, rest));
    }
    if size >= LENGTH_END {
        return Err(bytes.len());
    }
    if rest.len() < size as usize {
        return Err(rest.len());
    }
    let (cell, rest) = rest.split_at(size as usize);
    Ok((Some(cell), rest))
}

/// What follows so many cells.
pub fn cells_past(count: u16, bytes: &[u8]) -> Result<&[u8], usize>
    ensures { Skips (λ x. x.now) result (items_at cell_at count bytes.now) }
{
    let mut rest = bytes;
    'cells: for _ in 0..count {
        match cell_at(rest) {
            Ok((_, after)) => rest = after,
            Err(left) => return Err(left),
        }
    }
    Ok(rest)
}
