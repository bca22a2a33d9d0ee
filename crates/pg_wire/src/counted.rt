ghost use Rattle.std.specs.Prelude.{◌≡◌, ℕ, List, Option};
ghost use Rattle.std.specs.Int.{w32};
ghost use Rattle.byte_reader.specs.Fields.{be_number_at};
ghost use Rattle.pg_wire.specs.Bodies.{format_at, cell_at, items_at, counted_at};
ghost use Rattle.byte_reader.specs.Readers.{Gives};

use crate::back::NULL_LENGTH;
use acra_base::{Bytes, Sequence};
use byte_reader::{Unread, be_u16_of, be_u32_of, bytes_of};
use std::alloc::Global;

/// What no length reaches, as it isn't negative.
const LENGTH_END: u32 = 2_147_483_648;

/// Reads a format, 0 for text and 1 for binary.
#[tactic(auto, unfolding(crate::specs::Bodies::format_at))]
pub fn format_of(bytes: &[u8]) -> Result<(u16, &[u8]), Unread>
    ensures { Gives (λ x. (x.0, x.1.now)) result (format_at bytes.now) }
{
    let (format, rest) = be_u16_of(bytes)?;
    if format >= 2 {
        return Err(Unread::At { left: bytes.len() });
    }
    Ok((format, rest))
}

/// Reads this many formats.
fn formats_of(alloc: Global, count: u16, bytes: &[u8]) -> Result<(Sequence<u16>, &[u8]), Unread>
    ensures { Gives (λ x. (x.0, x.1.now)) result (items_at format_at count bytes.now) }
{
    let mut formats = Sequence::new(alloc);
    let mut rest = bytes;
    'formats: for _ in 0..count {
        let (format, after) = format_of(rest)?;
        formats.push(format)?;
        rest = after;
    }
    Ok((formats, rest))
}

/// Reads formats with their count before them.
#[tactic(auto, unfolding(crate::specs::Bodies::counted_at))]
pub fn counted_formats_of(alloc: Global, bytes: &[u8]) -> Result<(Sequence<u16>, &[u8]), Unread>
    ensures { Gives (λ x. (x.0, x.1.now)) result (counted_at format_at bytes.now) }
{
    let (count, rest) = be_u16_of(bytes)?;
    formats_of(alloc, count, rest)
}

/// Reads this many OIDs of types.
fn oids_of(alloc: Global, count: u16, bytes: &[u8]) -> Result<(Sequence<u32>, &[u8]), Unread>
    ensures { Gives (λ x. (x.0, x.1.now)) result (items_at (be_number_at w32) count bytes.now) }
{
    let mut oids = Sequence::new(alloc);
    let mut rest = bytes;
    'oids: for _ in 0..count {
        let (oid, after) = be_u32_of(rest)?;
        oids.push(oid)?;
        rest = after;
    }
    Ok((oids, rest))
}

/// Reads OIDs of types with their count before them.
#[tactic(auto, unfolding(crate::specs::Bodies::counted_at))]
pub fn counted_oids_of(alloc: Global, bytes: &[u8]) -> Result<(Sequence<u32>, &[u8]), Unread>
    ensures { Gives (λ x. (x.0, x.1.now)) result (counted_at (be_number_at w32) bytes.now) }
{
    let (count, rest) = be_u16_of(bytes)?;
    oids_of(alloc, count, rest)
}

/// Reads a cell, `None` for NULL.
#[tactic(auto, unfolding(crate::specs::Bodies::cell_at))]
fn cell_of(alloc: Global, bytes: &[u8]) -> Result<(Option<Bytes>, &[u8]), Unread>
    ensures { Gives (λ x. (x.0, x.1.now)) result (cell_at bytes.now) }
{
    let (size, rest) = be_u32_of(bytes)?;
    if size == NULL_LENGTH {
        return Ok((None, rest));
    }
    if size >= LENGTH_END {
        return Err(Unread::At { left: bytes.len() });
    }
    let (cell, rest) = bytes_of(alloc, size as usize, rest)?;
    Ok((Some(cell), rest))
}

/// Reads this many cells.
fn cells_of(
    alloc: Global,
    count: u16,
    bytes: &[u8],
) -> Result<(Sequence<Option<Bytes>>, &[u8]), Unread>
    ensures { Gives (λ x. (x.0, x.1.now)) result (items_at cell_at count bytes.now) }
{
    let mut cells = Sequence::new(alloc);
    let mut rest = bytes;
    'cells: for _ in 0..count {
        let (cell, after) = cell_of(alloc, rest)?;
        cells.push(cell)?;
        rest = after;
    }
    Ok((cells, rest))
}

/// Reads cells with their count before them.
#[tactic(auto, unfolding(crate::specs::Bodies::counted_at))]
pub fn counted_cells_of(
    alloc: Global,
    bytes: &[u8],
) -> Result<(Sequence<Option<Bytes>>, &[u8]), Unread>
    ensures { Gives (λ x. (x.0, x.1.now)) result (counted_at cell_at bytes.now) }
{
    let (count, rest) = be_u16_of(bytes)?;
    cells_of(alloc, count, rest)
}
