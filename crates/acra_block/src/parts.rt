ghost use Rattle.std.specs.Prelude.{◌≡◌, option_map};
ghost use Rattle.acra_block.specs.declared.kind.CellKind.TheVariants as kinds;
ghost use Rattle.acra_block.specs.Cells.{shown_parts, masked_parts, cell_parts, named_key, clear_part};

use crate::container::read_container;
use crate::kind::CellKind;

/// The first byte of a searchable cell, which begins its index.
const SEARCHABLE: u8 = 1;

/// The first byte of a masked cell.
const MASKED: u8 = 2;

/// How many bytes a blind index has.
const INDEX_LEN: usize = 33;

/// How many bytes a masked cell has before its plain part.
const MASKED_HEAD: usize = 6;

/// The parts of a cell.
#[derive(Clone, Copy)]
pub struct Parts<'a> {
    /// Whether the plain part is the left end of the value.
    pub left: bool,
    /// The plain part, empty where the kind has none.
    pub plain: &'a [u8],
    /// What stands in the container's place.
    pub sealed: &'a [u8],
}

/// Where the plain part of a masked cell stands.
#[derive(Clone, Copy, Debug, PartialEq, Eq)]
pub struct PlainPart {
    /// Whether it is the left end of the value, and not the right one.
    pub left: bool,
    /// The place of its first byte in the cell.
    pub start: usize,
    /// The place behind its last byte.
    pub end: usize,
}

/// The parts of a masked cell of either side.
fn masked_parts(bytes: &[u8]) -> Option<Parts<'_>>
    ensures { option_map shown_parts result ≡ masked_parts bytes.now }
{
    if bytes.len() < MASKED_HEAD || bytes[0] != MASKED || bytes[1] > 1 {
        return None;
    }
    let size = u32::from_le_bytes([bytes[2], bytes[3], bytes[4], bytes[5]]) as usize;
    let (_, rest) = bytes.split_at(MASKED_HEAD);
    if rest.len() < size {
        return None;
    }
    let (plain, sealed) = rest.split_at(size);
    Some(Parts {
        left: bytes[1] == 0,
        plain,
        sealed,
    })
}

/// The parts of a searchable cell.
fn searchable_parts(bytes: &[u8]) -> Option<Parts<'_>>
    ensures { option_map shown_parts result ≡ cell_parts kinds.Searchable bytes.now }
{
    if bytes.len() < INDEX_LEN || bytes[0] != SEARCHABLE {
        return None;
    }
    let (_, sealed) = bytes.split_at(INDEX_LEN);
    Some(Parts {
        left: true,
        plain: &[],
        sealed,
    })
}

/// The parts of a cell of a kind. What stands in the container's place isn't judged.
pub fn parts_of(kind: CellKind, bytes: &[u8]) -> Option<Parts<'_>>
    ensures { option_map shown_parts result ≡ cell_parts kind bytes.now }
{
    match kind {
        CellKind::Sealed => Some(Parts {
            left: true,
            plain: &[],
            sealed: bytes,
        }),
        CellKind::Searchable => searchable_parts(bytes),
        CellKind::Masked { left, .. } => match masked_parts(bytes) {
            Some(parts) if parts.left == left => Some(parts),
            _ => None,
        },
    }
}

/// The id of the key that sealed a cell, `None` exactly where the bytes are no cell of the kind. It
/// takes no memory.
pub fn key_id(kind: CellKind, bytes: &[u8]) -> Option<u64>
    ensures { result ≡ named_key kind bytes.now }
{
    match parts_of(kind, bytes) {
        None => None,
        Some(parts) => match read_container(parts.sealed) {
            None => None,
            Some(container) => Some(container.id),
        },
    }
}

/// Where the plain part of a masked cell stands, `None` exactly where the bytes are no masked cell of
/// either side. It takes no memory.
pub fn plain_part(bytes: &[u8]) -> Option<PlainPart>
    ensures { result ≡ clear_part bytes.now }
{
    match masked_parts(bytes) {
        None => None,
        Some(parts) => match read_container(parts.sealed) {
            None => None,
            Some(_) => Some(PlainPart {
                left: parts.left,
                start: MASKED_HEAD,
                end: MASKED_HEAD + parts.plain.len(),
            }),
        },
    }
}
