ghost use Rattle.std.specs.Prelude.{◌≡◌, ◌≤◌, ◌<◌, ◌^◌, ◌++◌, ◌∷◌, [], true, length, OnOk, OnErr, IfOk};
ghost use Rattle.std.specs.Str.{IsUtf8};
ghost use Rattle.acra_block.specs.Cells.{cell, masked_head, IsCuttable};

use crate::container::push_container;
use crate::cut::cut;
use crate::index::blind_index;
use crate::keys::OwnerKey;
use crate::kind::CellKind;
use crate::place::{CellPlace, extra_of};
use acra_base::NoMemory;
use acra_crypto::Aead;
use std::alloc::Global;

/// Appends what stands before the container of a masked cell.
fn push_masked_head(left: bool, plain: &[u8], out: &mut Vec<u8>) -> Result<(), NoMemory>
    requires { length plain.now < 2 ^ 32 }
    ensures { OnOk result (out.new.items ≡ out.old.items ++ masked_head left plain.now) }
{
    out.push(2)?;
    out.push(if left { 0 } else { 1 })?;
    out.extend_from_slice(&(plain.len() as u32).to_le_bytes())?;
    out.extend_from_slice(plain)?;
    Ok(())
}

/// The cell of a value.
fn cell_of<A: Aead>(
    alloc: Global,
    aead: &A,
    kind: CellKind,
    place: &CellPlace,
    version: u8,
    key: &OwnerKey,
    plain: &[u8],
    draws: &[u8; 56],
) -> Result<Vec<u8>, NoMemory>
    requires first { 1 ≤ version }
    requires short { length plain.now ≤ 2 ^ 18 }
    requires text { IsCuttable kind plain.now }
    ensures { IfOk result (λ made. made.items ≡ cell (A.sealed aead.now) kind place.now version key.now draws.now plain.now) }
{
    let extra = extra_of(alloc, version, place, key.owner().text())?;
    let mut made = Vec::new(alloc);
    match kind {
        CellKind::Sealed => {
            push_container(alloc, aead, &extra, version, key, draws, plain, &mut made)?;
            Ok(made)
        }
        CellKind::Searchable => {
            made.extend_from_slice(&blind_index(key.search(), plain))?;
            push_container(alloc, aead, &extra, version, key, draws, plain, &mut made)?;
            Ok(made)
        }
        CellKind::Masked {
            left,
            length,
            chars,
        } => {
            let (shown, rest) = cut(left, length as usize, chars, plain);
            push_masked_head(left, shown, &mut made)?;
            push_container(alloc, aead, &extra, version, key, draws, rest, &mut made)?;
            Ok(made)
        }
    }
}

/// Appends the cell of a value, at most 2^18 bytes long, under its owner's key. In version 2 it is bound to
/// its place, in version 1 to its owner alone. The 56 drawn bytes are the data key of its container and the
/// nonces of its two seals, and serve one cell. A value that is cut by characters is UTF-8. Without memory
/// `out` stays.
pub fn seal_cell<A: Aead>(
    alloc: Global,
    aead: &A,
    kind: CellKind,
    place: &CellPlace,
    version: u8,
    key: &OwnerKey,
    plain: &[u8],
    draws: &[u8; 56],
    out: &mut Vec<u8>,
) -> Result<(), NoMemory>
    requires first { 1 ≤ version }
    requires last { version ≤ 2 }
    requires short { length plain.now ≤ 2 ^ 18 }
    requires text { IsCuttable kind plain.now }
    ensures ok { OnOk result (out.new.items ≡ out.old.items ++ cell (A.sealed aead.now) kind place.now version key.now draws.now plain.now) }
    ensures err { OnErr result (out.new.items ≡ out.old.items) }
{
    let made = cell_of(alloc, aead, kind, place, version, key, plain, draws)?;
    out.extend_from_slice(&made)?;
    Ok(())
}
