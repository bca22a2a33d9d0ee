ghost use Rattle.std.specs.Prelude.{◌≡◌, OnErr, IfOk};
ghost use Rattle.acra_block.specs.Cells.{opened_cell, Answers};

use crate::container::{open_container, read_container};
use crate::keys::KeyView;
use crate::kind::CellKind;
use crate::parts::parts_of;
use crate::place::{CellPlace, extra_of};
use acra_base::NoMemory;
use acra_crypto::Aead;
use std::alloc::Global;

/// What a cell opens to, in the order in which the causes are looked for.
#[derive(Clone, Copy, Debug, PartialEq, Eq)]
pub enum Opened {
    /// The bytes are no cell of the kind, or the named key doesn't unseal both parts of the container as
    /// one of its version in this place.
    Broken,
    /// The cell's key, by its id, is newer than the view.
    UnknownKey(u64),
    /// The view has no key of the cell's id: it is another client's, or it was retired.
    Foreign,
    /// The value was appended.
    Plain,
}

/// Opens a cell of this place with the keys of a client, and appends its value where the answer is `Plain`. Else, and
/// without memory, `out` stays.
pub fn open_cell<A: Aead>(
    alloc: Global,
    aead: &A,
    kind: CellKind,
    place: &CellPlace,
    keys: &KeyView,
    bytes: &[u8],
    out: &mut Vec<u8>,
) -> Result<Opened, NoMemory>
    ensures ok { IfOk result (λ answer. Answers (opened_cell (A.opened aead.now) kind place.now keys.now bytes.now) answer out.old.items out.new.items) }
    ensures err { OnErr result (out.new.items ≡ out.old.items) }
{
    let Some(parts) = parts_of(kind, bytes) else {
        return Ok(Opened::Broken);
    };
    let Some(container) = read_container(parts.sealed) else {
        return Ok(Opened::Broken);
    };
    if container.id >= keys.next_id {
        return Ok(Opened::UnknownKey(container.id));
    }
    let Some(key) = keys.find(container.id) else {
        return Ok(Opened::Foreign);
    };
    let extra = extra_of(alloc, container.version, place, keys.who.text())?;
    let Some(rest) = open_container(alloc, aead, &extra, key, parts.sealed)? else {
        return Ok(Opened::Broken);
    };
    let mut value = Vec::with_capacity(alloc, parts.plain.len() + rest.len())?;
    if parts.left {
        value.extend_from_slice(parts.plain)?;
        value.extend_from_slice(rest.as_slice())?;
    } else {
        value.extend_from_slice(rest.as_slice())?;
        value.extend_from_slice(parts.plain)?;
    }
    out.extend_from_slice(&value)?;
    Ok(Opened::Plain)
}
