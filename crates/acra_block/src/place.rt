ghost use Rattle.std.specs.Prelude.{◌≡◌, IfOk};
ghost use Rattle.acra_block.specs.Places.{extra_of};

use acra_base::{Name, NoMemory};
use std::alloc::Global;

/// The column in which a cell stands.
#[derive(Drop)]
pub struct CellPlace {
    /// The table.
    pub table: Name,
    /// The column of it.
    pub column: Name,
}

/// What both seals of a container are bound to: the owner, and from version 2 on the place.
pub fn extra_of(
    alloc: Global,
    version: u8,
    place: &CellPlace,
    owner: &[u8],
) -> Result<Vec<u8>, NoMemory>
    ensures { IfOk result (λ extra. extra.items ≡ extra_of version place.now owner.now) }
{
    let mut extra = Vec::from_slice(alloc, owner)?;
    if version == 2 {
        extra.push(0)?;
        extra.extend_from_slice(place.table.as_slice())?;
        extra.push(0)?;
        extra.extend_from_slice(place.column.as_slice())?;
    }
    Ok(extra)
}
