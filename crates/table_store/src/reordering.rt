//! Rows in another order.

ghost use Rattle.std.specs.Prelude.{◌≡◌, ◌↔◌, IfOk, OnErr, OnOk, if◌then◌else◌, length, true};
ghost use Rattle.table_machine.specs.Reordered.{IsPermutationOf, rows_at};

use acra_base::{NoMemory, Sequence};
use std::alloc::Global;
use std::mem;
use table_machine::Cell;

/// Whether these are all places of so many rows, each once.
fn is_permutation(alloc: Global, places: &[u32], count: usize) -> Result<bool, NoMemory>
    ensures { IfOk result (λ is. (is ≡ true) ↔ IsPermutationOf places.now count) }
{
    if places.len() != count {
        return Ok(false);
    }
    let mut taken = vec![in alloc; false; count]?;
    'places: for place in places {
        let index = *place as usize;
        if index >= count || taken[index] {
            return Ok(false);
        }
        taken[index] = true;
    }
    Ok(true)
}

/// Puts the rows at these places in the place of the rows.
fn arrange(alloc: Global, rows: &mut Vec<Sequence<Cell>>, places: &[u32]) -> Result<(), NoMemory>
    requires { IsPermutationOf places.now (length rows.old.items) }
    ensures ok { OnOk result (rows.new.items ≡ rows_at places.now rows.old.items) }
    ensures err { OnErr result (rows.new.items ≡ rows.old.items) }
{
    let mut arranged = Vec::with_capacity(alloc, places.len())?;
    'places: for place in places {
        let row = mem::replace(&mut rows[*place as usize], Sequence::new(alloc));
        arranged.push(row)?;
    }
    *rows = arranged;
    Ok(())
}

/// Brings rows into the order of these places; false where they are no permutation of the rows. Without memory
/// the rows stay.
pub fn reorder(
    alloc: Global,
    rows: &mut Vec<Sequence<Cell>>,
    places: &[u32],
) -> Result<bool, NoMemory>
    ensures exact { IfOk result (λ done. (done ≡ true) ↔ IsPermutationOf places.now (length rows.old.items)) }
    ensures rows { IfOk result (λ done. rows.new.items ≡ (if done then rows_at places.now rows.old.items else rows.old.items)) }
    ensures err { OnErr result (rows.new.items ≡ rows.old.items) }
{
    if !is_permutation(alloc, places, rows.len())? {
        return Ok(false);
    }
    arrange(alloc, rows, places)?;
    Ok(true)
}
