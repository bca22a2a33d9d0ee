//! The key of a table.

ghost use Rattle.std.specs.Prelude.{◌≡◌, [], IfOk, List, map};
ghost use Rattle.std.specs.List.{list_any};
ghost use Rattle.table_machine.specs.declared.cell.Cell as stored_cell;
ghost use Rattle.table_rows.specs.Filters as spec;
ghost use Rattle.table_rows.specs.Looking.{seen};
ghost use Rattle.table_store.specs.Keys.{Holds, broken_stored, is_among, key_in, standing};

use acra_base::{NoMemory, Sequence};
use std::alloc::Global;
use std::collections::BTreeSet;
use table_machine::{BrokenKey, Cell};
use table_rows::{Seen, cell_at};

/// A key that isn't NULL, in the order of its kind.
#[derive(Clone, Copy, PartialEq, Eq, PartialOrd, Ord, Drop)]
pub enum Key<'a> {
    /// An integer.
    Int(i64),
    /// Text or bytes.
    Bytes(&'a [u8]),
}

/// The key in a cell; none where it is NULL.
fn key_in(cell: Seen<'_>) -> Option<Key<'_>>
    ensures { result ≡ key_in cell.entry }
{
    match cell {
        Seen::Null => None,
        Seen::Int(number) => Some(Key::Int(number)),
        Seen::Bytes(bytes) => Some(Key::Bytes(bytes)),
    }
}

/// The keys of cells up to the first that can't stand behind those before it, and why it can't.
fn standing<'a>(
    alloc: Global,
    cells: &[Seen<'a>],
) -> Result<(BTreeSet<Key<'a>>, Option<BrokenKey>), NoMemory>
    ensures { IfOk result (λ found. Holds found.0 (standing [] (map seen cells.now)) × (found.1 ≡ broken_stored [] (map seen cells.now))) }
{
    let mut keys = BTreeSet::new(alloc);
    'cells: for cell in cells {
        let Some(key) = key_in(*cell) else {
            return Ok((keys, Some(BrokenKey::Null)));
        };
        if !keys.insert(key)? {
            return Ok((keys, Some(BrokenKey::Twice)));
        }
    }
    Ok((keys, None))
}

/// Whether a cell has one of these keys.
fn has_key<'a>(keys: &BTreeSet<Key<'a>>, cell: Seen<'a>) -> bool
    ensures { (all : List stored_cell.Cell) → Holds keys.now all → result ≡ is_among all (seen cell.entry) }
{
    match key_in(cell) {
        Some(key) => keys.contains(&key),
        None => false,
    }
}

/// Whether a row has one of these keys.
fn any_has_key<'a>(keys: &BTreeSet<Key<'a>>, place: u16, rows: &'a [Sequence<Cell>]) -> bool
    ensures { (all : List stored_cell.Cell) → Holds keys.now all → result ≡ list_any (is_among all) (map (λ row. spec.cell_at row place) rows.now) }
{
    'rows: for row in rows {
        if has_key(keys, cell_at(row.as_slice(), place)) {
            return true;
        }
    }
    false
}

/// Why the first of some keys that can't stand behind these rows and the keys before it can't.
pub fn first_broken<'a>(
    alloc: Global,
    place: u16,
    rows: &'a [Sequence<Cell>],
    cells: &[Seen<'a>],
) -> Result<Option<BrokenKey>, NoMemory>
    ensures { IfOk result (λ broken. broken ≡ broken_stored (map (λ row. spec.cell_at row place) rows.now) (map seen cells.now)) }
{
    let (keys, broken) = standing(alloc, cells)?;
    if any_has_key(&keys, place, rows) {
        return Ok(Some(BrokenKey::Twice));
    }
    Ok(broken)
}
