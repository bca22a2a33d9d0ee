//! Cells looked at without a copy.

ghost use Rattle.std.specs.Prelude.{◌≡◌, take};
ghost use Rattle.table_rows.specs.Filters as filters;
ghost use Rattle.table_machine.specs.Stored.{compare, is_null, order, prefix};
ghost use Rattle.table_rows.specs.Looking.{seen};
ghost use Rattle.table_machine.specs.Faults.{are_equal};

use std::cmp::Ordering;
use table_machine::Cell;

/// A cell looked at without a copy.
#[derive(Clone, Copy)]
pub enum Seen<'a> {
    /// NULL.
    Null,
    /// An integer.
    Int(i64),
    /// Text or bytes.
    Bytes(&'a [u8]),
}

pub(crate) fn see(cell: &Cell) -> Seen<'_>
    ensures { seen result ≡ cell.now }
{
    match cell {
        Cell::Null => Seen::Null,
        Cell::Int(number) => Seen::Int(*number),
        Cell::Bytes(bytes) => Seen::Bytes(bytes.as_slice()),
    }
}

/// The cell at a place of a row, NULL past the row's end.
pub fn cell_at(row: &[Cell], place: u16) -> Seen<'_>
    ensures { seen result ≡ filters.cell_at row.now place }
{
    match row.get(place as usize) {
        Some(cell) => see(cell),
        None => Seen::Null,
    }
}

fn first_33(bytes: &[u8]) -> &[u8]
    ensures { result.now ≡ take 33 bytes.now }
{
    if bytes.len() <= 33 {
        return bytes;
    }
    &bytes[..33]
}

/// The first 33 bytes.
pub(crate) fn prefix(cell: Seen<'_>) -> Seen<'_>
    ensures { seen result ≡ prefix (seen cell.entry) }
{
    match cell {
        Seen::Bytes(bytes) => Seen::Bytes(first_33(bytes)),
        other => other,
    }
}

/// How two cells compare; `None` where one is NULL.
pub(crate) fn compare(a: Seen<'_>, b: Seen<'_>) -> Option<Ordering>
    ensures { result ≡ compare (seen a.entry) (seen b.entry) }
{
    match (a, b) {
        (Seen::Int(x), Seen::Int(y)) => Some(x.cmp(&y)),
        (Seen::Bytes(x), Seen::Bytes(y)) => Some(x.cmp(y)),
        _ => None,
    }
}

/// How two cells are ordered: integers, then bytes, then NULL.
pub(crate) fn order(a: Seen<'_>, b: Seen<'_>) -> Ordering
    ensures { result ≡ order (seen a.entry) (seen b.entry) }
{
    match (a, b) {
        (Seen::Int(x), Seen::Int(y)) => x.cmp(&y),
        (Seen::Int(_), _) => Ordering::Less,
        (Seen::Bytes(_), Seen::Int(_)) => Ordering::Greater,
        (Seen::Bytes(x), Seen::Bytes(y)) => x.cmp(y),
        (Seen::Bytes(_), Seen::Null) => Ordering::Less,
        (Seen::Null, Seen::Null) => Ordering::Equal,
        (Seen::Null, _) => Ordering::Greater,
    }
}

/// Whether a cell is NULL.
pub fn is_null(cell: Seen<'_>) -> bool
    ensures { result ≡ is_null (seen cell.entry) }
{
    matches!(cell, Seen::Null)
}

/// Whether two cells are equal, and neither is NULL.
pub fn are_equal(a: Seen<'_>, b: Seen<'_>) -> bool
    ensures { result ≡ are_equal (compare (seen a.entry) (seen b.entry)) }
{
    compare(a, b) == Some(Ordering::Equal)
}
