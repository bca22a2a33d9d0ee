ghost use Rattle.std.specs.Prelude.{◌≡◌, ◌+◌, ◌≤◌, ◌==◌, List, ℕ, [], ◌∷◌, length, Option, Some, None, option_map, MatchOption, MatchResult, Ok, Err, IfOk, IfErr};
ghost use Rattle.std.specs.List.{slice_get};
ghost use Rattle.pg_wire.specs.Bodies.{back_read};
ghost use Rattle.wire_views.specs.Rows.{SeesRow};

use crate::cells::{cell_at, cells_past, u16_at};
use std::marker::Model;
use thiserror::Error;

/// A body is no DataRow's.
#[derive(Clone, Copy, Debug, PartialEq, Eq, Error)]
#[error("bad message body at byte {offset}")]
pub struct BadRow {
    /// Where the first field stands that can't be read, or the first byte too many, from the body's first byte.
    pub offset: usize,
}

/// The cells of a DataRow, where they lie in its body.
#[derive(Debug, Drop)]
pub struct RowView<'a> {
    count: u16,
    cells: &'a [u8],
}

impl<'a> Model for RowView<'a> {
    ghost use Rattle.std.specs.Prelude.{List, Option, ℕ};
    ghost use Rattle.wire_views.specs.Rows.{cells_in, AreCells};

    ghost Value = { List (Option (List ℕ)) };

    ghost view = { λ r. cells_in r.count r.cells.now };

    ghost invariant = { λ r. AreCells r.count r.cells.now };
}

impl<'a> RowView<'a> {
    /// The row that a body spells, or where it can't be read.
    pub fn of(body: &'a [u8]) -> Result<RowView<'a>, BadRow>
        ensures row { IfOk result (λ row. SeesRow body.now (Ok row)) }
        ensures bad { IfErr result (λ bad. SeesRow body.now (Err bad.offset)) }
    {
        match whole_row(body) {
            Ok(row) => Ok(row),
            Err(left) => Err(BadRow {
                offset: body.len() - left,
            }),
        }
    }

    /// The same row again.
    pub fn again(&self) -> RowView<'a>
        ensures { result ≡ self.now }
    {
        RowView {
            count: self.count,
            cells: self.cells,
        }
    }

    /// How many cells there are.
    pub fn len(&self) -> usize
        ensures { result ≡ length self.now }
    {
        usize::from(self.count)
    }

    /// Whether there are none.
    pub fn is_empty(&self) -> bool
        ensures { result ≡ (length self.now == 0) }
    {
        self.len() == 0
    }

    /// The first cell, `None` for NULL, and the row of those behind it.
    pub fn split_first(&self) -> Option<(Option<&'a [u8]>, RowView<'a>)>
        ensures { MatchOption result (self.now ≡ []) (λ parts. self.now ≡ option_map (λ c. c.now) parts.0 ∷ parts.1) }
    {
        if self.count == 0 {
            return None;
        }
        match cell_at(self.cells) {
            Ok((cell, cells)) => Some((
                cell,
                RowView {
                    count: self.count - 1,
                    cells,
                },
            )),
            Err(_) => None,
        }
    }

    /// The cell at a place, counted from 0, whose inner `None` is NULL. It looks at the cells before it.
    pub fn cell(&self, place: usize) -> Option<Option<&'a [u8]>>
        ensures { option_map (option_map (λ c. c.now)) result ≡ slice_get self.now place }
    {
        let mut row = self.again();
        'cells: for _ in 0..place {
            match row.split_first() {
                Some((_, behind)) => row = behind,
                None => return None,
            }
        }
        match row.split_first() {
            Some((cell, _)) => Some(cell),
            None => None,
        }
    }
}

/// A row of all of these bytes, or how many are left where they can't be read.
fn whole_row(body: &[u8]) -> Result<RowView<'_>, usize>
    ensures row { IfOk result (λ row. SeesRow body.now (Ok row)) }
    ensures bad { IfErr result (λ left. (left ≤ length body.now) × (back_read 68 body.now ≡ Err left)) }
{
    match u16_at(body) {
        Ok((count, cells)) => match cells_past(count, cells) {
            Ok(rest) => {
                if rest.is_empty() {
                    Ok(RowView { count, cells })
                } else {
                    Err(rest.len())
                }
            }
            Err(left) => Err(left),
        },
        Err(left) => Err(left),
    }
}
