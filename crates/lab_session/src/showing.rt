ghost use Rattle.std.specs.Prelude.{◌≡◌, IfOk, false, slice_index_or, Some, if◌then◌else◌};
ghost use Rattle.session_model.specs.Shown.{as_text, described, shown_cell, shown_cells, shown_message};
ghost use Rattle.lab_session.specs.Cells.{opened_by};

use crate::opening::open_text;
use acra_base::{Bytes, NoMemory, Sequence};
use acra_block::KeyView;
use pg_wire::{Back, Field};
use std::alloc::Global;

/// The OID of text, whose size varies.
const TEXT: u32 = 25;

fn is_protected(protected: &[bool], place: usize) -> bool
    ensures { result ≡ slice_index_or protected.now place false }
{
    place < protected.len() && protected[place]
}

// A field as it is described to the client: a protected column as text.
fn described_field(alloc: Global, field: &Field, protected: bool) -> Result<Field, NoMemory>
    ensures { IfOk result (λ shown. shown ≡ (if protected then as_text field.now else field.now)) }
{
    let name = Bytes::copied(alloc, field.name.as_slice())?;
    let (kind, size) = if protected {
        (TEXT, -1)
    } else {
        (field.kind, field.size)
    };
    Ok(Field {
        name,
        table: field.table,
        attribute: field.attribute,
        kind,
        size,
        modifier: field.modifier,
        format: field.format,
    })
}

fn described_fields(
    alloc: Global,
    protected: &[bool],
    fields: &[Field],
) -> Result<Sequence<Field>, NoMemory>
    ensures { IfOk result (λ shown. shown ≡ described protected.now fields.now) }
{
    let mut shown = Sequence::new(alloc);
    'fields: for place in 0..fields.len() {
        let field = described_field(alloc, &fields[place], is_protected(protected, place))?;
        shown.push(field)?;
    }
    Ok(shown)
}

fn copied(cell: &Option<Bytes>) -> Result<Option<Bytes>, NoMemory>
    ensures { IfOk result (λ copy. copy ≡ cell.now) }
{
    match cell {
        Some(text) => Ok(Some(text.clone()?)),
        None => Ok(None),
    }
}

// A protected cell as it is shown: opened, or as it is where it doesn't open.
fn opened_cell(
    alloc: Global,
    view: &KeyView,
    cell: &Option<Bytes>,
) -> Result<Option<Bytes>, NoMemory>
    ensures { IfOk result (λ shown. shown ≡ shown_cell (opened_by view.now) cell.now) }
{
    match cell {
        None => Ok(None),
        Some(text) => match open_text(alloc, view, text.as_slice())? {
            Some(plain) => Ok(Some(plain)),
            None => Ok(Some(Bytes::copied(alloc, text.as_slice())?)),
        },
    }
}

fn opened_cells(
    alloc: Global,
    view: &KeyView,
    protected: &[bool],
    cells: &[Option<Bytes>],
) -> Result<Sequence<Option<Bytes>>, NoMemory>
    ensures { IfOk result (λ shown. shown ≡ shown_cells (opened_by view.now) protected.now cells.now) }
{
    let mut shown = Sequence::new(alloc);
    'cells: for place in 0..cells.len() {
        let cell = if is_protected(protected, place) {
            opened_cell(alloc, view, &cells[place])?
        } else {
            copied(&cells[place])?
        };
        shown.push(cell)?;
    }
    Ok(shown)
}

/// A message of the backend as the owner of all cells is shown it: protected columns are described as
/// text, and their cells are opened.
pub fn show(
    alloc: Global,
    view: &KeyView,
    protected: &[bool],
    message: Back,
) -> Result<Back, NoMemory>
    ensures { IfOk result (λ shown. shown ≡ shown_message (opened_by view.now) protected.now message) }
{
    match message {
        Back::Row(fields) => Ok(Back::Row(described_fields(alloc, protected, fields.as_slice())?)),
        Back::Cells(cells) => Ok(Back::Cells(opened_cells(
            alloc,
            view,
            protected,
            cells.as_slice(),
        )?)),
        other => Ok(other),
    }
}
