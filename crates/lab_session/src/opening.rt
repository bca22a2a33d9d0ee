ghost use Rattle.std.specs.Prelude.{◌≡◌, IfOk};
ghost use Rattle.lab_session.specs.Cells.{text_bytes, value_in, opened_by};

use crate::notes::notes_body;
use acra_base::{Bytes, NoMemory};
use acra_block::{CellKind, KeyView, Opened, open_cell};
use acra_crypto::Aes256Gcm;
use hex::FromHexError;
use std::alloc::Global;

// The bytes of a cell in text form: `\x` and hexadecimal digits.
fn text_bytes(alloc: Global, text: &[u8]) -> Result<Option<Bytes>, NoMemory>
    ensures { IfOk result (λ found. found ≡ text_bytes text.now) }
{
    if text.len() < 2 {
        return Ok(None);
    }
    let (mark, digits) = text.split_at(2);
    if mark != b"\\x".as_slice() {
        return Ok(None);
    }
    match hex::decode(alloc, digits) {
        Ok(bytes) => Ok(Some(Bytes::from_vec(bytes))),
        Err(FromHexError::OutOfMemory) => Err(NoMemory),
        Err(_) => Ok(None),
    }
}

// The value of a sealed cell.
fn cell_value(alloc: Global, view: &KeyView, cell: &[u8]) -> Result<Option<Bytes>, NoMemory>
    ensures { IfOk result (λ found. found ≡ value_in view.now cell.now) }
{
    let place = notes_body(alloc)?;
    let mut plain = Vec::new(alloc);
    match open_cell(
        alloc,
        &Aes256Gcm,
        CellKind::Sealed,
        &place,
        view,
        cell,
        &mut plain,
    )? {
        Opened::Plain => Ok(Some(Bytes::from_vec(plain))),
        Opened::Broken | Opened::UnknownKey(_) | Opened::Foreign => Ok(None),
    }
}

/// What a cell in text form opens to by the client's keys, or nothing.
pub fn open_text(alloc: Global, view: &KeyView, text: &[u8]) -> Result<Option<Bytes>, NoMemory>
    ensures { IfOk result (λ found. found ≡ opened_by view.now text.now) }
{
    match text_bytes(alloc, text)? {
        Some(cell) => cell_value(alloc, view, cell.as_slice()),
        None => Ok(None),
    }
}
