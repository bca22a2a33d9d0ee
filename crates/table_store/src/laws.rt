//! What the key of a table is for.

ghost use Rattle.table_store.specs.Differing.{KeyIsExact};

/// Rows have no fault of the key exactly where none of their keys is NULL and no two are equal.
pub fn key_is_exact()
    ensures { KeyIsExact }
{}
