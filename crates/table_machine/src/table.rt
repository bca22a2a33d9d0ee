use acra_base::{Bytes, Name, Sequence, ValueKind};

/// A column of a table.
#[derive(Debug, Drop)]
pub struct ColumnDef {
    /// Its name.
    pub name: Name,
    /// What its values are.
    pub kind: ValueKind,
}

/// A table's columns, and its key where it has one.
#[derive(Debug, Drop)]
pub struct TableDef {
    /// Its name.
    pub name: Name,
    /// Its columns, in order: at most 256, no two of one name.
    pub columns: Sequence<ColumnDef>,
    /// The place of the column, from 0, in which no cell is NULL and no two are equal.
    pub key: Option<u16>,
}

/// A column of a result.
#[derive(Debug, Drop)]
pub struct OutColumn {
    /// Its name in the result.
    pub name: Name,
    /// The table's OID, 0 for a count.
    pub table: u32,
    /// The column's number in its table, from 1, or 0 for a count.
    pub attribute: u16,
    /// What its values are.
    pub kind: ValueKind,
}

/// Why a statement was not executed. It changed nothing.
#[derive(Debug, Drop)]
pub struct LabFault {
    /// The SQLSTATE code (PostgreSQL manual, "PostgreSQL Error Codes").
    pub code: [u8; 5],
    /// The message.
    pub text: Bytes,
}

/// Why a table's rows can't stand with its key.
#[derive(Clone, Copy, Debug, PartialEq, Eq)]
pub enum BrokenKey {
    /// A row's key is NULL.
    Null,
    /// A row's key is equal to an earlier row's.
    Twice,
}

/// What a statement gives.
#[derive(Debug, Drop)]
pub enum Outcome {
    /// A SELECT: its columns, and the rows, each value in text form, `None` for NULL.
    Rows {
        columns: Sequence<OutColumn>,
        rows: Sequence<Sequence<Option<Bytes>>>,
    },
    /// Another statement: how many rows it added, changed or removed.
    Count(u64),
    /// A refused statement.
    Fault(LabFault),
}
