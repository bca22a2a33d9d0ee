use crate::condition::{Cond, Operand};
use acra_base::{Name, Sequence};

/// A column that is selected, and the name under which it is given.
#[derive(Debug, Drop)]
pub struct Item {
    /// The column.
    pub column: Name,
    /// Its name in the result, where it is another one.
    pub label: Option<Name>,
}

/// What a SELECT gives.
#[derive(Debug, Drop)]
pub enum Items {
    /// `*`
    All,
    /// `COUNT(*)`, and the name under which it is given.
    Count { label: Option<Name> },
    /// These columns, in order.
    Columns(Sequence<Item>),
}

/// A column by which rows are ordered.
#[derive(Debug, Drop)]
pub struct OrderKey {
    /// The column.
    pub column: Name,
    /// Whether the greatest value comes first.
    pub descending: bool,
}

/// A column that is set, and its value.
#[derive(Debug, Drop)]
pub struct SetPair {
    /// The column.
    pub column: Name,
    /// Its value.
    pub value: Operand,
}

/// A statement as a tree.
#[derive(Debug, Drop)]
pub enum Statement {
    /// No statement.
    Empty,
    /// `SET name = value`
    Set {
        name: Name,
        value: Operand,
    },
    /// `SELECT items FROM table WHERE cond ORDER BY order LIMIT limit OFFSET offset`, the later parts being optional.
    Select {
        table: Name,
        items: Items,
        cond: Option<Cond>,
        order: Sequence<OrderKey>,
        limit: Option<u64>,
        offset: Option<u64>,
    },
    /// `INSERT INTO table (columns) VALUES rows`, the columns being optional.
    Insert {
        table: Name,
        columns: Option<Sequence<Name>>,
        rows: Sequence<Sequence<Operand>>,
    },
    /// `UPDATE table SET sets WHERE cond`, the condition being optional.
    Update {
        table: Name,
        sets: Sequence<SetPair>,
        cond: Option<Cond>,
    },
    /// `DELETE FROM table WHERE cond`, the condition being optional.
    Delete {
        table: Name,
        cond: Option<Cond>,
    },
}
