//! Names that are no holes.
ghost use Rattle.std.specs.Prelude.{◌≡◌, true};
ghost use Rattle.std.specs.List.{list_all};
ghost use Rattle.std.specs.Option.{option_map_or};
ghost use Rattle.sql_tree.specs.declared.statement.Item.{Item as AnItem};
ghost use Rattle.sql_tree.specs.declared.statement.SetPair.{SetPair as APair};
ghost use Rattle.sql_patterns.specs.Standing.{is_plain_name, is_plain_value, is_plain_label, are_labels_plain, are_names_plain};

use crate::hole::{is_column_mark, is_where_mark};
use acra_base::Name;
use sql_tree::{Item, Items, Operand, SetPair, Statement};

fn is_plain_name(name: &[u8]) -> bool
    ensures { result ≡ is_plain_name name.now }
{
    !is_column_mark(name) && !is_where_mark(name)
}

fn is_plain_value(value: &Operand) -> bool
    ensures { result ≡ is_plain_value value.now }
{
    match value {
        Operand::Text(text) => is_plain_name(text.as_slice()),
        _ => true,
    }
}

fn is_plain_label(label: &Option<Name>) -> bool
    ensures { result ≡ is_plain_label label.now }
{
    match label {
        Some(name) => is_plain_name(name.as_slice()),
        None => true,
    }
}

fn are_item_labels_plain(columns: &[Item]) -> bool
    ensures { result ≡ list_all (λ (i : AnItem). is_plain_label i.label) columns.now }
{
    'each: for item in columns {
        if !is_plain_label(&item.label) {
            return false;
        }
    }
    true
}

fn are_labels_plain(items: &Items) -> bool
    ensures { result ≡ are_labels_plain items.now }
{
    match items {
        Items::All => true,
        Items::Count { label } => is_plain_label(label),
        Items::Columns(columns) => are_item_labels_plain(columns.as_slice()),
    }
}

fn are_plain_names(names: &[Name]) -> bool
    ensures { result ≡ list_all is_plain_name names.now }
{
    'each: for name in names {
        if !is_plain_name(name.as_slice()) {
            return false;
        }
    }
    true
}

fn are_targets_plain(sets: &[SetPair]) -> bool
    ensures { result ≡ list_all (λ (p : APair). is_plain_name p.column) sets.now }
{
    'each: for pair in sets {
        if !is_plain_name(pair.column.as_slice()) {
            return false;
        }
    }
    true
}

/// Whether names of tables and labels, INSERT's list, UPDATE's targets and what SET sets are no holes.
pub(crate) fn are_names_plain(statement: &Statement) -> bool
    ensures { result ≡ are_names_plain statement.now }
{
    match statement {
        Statement::Empty => true,
        Statement::Set { value, .. } => is_plain_value(value),
        Statement::Select { table, items, .. } => {
            is_plain_name(table.as_slice()) && are_labels_plain(items)
        }
        Statement::Insert { table, columns, .. } => {
            is_plain_name(table.as_slice())
                && match columns {
                    Some(names) => are_plain_names(names.as_slice()),
                    None => true,
                }
        }
        Statement::Update { table, sets, .. } => {
            is_plain_name(table.as_slice()) && are_targets_plain(sets.as_slice())
        }
        Statement::Delete { table, .. } => is_plain_name(table.as_slice()),
    }
}
