//! The names of columns in a statement: those that no column has, and those that stand twice.

ghost use Rattle.std.specs.Prelude.{◌≡◌, ◌≤◌, List, ℕ, [], ◌∷◌, map, not, length};
ghost use Rattle.std.specs.List.{list_any, flat_map};
ghost use Rattle.std.specs.Option.{option_copied};
ghost use Rattle.table_machine.specs.Columns as columns_spec;
ghost use Rattle.table_machine.specs.Faults as spec;
ghost use Rattle.table_binder.specs.Naming.{is_unknown};

use acra_base::{Name, ValueKind};
use sql_tree::{Cond, Item, Items, Operand, OrderKey, SetPair, Statement};
use table_machine::ColumnDef;

/// What names a column.
pub(crate) trait Named {
    ghost name: { Self → List ℕ };

    fn name(&self) -> &Name
        ensures { result.now ≡ name self.now };
}

impl Named for Name {
    ghost name = { λ n. n };

    fn name(&self) -> &Name {
        self
    }
}

impl Named for Item {
    ghost name = { λ i. i.column };

    fn name(&self) -> &Name {
        &self.column
    }
}

impl Named for OrderKey {
    ghost name = { λ k. k.column };

    fn name(&self) -> &Name {
        &self.column
    }
}

impl Named for SetPair {
    ghost name = { λ p. p.column };

    fn name(&self) -> &Name {
        &self.column
    }
}

impl Named for ColumnDef {
    ghost name = { λ c. c.name };

    fn name(&self) -> &Name {
        &self.name
    }
}

fn same(a: &Name, b: &Name) -> bool
    ensures { result ≡ columns_spec.same a.now b.now }
{
    a.as_slice() == b.as_slice()
}

/// The place of the column of this name, and the number of columns where there is none.
pub(crate) fn place_of(columns: &[ColumnDef], name: &Name) -> usize
    ensures place { result ≡ columns_spec.column_place columns.now name.now }
    ensures within { result ≤ length columns.now }
{
    'columns: for (index, column) in columns.iter().enumerate() {
        if same(&column.name, name) {
            return index;
        }
    }
    columns.len()
}

/// The same as it is kept in a bound part.
pub(crate) fn place(columns: &[ColumnDef], name: &Name) -> u16
    requires { length columns.now ≤ 256 }
    ensures place { result ≡ columns_spec.column_place columns.now name.now }
    ensures within { result ≤ 256 }
{
    place_of(columns, name) as u16
}

/// What the values of a column are; bytes where there is no such column.
pub(crate) fn kind_of(columns: &[ColumnDef], name: &Name) -> ValueKind
    ensures { result ≡ columns_spec.kind_of columns.now name.now }
{
    match columns.get(place_of(columns, name)) {
        Some(column) => column.kind,
        None => ValueKind::Bytes,
    }
}

fn has_column(columns: &[ColumnDef], name: &Name) -> bool
    ensures { result ≡ columns_spec.has_column columns.now name.now }
{
    'columns: for column in columns {
        if same(&column.name, name) {
            return true;
        }
    }
    false
}

fn unknown<'a>(columns: &[ColumnDef], name: &'a Name) -> Option<&'a Name>
    ensures { option_copied result ≡ spec.first (is_unknown columns.now) (name.now ∷ []) }
{
    if has_column(columns, name) {
        return None;
    }
    Some(name)
}

fn unknown_in<'a, T: Named>(columns: &[ColumnDef], items: &'a [T]) -> Option<&'a Name>
    ensures { option_copied result ≡ spec.first (is_unknown columns.now) (map T.name items.now) }
{
    'items: for item in items {
        let name = item.name();
        if !has_column(columns, name) {
            return Some(name);
        }
    }
    None
}

fn unknown_in_operand<'a>(columns: &[ColumnDef], operand: &'a Operand) -> Option<&'a Name>
    ensures { option_copied result ≡ spec.first (is_unknown columns.now) (spec.operand_names operand.now) }
{
    match operand {
        Operand::Column(name) => unknown(columns, name),
        Operand::Prefix33(name) => unknown(columns, name),
        _ => None,
    }
}

fn unknown_in_operands<'a>(columns: &[ColumnDef], list: &'a [Operand]) -> Option<&'a Name>
    ensures { option_copied result ≡ spec.first (is_unknown columns.now) (flat_map spec.operand_names list.now) }
{
    'operands: for operand in list {
        let found = unknown_in_operand(columns, operand);
        if found.is_some() {
            return found;
        }
    }
    None
}

/// The first that is there.
fn or_else<'a>(first: Option<&'a Name>, other: Option<&'a Name>) -> Option<&'a Name>
    ensures { option_copied result ≡ spec.or_else (option_copied first.entry) (option_copied other.entry) }
{
    match first {
        Some(name) => Some(name),
        None => other,
    }
}

fn unknown_in_cond<'a>(columns: &[ColumnDef], cond: &'a Cond) -> Option<&'a Name>
    ensures { option_copied result ≡ spec.first (is_unknown columns.now) (spec.cond_names cond.now) }
{
    match cond {
        Cond::And(parts) => {
            'ands: for part in parts.as_slice() {
                let found = unknown_in_cond(columns, part);
                if found.is_some() {
                    return found;
                }
            }
            None
        }
        Cond::Or(parts) => {
            'ors: for part in parts.as_slice() {
                let found = unknown_in_cond(columns, part);
                if found.is_some() {
                    return found;
                }
            }
            None
        }
        Cond::Not(part) => unknown_in_cond(columns, part.get()),
        Cond::Compare { left, op: _, right } => or_else(
            unknown_in_operand(columns, left),
            unknown_in_operand(columns, right),
        ),
        Cond::Within { left, list } => or_else(
            unknown_in_operand(columns, left),
            unknown_in_operands(columns, list.as_slice()),
        ),
        Cond::Null { column } => unknown(columns, column),
    }
}

fn unknown_in_where<'a>(columns: &[ColumnDef], cond: &'a Option<Cond>) -> Option<&'a Name>
    ensures { option_copied result ≡ spec.first (is_unknown columns.now) (spec.where_names cond.now) }
{
    match cond {
        None => None,
        Some(cond) => unknown_in_cond(columns, cond),
    }
}

fn unknown_in_items<'a>(columns: &[ColumnDef], items: &'a Items) -> Option<&'a Name>
    ensures { option_copied result ≡ spec.first (is_unknown columns.now) (spec.item_names items.now) }
{
    match items {
        Items::All | Items::Count { .. } => None,
        Items::Columns(all) => unknown_in(columns, all.as_slice()),
    }
}

/// The first name of a statement that no column has.
pub(crate) fn unknown_name<'a>(columns: &[ColumnDef], tree: &'a Statement) -> Option<&'a Name>
    ensures { option_copied result ≡ spec.first (is_unknown columns.now) (spec.names_in tree.now) }
{
    match tree {
        Statement::Select {
            items,
            cond,
            order,
            ..
        } => or_else(
            unknown_in_items(columns, items),
            or_else(
                unknown_in_where(columns, cond),
                unknown_in(columns, order.as_slice()),
            ),
        ),
        Statement::Insert {
            columns: Some(names),
            ..
        } => unknown_in(columns, names.as_slice()),
        Statement::Update { sets, cond, .. } => or_else(
            unknown_in(columns, sets.as_slice()),
            unknown_in_where(columns, cond),
        ),
        Statement::Delete { cond, .. } => unknown_in_where(columns, cond),
        _ => None,
    }
}

fn is_among<T: Named>(name: &Name, items: &[T]) -> bool
    ensures { result ≡ list_any (columns_spec.same name.now) (map T.name items.now) }
{
    'items: for item in items {
        if same(name, item.name()) {
            return true;
        }
    }
    false
}

fn twice_in<'a, T: Named>(items: &'a [T]) -> Option<&'a Name>
    ensures { option_copied result ≡ spec.first_again [] (map T.name items.now) }
{
    'items: for (index, item) in items.iter().enumerate() {
        let name = item.name();
        if is_among(name, &items[..index]) {
            return Some(name);
        }
    }
    None
}

/// The first name that is written and was before.
pub(crate) fn name_twice(tree: &Statement) -> Option<&Name>
    ensures { option_copied result ≡ spec.first_again [] (spec.names_written tree.now) }
{
    match tree {
        Statement::Insert {
            columns: Some(names),
            ..
        } => twice_in(names.as_slice()),
        Statement::Update { sets, .. } => twice_in(sets.as_slice()),
        _ => None,
    }
}
