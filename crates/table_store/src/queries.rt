//! SELECT.

ghost use Rattle.std.specs.Prelude.{◌≡◌, ◌≤◌, ◌<◌, ◌^◌, ◌∷◌, [], IfOk, length, map, true, pos};
ghost use Rattle.sql_tree.specs.WellFormed.{all_shaped};
ghost use Rattle.table_binder.specs.Binding.{IsBound};
ghost use Rattle.table_machine.specs.Faults.{first_unread, where_places};
ghost use Rattle.table_machine.specs.Machine as machine;
ghost use Rattle.table_machine.specs.Stored.{stored};
ghost use Rattle.table_machine.specs.Tables as spec;
ghost use Rattle.table_machine.specs.declared.cell.Cell.TheVariants as cells;
ghost use Rattle.table_store.specs.Finding.{found_by, given_cells, kept_by, selected, spelled_items};

use acra_base::{Bytes, NoMemory, Sequence};
use sql_tree::{Cond, Items, Operand, OrderKey};
use std::alloc::Global;
use table_binder::{
    BindRefusal, bind_items, bind_keys, bind_where, out_columns, out_row, spelled_row,
};
use table_machine::{Cell, ColumnDef, OutColumn, Outcome};
use table_rows::{Filter, SortKey, passes, sort_rows};

/// The rows behind OFFSET, as many as LIMIT lets through.
fn window<T>(rows: &[T], limit: Option<u64>, offset: Option<u64>) -> &[T]
    ensures { result.now ≡ machine.window limit offset rows.now }
{
    let rest = behind(rows, offset);
    up_to(rest, limit)
}

fn behind<T>(rows: &[T], offset: Option<u64>) -> &[T]
    ensures { result.now ≡ machine.behind offset rows.now }
{
    match offset {
        None => rows,
        Some(count) => {
            let first = (count as usize).min(rows.len());
            &rows[first..]
        }
    }
}

fn up_to<T>(rows: &[T], limit: Option<u64>) -> &[T]
    ensures { result.now ≡ machine.up_to limit rows.now }
{
    match limit {
        None => rows,
        Some(count) => {
            let end = (count as usize).min(rows.len());
            &rows[..end]
        }
    }
}

/// The rows that a condition keeps.
fn kept<'a>(
    alloc: Global,
    rows: &'a [Sequence<Cell>],
    filter: &Option<Filter>,
) -> Result<Vec<&'a Sequence<Cell>>, NoMemory>
    ensures { IfOk result (λ kept. map (λ r. r.now) kept.items ≡ kept_by filter.now rows.now) }
{
    let mut kept = Vec::new(alloc);
    'rows: for row in rows {
        if passes(filter, row.as_slice()) {
            kept.push(row)?;
        }
    }
    Ok(kept)
}

/// How many rows a condition keeps.
pub fn count_kept(rows: &[Sequence<Cell>], filter: &Option<Filter>) -> u64
    ensures value { result ≡ length (kept_by filter.now rows.now) }
    ensures small { result < 2 ^ 63 }
{
    let mut count: u64 = 0;
    'rows: for row in rows {
        if passes(filter, row.as_slice()) {
            count += 1;
        }
    }
    count
}

/// The rows that a condition keeps, in their order.
fn found<'a>(
    alloc: Global,
    rows: &'a [Sequence<Cell>],
    filter: &Option<Filter>,
    keys: &[SortKey],
) -> Result<Vec<&'a Sequence<Cell>>, NoMemory>
    ensures { IfOk result (λ found. map (λ r. r.now) found.items ≡ found_by filter.now keys.now rows.now) }
{
    if keys.is_empty() {
        return kept(alloc, rows, filter);
    }
    let mut found = kept(alloc, rows, filter)?;
    sort_rows(&mut found, keys)?;
    Ok(found)
}

fn whole_rows(
    alloc: Global,
    columns: &[OutColumn],
    rows: &[&Sequence<Cell>],
) -> Result<Sequence<Sequence<Option<Bytes>>>, NoMemory>
    ensures { IfOk result (λ out. out ≡ map (spec.spelled_row columns.now) (map (λ r. r.now) rows.now)) }
{
    let mut out = Sequence::new(alloc);
    'rows: for row in rows {
        out.push(spelled_row(alloc, columns, row.as_slice())?)?;
    }
    Ok(out)
}

fn item_rows(
    alloc: Global,
    columns: &[OutColumn],
    rows: &[&Sequence<Cell>],
    places: &[u16],
) -> Result<Sequence<Sequence<Option<Bytes>>>, NoMemory>
    ensures { IfOk result (λ out. out ≡ map (spelled_items columns.now places.now) (map (λ r. r.now) rows.now)) }
{
    let mut out = Sequence::new(alloc);
    'rows: for row in rows {
        out.push(out_row(alloc, columns, row.as_slice(), places)?)?;
    }
    Ok(out)
}

/// The one row of a count.
fn count_row(alloc: Global, count: u64) -> Result<Sequence<Cell>, NoMemory>
    requires { count < 2 ^ 63 }
    ensures { IfOk result (λ row. row ≡ cells.Int (pos count) ∷ []) }
{
    let mut row = Sequence::new(alloc);
    row.push(Cell::Int(count as i64))?;
    Ok(row)
}

/// What a SELECT asks of its table.
#[derive(Clone, Copy)]
pub struct Query<'a> {
    /// What is given of each row.
    pub items: &'a Items,
    /// Which rows are kept.
    pub cond: &'a Option<Cond>,
    /// What orders them.
    pub order: &'a [OrderKey],
    /// How many are given.
    pub limit: Option<u64>,
    /// How many are passed over before.
    pub offset: Option<u64>,
}

/// The rows that a SELECT gives, spelled.
fn given_rows(
    alloc: Global,
    table: &[ColumnDef],
    rows: &[Sequence<Cell>],
    query: &Query<'_>,
    columns: &[OutColumn],
    filter: &Option<Filter>,
    keys: &[SortKey],
) -> Result<Sequence<Sequence<Option<Bytes>>>, NoMemory>
    requires { length table.now ≤ 256 }
    ensures { IfOk result (λ out. out ≡ map (spec.spelled_row columns.now) (given_cells table.now query.now.items.now filter.now keys.now query.now.limit query.now.offset rows.now)) }
{
    match query.items {
        Items::Count { .. } => {
            let row = count_row(alloc, count_kept(rows, filter))?;
            whole_rows(alloc, columns, window(&[&row], query.limit, query.offset))
        }
        Items::All => {
            let found = found(alloc, rows, filter, keys)?;
            whole_rows(alloc, columns, window(&found, query.limit, query.offset))
        }
        Items::Columns(items) => {
            let places = bind_items(alloc, table, items.as_slice())?;
            let found = found(alloc, rows, filter, keys)?;
            item_rows(
                alloc,
                columns,
                window(&found, query.limit, query.offset),
                &places,
            )
        }
    }
}

/// Executes a SELECT on the table of this number.
pub fn select(
    alloc: Global,
    number: u16,
    table: &[ColumnDef],
    rows: &[Sequence<Cell>],
    query: &Query<'_>,
    given: &[Operand],
) -> Result<Outcome, BindRefusal>
    requires few { length table.now ≤ 256 }
    requires number { number ≤ 255 }
    requires shaped { all_shaped query.now.cond.now ≡ true }
    ensures { IsBound (first_unread (stored given.now) (where_places table.now query.now.cond.now)) result (λ outcome. outcome ≡ spec.told (selected number table.now query.now given.now rows.now)) }
{
    let filter = bind_where(alloc, table, query.cond, given)?;
    let keys = bind_keys(alloc, table, query.order)?;
    let columns = out_columns(alloc, number, table, query.items)?;
    let rows = given_rows(
        alloc,
        table,
        rows,
        query,
        columns.as_slice(),
        &filter,
        &keys,
    )?;
    Ok(Outcome::Rows { columns, rows })
}
