//! INSERT, UPDATE and DELETE.

ghost use Rattle.std.specs.Prelude.{◌≡◌, ◌≤◌, ◌<◌, IfOk, OnErr, [], length, map, true, not, filter, Option};
ghost use Rattle.sql_tree.specs.WellFormed.{all_shaped};
ghost use Rattle.table_machine.specs.Faults as faults;
ghost use Rattle.table_rows.specs.Filters as filters;
ghost use Rattle.table_machine.specs.Machine as machine;
ghost use Rattle.table_machine.specs.Stored.{stored};
ghost use Rattle.table_rows.specs.Looking.{seen};
ghost use Rattle.table_machine.specs.Tables.{change, performed};
ghost use Rattle.sql_tree.specs.declared.statement.Statement.TheVariants as statement;
ghost use Rattle.table_store.specs.Changing.{KeyHolds, changed_fault, chosen, chosen_rows, keys_in, new_fault, replacement, sets_place, update_fault};
ghost use Rattle.table_store.specs.Doing.{IsDone};
ghost use Rattle.table_store.specs.Updating.{BindsUpdate};
ghost use Rattle.table_binder.specs.Binding.{IsBound};
ghost use Rattle.table_store.specs.Shelves.{IsTable};

use crate::keys::first_broken;
use crate::queries::count_kept;
use acra_base::{Name, NoMemory, Sequence};
use sql_tree::{Cond, Operand, SetPair};
use std::alloc::Global;
use table_binder::{
    BindRefusal, SetCell, bind_rows, bind_sets, bind_where, key_twice, null_in, set_row,
};
use table_machine::{BrokenKey, Cell, LabFault, Outcome, TableDef};
use table_rows::{Filter, Seen, cell_at, passes};

/// The fault of a broken key.
fn key_fault(
    alloc: Global,
    def: &TableDef,
    place: u16,
    broken: BrokenKey,
) -> Result<LabFault, NoMemory>
    requires { place < length def.now.columns }
    ensures { IfOk result (λ f. f ≡ faults.broken_fault (faults.key_name (stored []) def.now.columns place) broken) }
{
    let column = &def.columns.as_slice()[place as usize];
    match broken {
        BrokenKey::Null => null_in(alloc, &column.name),
        BrokenKey::Twice => key_twice(alloc, &column.name),
    }
}

/// The keys of rows.
fn keys_of<'a>(
    alloc: Global,
    place: u16,
    rows: &'a [Sequence<Cell>],
) -> Result<Vec<Seen<'a>>, NoMemory>
    ensures { IfOk result (λ keys. map seen keys.items ≡ keys_in place rows.now) }
{
    let mut keys = Vec::new(alloc);
    'rows: for row in rows {
        keys.push(cell_at(row.as_slice(), place))?;
    }
    Ok(keys)
}

/// Why new rows can't stand behind the rows of a table.
fn broken_new(
    alloc: Global,
    def: &TableDef,
    rows: &[Sequence<Cell>],
    new: &[Sequence<Cell>],
) -> Result<Option<LabFault>, NoMemory>
    requires { IsTable def.now }
    ensures { IfOk result (λ f. f ≡ new_fault def.now rows.now new.now) }
{
    let Some(place) = def.key else {
        return Ok(None);
    };
    let keys = keys_of(alloc, place, new)?;
    match first_broken(alloc, place, rows, &keys)? {
        None => Ok(None),
        Some(broken) => Ok(Some(key_fault(alloc, def, place, broken)?)),
    }
}

/// Executes an INSERT: new rows at the end.
pub fn insert(
    alloc: Global,
    def: &TableDef,
    rows: &mut Vec<Sequence<Cell>>,
    names: &Option<Sequence<Name>>,
    new: &[Sequence<Operand>],
    given: &[Operand],
) -> Result<Outcome, BindRefusal>
    requires table { IsTable def.now }
    requires holds { KeyHolds def.now rows.old.items }
    ensures { IsDone (faults.first_unread (stored given.now) (faults.insert_places def.now.columns names.now new.now)) (change (stored given.now) def.now (length new.now) (machine.insert (stored given.now) def.now.columns names.now new.now rows.old.items) rows.old.items) rows.old.items result rows.new.items }
{
    let mut added = bind_rows(alloc, def.columns.as_slice(), names, new, given)?;
    match broken_new(alloc, def, rows, &added)? {
        Some(fault) => Ok(Outcome::Fault(fault)),
        None => {
            rows.append(&mut added)?;
            Ok(Outcome::Count(new.len() as u64))
        }
    }
}

/// What replaces each row: nothing where the condition doesn't keep it.
fn replacements(
    alloc: Global,
    rows: &[Sequence<Cell>],
    filter: &Option<Filter>,
    sets: &[SetCell],
) -> Result<Vec<Option<Sequence<Cell>>>, NoMemory>
    ensures { IfOk result (λ changed. changed.items ≡ map (replacement filter.now sets.now) rows.now) }
{
    let mut changed = Vec::new(alloc);
    'rows: for row in rows {
        if passes(filter, row.as_slice()) {
            changed.push(Some(set_row(alloc, row.as_slice(), sets)?))?;
        } else {
            changed.push(None)?;
        }
    }
    Ok(changed)
}

/// The key of a row, or of what replaces it.
fn key_then<'a>(place: u16, row: &'a Sequence<Cell>, new: &'a Option<Sequence<Cell>>) -> Seen<'a>
    ensures { seen result ≡ filters.cell_at (chosen row.now new.now) place }
{
    match new {
        Some(new) => cell_at(new.as_slice(), place),
        None => cell_at(row.as_slice(), place),
    }
}

/// The keys of rows that are replaced.
fn keys_then<'a>(
    alloc: Global,
    place: u16,
    rows: &'a [Sequence<Cell>],
    changed: &'a [Option<Sequence<Cell>>],
) -> Result<Vec<Seen<'a>>, NoMemory>
    requires { length changed.now ≡ length rows.now }
    ensures { IfOk result (λ keys. map seen keys.items ≡ keys_in place (chosen_rows rows.now changed.now)) }
{
    let mut keys = Vec::new(alloc);
    'rows: for (index, row) in rows.iter().enumerate() {
        keys.push(key_then(place, row, &changed[index]))?;
    }
    Ok(keys)
}

/// Whether a cell is set at a place.
fn sets_place(place: u16, sets: &[SetCell]) -> bool
    ensures { result ≡ sets_place place sets.now }
{
    'sets: for set in sets {
        if set.place == place {
            return true;
        }
    }
    false
}

/// Why replaced rows can't stand. Where the key isn't set, its cells are those that stand already.
fn broken_then(
    alloc: Global,
    def: &TableDef,
    rows: &[Sequence<Cell>],
    changed: &[Option<Sequence<Cell>>],
    sets: &[SetCell],
) -> Result<Option<LabFault>, NoMemory>
    requires table { IsTable def.now }
    requires same { length changed.now ≡ length rows.now }
    ensures { IfOk result (λ f. f ≡ changed_fault def.now sets.now (chosen_rows rows.now changed.now)) }
{
    let Some(place) = def.key else {
        return Ok(None);
    };
    if !sets_place(place, sets) {
        return Ok(None);
    }
    let keys = keys_then(alloc, place, rows, changed)?;
    match first_broken(alloc, place, &[], &keys)? {
        None => Ok(None),
        Some(broken) => Ok(Some(key_fault(alloc, def, place, broken)?)),
    }
}

/// Puts the replacements in the place of their rows.
fn replace(rows: &mut Vec<Sequence<Cell>>, changed: Vec<Option<Sequence<Cell>>>)
    requires { length changed.items ≡ length rows.old.items }
    ensures { rows.new.items ≡ chosen_rows rows.old.items changed.items }
{
    let mut left = changed;
    'changes: while let Some(new) = left.pop() {
        let index = left.len();
        if let Some(new) = new {
            rows[index] = new;
        }
    }
}

/// The parts of an UPDATE, bound: the pairs before the condition.
fn bind_update(
    alloc: Global,
    def: &TableDef,
    sets: &[SetPair],
    cond: &Option<Cond>,
    given: &[Operand],
) -> Result<(Vec<SetCell>, Option<Filter>), BindRefusal>
    requires few { length def.now.columns ≤ 256 }
    requires shaped { all_shaped cond.now ≡ true }
    ensures { IsBound (update_fault given.now def.now sets.now cond.now) result (λ bound. BindsUpdate given.now def.now sets.now cond.now bound.0.items bound.1) }
{
    match bind_sets(alloc, def.columns.as_slice(), sets, given) {
        Err(fault) => Err(fault),
        Ok(sets) => match bind_where(alloc, def.columns.as_slice(), cond, given) {
            Err(fault) => Err(fault),
            Ok(filter) => Ok((sets, filter)),
        },
    }
}

/// Executes an UPDATE: every row is judged before any is changed.
pub fn update(
    alloc: Global,
    def: &TableDef,
    rows: &mut Vec<Sequence<Cell>>,
    sets: &[SetPair],
    cond: &Option<Cond>,
    given: &[Operand],
) -> Result<Outcome, BindRefusal>
    requires table { IsTable def.now }
    requires holds { KeyHolds def.now rows.old.items }
    requires shaped { all_shaped cond.now ≡ true }
    ensures { IsDone (update_fault given.now def.now sets.now cond.now) (performed (stored given.now) 0 def.now (statement.Update def.now.name sets.now cond.now) rows.old.items) rows.old.items result rows.new.items }
{
    let (sets, filter) = bind_update(alloc, def, sets, cond, given)?;
    let changed = replacements(alloc, rows, &filter, &sets)?;
    match broken_then(alloc, def, rows, &changed, &sets)? {
        Some(fault) => Ok(Outcome::Fault(fault)),
        None => {
            let count = count_kept(rows, &filter);
            replace(rows, changed);
            Ok(Outcome::Count(count))
        }
    }
}

/// Removes the rows that a condition keeps.
fn remove(rows: &mut Vec<Sequence<Cell>>, condition: &Option<Filter>)
    ensures { rows.new.items ≡ filter (λ row. not (filters.passes condition.now row)) rows.old.items }
{
    rows.retain(|row| !passes(condition, row.as_slice()));
}

/// Executes a DELETE.
pub fn delete(
    alloc: Global,
    def: &TableDef,
    rows: &mut Vec<Sequence<Cell>>,
    cond: &Option<Cond>,
    given: &[Operand],
) -> Result<Outcome, BindRefusal>
    requires table { IsTable def.now }
    requires shaped { all_shaped cond.now ≡ true }
    ensures { IsDone (faults.first_unread (stored given.now) (faults.where_places def.now.columns cond.now)) (performed (stored given.now) 0 def.now (statement.Delete def.now.name cond.now) rows.old.items) rows.old.items result rows.new.items }
{
    let filter = bind_where(alloc, def.columns.as_slice(), cond, given)?;
    let count = count_kept(rows, &filter);
    remove(rows, &filter);
    Ok(Outcome::Count(count))
}
