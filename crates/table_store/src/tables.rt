ghost use Rattle.std.specs.Prelude.{◌≡◌, ◌↔◌, ◌≤◌, ◌<◌, ◌+◌, ◌∷◌, [], List, max, IfOk, OnErr, OnOk, length, map, true, Option, Some, slice_get, if◌then◌else◌};
ghost use Rattle.sql_tree.specs.WellFormed.{is_grammatical};
ghost use Rattle.table_machine.specs.Columns.{place};
ghost use Rattle.table_machine.specs.declared.table.TableDef.{TableDef};
ghost use Rattle.table_machine.specs.Faults.{fault, first_unread, places_in};
ghost use Rattle.table_machine.specs.Reordered.{CanReorder, reordered};
ghost use Rattle.table_machine.specs.Stored.{stored};
ghost use Rattle.table_machine.specs.Tables as spec;
ghost use Rattle.table_machine.specs.Tables.{answered, executed, performed, table_named};
ghost use Rattle.std.specs.Option.{option_copied};
ghost use Rattle.table_store.specs.Changing.{KeyHolds};
ghost use Rattle.table_store.specs.Differing.{AllDiffer};
ghost use Rattle.table_store.specs.Doing.{IsDone, Tells};
ghost use Rattle.table_store.specs.Shelves.{AllHold, AreTables, IsTable, empty_table, is_def, joined};

use crate::changes::{delete, insert, update};
use crate::queries::{Query, select};
use crate::reordering::reorder;
use acra_base::{Name, NoMemory, Sequence};
use sql_tree::{Operand, Statement};
use std::alloc::Global;
use std::marker::Model;
use table_binder::{BindRefusal, check_shape, no_table};
use table_machine::{Cell, Outcome, TableDef};

/// Tables with their rows. The rows of a table come into being with the first statement on it.
#[derive(Debug, Drop)]
pub struct Tables {
    alloc: Global,
    defs: Vec<TableDef>,
    rows: Vec<Vec<Sequence<Cell>>>,
}

impl Model for Tables {
    ghost use Rattle.std.specs.Prelude.{List, ◌≤◌, length, map};
    ghost use Rattle.table_machine.specs.declared.cell.Cell.{Cell};
    ghost use Rattle.table_machine.specs.Tables.{Table};
    ghost use Rattle.table_store.specs.Shelves.{AreTables, AllHold, joined};

    ghost Value = { List (Table Cell) };

    ghost view = { λ t. joined t.defs.items (map (λ v. v.items) t.rows.items) };

    ghost invariant = { λ t. AreTables t.defs.items × (length t.rows.items ≤ length t.defs.items) × AllHold (joined t.defs.items (map (λ v. v.items) t.rows.items)) };
}

/// The table that a statement is on.
fn table_of(statement: &Statement) -> Option<&Name>
    ensures { option_copied result ≡ table_named statement.now }
{
    match statement {
        Statement::Select { table, .. }
        | Statement::Insert { table, .. }
        | Statement::Update { table, .. }
        | Statement::Delete { table, .. } => Some(table),
        Statement::Set { .. } | Statement::Empty => None,
    }
}

/// Executes a statement that has no fault before its values are read.
fn perform(
    alloc: Global,
    number: u16,
    def: &TableDef,
    rows: &mut Vec<Sequence<Cell>>,
    statement: &Statement,
    given: &[Operand],
) -> Result<Outcome, BindRefusal>
    requires table { IsTable def.now }
    requires holds { KeyHolds def.now rows.old.items }
    requires number { number ≤ 255 }
    requires shaped { is_grammatical statement.now ≡ true }
    ensures { IsDone (first_unread (stored given.now) (places_in def.now.columns statement.now)) (performed (stored given.now) number def.now statement.now rows.old.items) rows.old.items result rows.new.items }
{
    match statement {
        Statement::Select {
            items,
            cond,
            order,
            limit,
            offset,
            ..
        } => {
            let query = Query {
                items,
                cond,
                order: order.as_slice(),
                limit: *limit,
                offset: *offset,
            };
            select(alloc, number, def.columns.as_slice(), rows, &query, given)
        }
        Statement::Insert {
            columns,
            rows: new,
            ..
        } => insert(alloc, def, rows, columns, new.as_slice(), given),
        Statement::Update { sets, cond, .. } => {
            update(alloc, def, rows, sets.as_slice(), cond, given)
        }
        Statement::Delete { cond, .. } => delete(alloc, def, rows, cond, given),
        Statement::Set { .. } | Statement::Empty => Ok(Outcome::Count(0)),
    }
}

/// Executes a statement on one table.
fn run(
    alloc: Global,
    number: u16,
    def: &TableDef,
    rows: &mut Vec<Sequence<Cell>>,
    statement: &Statement,
    given: &[Operand],
) -> Result<Outcome, BindRefusal>
    requires table { IsTable def.now }
    requires holds { KeyHolds def.now rows.old.items }
    requires number { number ≤ 255 }
    requires shaped { is_grammatical statement.now ≡ true }
    ensures { IsDone (fault (stored given.now) def.now.columns statement.now) (performed (stored given.now) number def.now statement.now rows.old.items) rows.old.items result rows.new.items }
{
    match check_shape(alloc, def.columns.as_slice(), statement)? {
        Some(fault) => Err(BindRefusal::Fault(fault)),
        None => perform(alloc, number, def, rows, statement, given),
    }
}

/// What a step answers: a fault is an outcome.
fn told(done: Result<Outcome, BindRefusal>) -> Result<Outcome, NoMemory>
    ensures { Tells done result }
{
    match done {
        Ok(outcome) => Ok(outcome),
        Err(BindRefusal::Fault(fault)) => Ok(Outcome::Fault(fault)),
        Err(BindRefusal::NoMemory) => Err(NoMemory),
    }
}

/// Where the definition of this name stands; how many there are, where there is none.
fn place_of(defs: &[TableDef], name: &Name) -> usize
    ensures value { result ≡ place (is_def name.now) defs.now }
    ensures within { result ≤ length defs.now }
{
    'tables: for (index, def) in defs.iter().enumerate() {
        if def.name.as_slice() == name.as_slice() {
            return index;
        }
    }
    defs.len()
}

/// Makes room for the rows of a table, where it has none yet. Without memory there may be more room.
fn make_rows(
    alloc: Global,
    rows: &mut Vec<Vec<Sequence<Cell>>>,
    place: usize,
) -> Result<(), NoMemory>
    requires { place < 256 }
    ensures same { (defs : List TableDef) → joined defs (map (λ v. v.items) rows.new.items) ≡ joined defs (map (λ v. v.items) rows.old.items) }
    ensures most { length rows.new.items ≤ max (length rows.old.items) (place + 1) }
    ensures ok { OnOk result (place < length rows.new.items) }
{
    'tables: while rows.len() <= place {
        rows.push(Vec::new(alloc))?;
    }
    Ok(())
}

/// Executes a statement on the table of this name.
fn exec_on(
    alloc: Global,
    defs: &[TableDef],
    rows: &mut Vec<Vec<Sequence<Cell>>>,
    name: &Name,
    statement: &Statement,
    given: &[Operand],
) -> Result<Outcome, NoMemory>
    requires tables { AreTables defs.now }
    requires hold { AllHold (joined defs.now (map (λ v. v.items) rows.old.items)) }
    requires few { length rows.old.items ≤ length defs.now }
    requires named { table_named statement.now ≡ Some name.now }
    requires shaped { is_grammatical statement.now ≡ true }
    ensures ok { IfOk result (λ outcome. (outcome ≡ spec.told (answered (stored given.now) statement.now (joined defs.now (map (λ v. v.items) rows.old.items))))
        × (joined defs.now (map (λ v. v.items) rows.new.items) ≡ executed (stored given.now) statement.now (joined defs.now (map (λ v. v.items) rows.old.items)))) }
    ensures err { OnErr result (joined defs.now (map (λ v. v.items) rows.new.items) ≡ joined defs.now (map (λ v. v.items) rows.old.items)) }
    ensures hold { AllHold (joined defs.now (map (λ v. v.items) rows.new.items)) }
    ensures few { length rows.new.items ≤ length defs.now }
{
    let place = place_of(defs, name);
    if place >= defs.len() {
        return Ok(Outcome::Fault(no_table(alloc, name)?));
    }
    make_rows(alloc, rows, place)?;
    told(run(
        alloc,
        place as u16,
        &defs[place],
        &mut rows[place],
        statement,
        given,
    ))
}

/// Brings the rows of a table into another order.
fn reorder_on(
    alloc: Global,
    defs: &[TableDef],
    rows: &mut Vec<Vec<Sequence<Cell>>>,
    table: usize,
    places: &[u32],
) -> Result<bool, NoMemory>
    requires tables { AreTables defs.now }
    requires hold { AllHold (joined defs.now (map (λ v. v.items) rows.old.items)) }
    requires few { length rows.old.items ≤ length defs.now }
    ensures exact { IfOk result (λ done. (done ≡ true) ↔ CanReorder places.now (slice_get (joined defs.now (map (λ v. v.items) rows.old.items)) table)) }
    ensures ok { IfOk result (λ done. joined defs.now (map (λ v. v.items) rows.new.items) ≡ (if done then reordered table places.now (joined defs.now (map (λ v. v.items) rows.old.items)) else joined defs.now (map (λ v. v.items) rows.old.items))) }
    ensures err { OnErr result (joined defs.now (map (λ v. v.items) rows.new.items) ≡ joined defs.now (map (λ v. v.items) rows.old.items)) }
    ensures hold { AllHold (joined defs.now (map (λ v. v.items) rows.new.items)) }
    ensures few { length rows.new.items ≤ length defs.now }
{
    if table >= defs.len() {
        return Ok(false);
    }
    make_rows(alloc, rows, table)?;
    reorder(alloc, &mut rows[table], places)
}

impl Tables {
    /// Tables of these definitions, without rows. It takes no memory.
    pub fn new(alloc: Global, defs: Vec<TableDef>) -> Tables
        requires { AreTables defs.items }
        ensures { result ≡ map empty_table defs.items }
    {
        Tables {
            alloc,
            defs,
            rows: Vec::new(alloc),
        }
    }

    /// Executes a statement, whose parameters have these values: each a string, a number or NULL. Without
    /// memory the tables stay.
    pub fn exec(&mut self, statement: &Statement, values: &[Operand]) -> Result<Outcome, NoMemory>
        requires { is_grammatical statement.now ≡ true }
        ensures ok { IfOk result (λ outcome. (outcome ≡ spec.told (answered (stored values.now) statement.now self.old)) × (self.new ≡ executed (stored values.now) statement.now self.old)) }
        ensures err { OnErr result (self.new ≡ self.old) }
        // No key is NULL, and no two of a table are equal.
        ensures keys { AllDiffer self.new }
    {
        let alloc = self.alloc;
        let Some(name) = table_of(statement) else {
            return Ok(Outcome::Count(0));
        };
        exec_on(alloc, &self.defs, &mut self.rows, name, statement, values)
    }

    /// Brings the rows of the table of this number into the order of these old places, which count from 0; false,
    /// and nothing changes, where there is no such table or the places are no permutation of its rows. Without
    /// memory the tables stay. It takes time and room in proportion to the number of the rows.
    pub fn reorder(&mut self, table: u16, places: &[u32]) -> Result<bool, NoMemory>
        ensures exact { IfOk result (λ done. (done ≡ true) ↔ CanReorder places.now (slice_get self.old table)) }
        ensures ok { IfOk result (λ done. self.new ≡ (if done then reordered table places.now self.old else self.old)) }
        ensures err { OnErr result (self.new ≡ self.old) }
        ensures keys { AllDiffer self.new }
    {
        reorder_on(
            self.alloc,
            &self.defs,
            &mut self.rows,
            table as usize,
            places,
        )
    }
}
