//! Conditions whose columns are places in a row and whose values are cells.

ghost use Rattle.std.specs.Prelude.{◌≡◌};
ghost use Rattle.table_rows.specs.Filters as spec;
ghost use Rattle.table_rows.specs.Looking.{seen};

use crate::logic::{and, holds, negated, or};
use crate::seen::{Seen, cell_at, compare, prefix, see};
use acra_base::Sequence;
use sql_tree::Op;
use sqlite_items::{Boxed, Items};
use table_machine::Cell;

/// What is compared.
#[derive(Debug, Drop)]
pub enum Term {
    /// The cell at this place of the row.
    Column(u16),
    /// Its first 33 bytes.
    Prefix(u16),
    /// This cell.
    Value(Cell),
}

/// A condition on a row.
#[derive(Debug, Drop)]
pub enum Filter {
    /// All of these.
    All(Items<Filter>),
    /// One of these.
    Any(Items<Filter>),
    /// Not this.
    Not(Boxed<Filter>),
    /// A comparison.
    Compare { left: Term, op: Op, right: Term },
    /// Equal to one of these.
    Within { left: Term, list: Sequence<Term> },
    /// NULL at this place of the row.
    Null(u16),
}

fn term_cell<'a>(row: &'a [Cell], term: &'a Term) -> Seen<'a>
    ensures { seen result ≡ spec.term_cell row.now term.now }
{
    match term {
        Term::Column(place) => cell_at(row, *place),
        Term::Prefix(place) => prefix(cell_at(row, *place)),
        Term::Value(cell) => see(cell),
    }
}

fn compared(row: &[Cell], left: &Term, op: Op, right: &Term) -> Option<bool>
    ensures { result ≡ spec.compared row.now left.now op right.now }
{
    match compare(term_cell(row, left), term_cell(row, right)) {
        None => None,
        Some(order) => Some(holds(op, order)),
    }
}

fn within(row: &[Cell], left: &Term, list: &[Term]) -> Option<bool>
    ensures { result ≡ spec.within row.now left.now list.now }
{
    let mut any = Some(false);
    'terms: for term in list {
        any = or(any, compared(row, left, Op::Eq, term));
    }
    any
}

impl Filter {
    /// What the condition says of a row: true, false, or `None` where it is unknown.
    pub fn truth(&self, row: &[Cell]) -> Option<bool>
        ensures { result ≡ spec.truth row.now self.now }
    {
        match self {
            Filter::All(parts) => {
                let mut all = Some(true);
                'alls: for part in parts.as_slice() {
                    all = and(all, part.truth(row));
                }
                all
            }
            Filter::Any(parts) => {
                let mut any = Some(false);
                'anys: for part in parts.as_slice() {
                    any = or(any, part.truth(row));
                }
                any
            }
            Filter::Not(part) => negated(part.get().truth(row)),
            Filter::Compare { left, op, right } => compared(row, left, *op, right),
            Filter::Within { left, list } => within(row, left, list.as_slice()),
            Filter::Null(place) => Some(matches!(cell_at(row, *place), Seen::Null)),
        }
    }
}

/// Whether a row is kept: where there is a condition, only where it is true.
pub fn passes(filter: &Option<Filter>, row: &[Cell]) -> bool
    ensures { result ≡ spec.passes filter.now row.now }
{
    match filter {
        None => true,
        Some(filter) => filter.truth(row) == Some(true),
    }
}
