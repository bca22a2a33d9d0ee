//! Fingerprints of statements, by which unequal ones are told apart at once.
ghost use Rattle.std.specs.Prelude.{◌≡◌, ◌↔◌, IsTrue, false};
ghost use Rattle.sql_patterns.specs.Matching.{statement_matches};
ghost use Rattle.sql_patterns.specs.Fingerprints as prints;

use crate::mixing::{Mixed, mix, mix_all, mix_bytes, mix_option};
use crate::pattern::are_equal;
use sql_tree::Statement;

// What FNV-1a begins with in 64 bits.
const START: u64 = 14_695_981_039_346_656_037;

/// A number that equal statements share. Different ones seldom do. It takes time in proportion to the statement, and no memory.
pub fn fingerprint(statement: &Statement) -> u64
    ensures { result ≡ prints.fingerprint statement.now }
{
    match statement {
        Statement::Empty => mix(0, START),
        Statement::Set { name, value } => value.mix_into(mix_bytes(name.as_slice(), mix(1, START))),
        Statement::Select {
            table,
            items,
            cond,
            order,
            limit,
            offset,
        } => {
            let head = items.mix_into(mix_bytes(table.as_slice(), mix(2, START)));
            let kept = mix_all(order.as_slice(), mix_option(cond, head));
            mix_option(offset, mix_option(limit, kept))
        }
        Statement::Insert {
            table,
            columns,
            rows,
        } => {
            let head = mix_option(columns, mix_bytes(table.as_slice(), mix(3, START)));
            mix_all(rows.as_slice(), head)
        }
        Statement::Update { table, sets, cond } => {
            let head = mix_all(sets.as_slice(), mix_bytes(table.as_slice(), mix(4, START)));
            mix_option(cond, head)
        }
        Statement::Delete { table, cond } => {
            mix_option(cond, mix_bytes(table.as_slice(), mix(5, START)))
        }
    }
}

/// A statement that others are compared with.
#[derive(Debug, Drop)]
pub struct Query {
    /// The statement.
    pub tree: Statement,
    /// Its fingerprint.
    pub print: u64,
    pub ghost is: { print ≡ prints.fingerprint tree },
}

impl Query {
    /// A query of a statement.
    pub fn new(tree: Statement) -> Self
        ensures { result.tree ≡ tree }
    {
        let print = fingerprint(&tree);
        Query { tree, print }
    }

    /// Whether it equals a statement of which this is the fingerprint. The trees are compared only where the fingerprints are
    /// equal.
    pub fn equals(&self, statement: &Statement, print: u64) -> bool
        requires { print ≡ prints.fingerprint statement.now }
        ensures matched { result ≡ statement_matches false self.now.tree statement.now }
        ensures equal { IsTrue result ↔ (self.now.tree ≡ statement.now) }
    {
        self.print == print && are_equal(&self.tree, statement)
    }
}
