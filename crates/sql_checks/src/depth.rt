//! How deep AND, OR and NOT stand in one another.

ghost use Rattle.std.specs.Prelude.{◌≡◌, nat_lt};
ghost use Rattle.sql_tree.specs.Shapes.{node_depth};
ghost use Rattle.sql_tree.specs.Depths.{statement_depth, filter_depth};

use sql_tree::{Cond, Statement};

// How deep they may stand.
const DEEPEST: u32 = 64;

fn is_deeper(cond: &Cond, allowed: u32) -> bool
    ensures { result ≡ nat_lt allowed (node_depth cond.now) }
{
    match cond {
        Cond::And(parts) => {
            if allowed == 0 {
                return true;
            }
            'ands: for part in parts.as_slice() {
                if is_deeper(part, allowed - 1) {
                    return true;
                }
            }
            false
        }
        Cond::Or(parts) => {
            if allowed == 0 {
                return true;
            }
            'ors: for part in parts.as_slice() {
                if is_deeper(part, allowed - 1) {
                    return true;
                }
            }
            false
        }
        Cond::Not(part) => {
            if allowed == 0 {
                return true;
            }
            is_deeper(part.get(), allowed - 1)
        }
        Cond::Compare { .. } => false,
        Cond::Within { .. } => false,
        Cond::Null { .. } => false,
    }
}

fn is_filter_deeper(cond: &Option<Cond>) -> bool
    ensures { result ≡ nat_lt 64 (filter_depth cond.now) }
{
    match cond {
        Some(cond) => is_deeper(cond, DEEPEST),
        None => false,
    }
}

/// Whether they stand more than 64 deep. It recurses no deeper.
pub fn is_too_deep(statement: &Statement) -> bool
    ensures { result ≡ nat_lt 64 (statement_depth statement.now) }
{
    match statement {
        Statement::Select { cond, .. } => is_filter_deeper(cond),
        Statement::Update { cond, .. } => is_filter_deeper(cond),
        Statement::Delete { cond, .. } => is_filter_deeper(cond),
        Statement::Empty => false,
        Statement::Set { .. } => false,
        Statement::Insert { .. } => false,
    }
}
