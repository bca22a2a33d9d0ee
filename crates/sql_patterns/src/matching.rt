//! Statements that match.
ghost use Rattle.std.specs.Prelude.{◌≡◌};
ghost use Rattle.sql_patterns.specs.Matching as matching;

use crate::condition::filter_matches;
use crate::parts::{Matched, all_match, both_match};
use sql_tree::Statement;

/// Whether a statement matches another, with marks in it as holes or without.
pub(crate) fn statement_matches(pattern: &Statement, statement: &Statement, holes: bool) -> bool
    ensures { result ≡ matching.statement_matches holes pattern.now statement.now }
{
    match pattern {
        Statement::Empty => matches!(statement, Statement::Empty),
        Statement::Set { name, value } => match statement {
            Statement::Set {
                name: other,
                value: given,
            } => name.is_match(other, holes) && value.is_match(given, holes),
            _ => false,
        },
        Statement::Select {
            table,
            items,
            cond,
            order,
            limit,
            offset,
        } => match statement {
            Statement::Select {
                table: other,
                items: columns,
                cond: filter,
                order: keys,
                limit: most,
                offset: from,
            } => {
                table.is_match(other, holes)
                    && items.is_match(columns, holes)
                    && filter_matches(cond, filter, holes)
                    && all_match(order.as_slice(), keys.as_slice(), holes)
                    && both_match(limit, most, holes)
                    && both_match(offset, from, holes)
            }
            _ => false,
        },
        Statement::Insert {
            table,
            columns,
            rows,
        } => match statement {
            Statement::Insert {
                table: other,
                columns: names,
                rows: values,
            } => {
                table.is_match(other, holes)
                    && both_match(columns, names, holes)
                    && all_match(rows.as_slice(), values.as_slice(), holes)
            }
            _ => false,
        },
        Statement::Update { table, sets, cond } => match statement {
            Statement::Update {
                table: other,
                sets: pairs,
                cond: filter,
            } => {
                table.is_match(other, holes)
                    && all_match(sets.as_slice(), pairs.as_slice(), holes)
                    && filter_matches(cond, filter, holes)
            }
            _ => false,
        },
        Statement::Delete { table, cond } => match statement {
            Statement::Delete {
                table: other,
                cond: filter,
            } => table.is_match(other, holes) && filter_matches(cond, filter, holes),
            _ => false,
        },
    }
}
