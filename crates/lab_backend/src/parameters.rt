//! Whether a statement has a parameter.

ghost use Rattle.std.specs.Prelude.{◌≡◌};
ghost use Rattle.std.specs.List.{flat_map};
ghost use Rattle.sql_tree.specs.Spelling.{cond_parameters, operand_parameters, option_parameters, parameters};
ghost use Rattle.sql_tree.specs.WellFormed.{has_one};
ghost use Rattle.sql_tree.specs.declared.statement.SetPair.{SetPair};

use acra_base::Sequence;
use sql_tree::{Cond, Operand, SetPair, Statement};

fn is_parameter(operand: &Operand) -> bool
    ensures { result ≡ has_one (operand_parameters operand.now) }
{
    matches!(operand, Operand::Parameter(_))
}

fn has_parameter_in_list(operands: &[Operand]) -> bool
    ensures { result ≡ has_one (flat_map operand_parameters operands.now) }
{
    let mut any = false;
    'operands: for operand in operands {
        any |= is_parameter(operand);
    }
    any
}

fn has_parameter_in_rows(rows: &[Sequence<Operand>]) -> bool
    ensures { result ≡ has_one (flat_map (flat_map operand_parameters) rows.now) }
{
    let mut any = false;
    'rows: for row in rows {
        any |= has_parameter_in_list(row.as_slice());
    }
    any
}

fn has_parameter_in_pairs(pairs: &[SetPair]) -> bool
    ensures { result ≡ has_one (flat_map (λ (p : SetPair). operand_parameters p.value) pairs.now) }
{
    let mut any = false;
    'pairs: for pair in pairs {
        any |= is_parameter(&pair.value);
    }
    any
}

fn has_parameter_in_cond(cond: &Cond) -> bool
    ensures { result ≡ has_one (cond_parameters cond.now) }
{
    match cond {
        Cond::And(parts) => {
            let mut any = false;
            'ands: for part in parts.as_slice() {
                any |= has_parameter_in_cond(part);
            }
            any
        }
        Cond::Or(parts) => {
            let mut any = false;
            'ors: for part in parts.as_slice() {
                any |= has_parameter_in_cond(part);
            }
            any
        }
        Cond::Not(part) => has_parameter_in_cond(part.get()),
        Cond::Compare { left, right, .. } => is_parameter(left) | is_parameter(right),
        Cond::Within { left, list } => is_parameter(left) | has_parameter_in_list(list.as_slice()),
        Cond::Null { .. } => false,
    }
}

fn has_parameter_in_filter(cond: &Option<Cond>) -> bool
    ensures { result ≡ has_one (option_parameters cond.now) }
{
    match cond {
        Some(cond) => has_parameter_in_cond(cond),
        None => false,
    }
}

/// Whether a parameter stands in the statement. It recurses as deep as the condition nests.
pub fn has_parameter(statement: &Statement) -> bool
    ensures { result ≡ has_one (parameters statement.now) }
{
    match statement {
        Statement::Select { cond, .. } => has_parameter_in_filter(cond),
        Statement::Insert { rows, .. } => has_parameter_in_rows(rows.as_slice()),
        Statement::Update { sets, cond, .. } => {
            has_parameter_in_pairs(sets.as_slice()) | has_parameter_in_filter(cond)
        }
        Statement::Delete { cond, .. } => has_parameter_in_filter(cond),
        Statement::Empty => false,
        Statement::Set { .. } => false,
    }
}
