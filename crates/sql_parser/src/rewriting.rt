//! From a text to its canonical text.

ghost use Rattle.std.specs.Prelude.{◌≡◌, ◌++◌, IfOk, IfErr, OnOk, OnErr, Ok, Err};
ghost use Rattle.sql_tree.specs.declared.statement.Statement.{Statement};
ghost use Rattle.sql_tree.specs.Canonical.{canon};
ghost use Rattle.sql_outcomes.specs.Outcome.{Outcome, IsOutcome, IsTold};
ghost use Rattle.sql_parser.specs.Rewriting.{Answers};

use crate::parsing::parse;
use acra_base::NoMemory;
use sql_outcomes::ParseFault;
use sql_tree::{Statement, print};
use std::alloc::Global;

#[tactic(none)]
fn written(statement: &Statement, out: &mut Vec<u8>) -> Result<(), ParseFault>
    ensures ok { OnOk result (out.new.items ≡ out.old.items ++ canon statement.now) }
    ensures err { OnErr result (out.new.items ≡ out.old.items) }
    ensures cause { IfErr result (λ fault. fault ≡ ParseFault.NoMemory) }
{
    match print(statement, out) {
        Ok(()) => Ok(()),
        Err(NoMemory) => Err(ParseFault::NoMemory),
    }
}

/// Appends the canonical text of the statement that a text spells. The places of refusals are bytes of the text, counted
/// from its beginning.
#[tactic(none)]
pub fn rewrite(alloc: Global, text: &[u8], limit: u32, out: &mut Vec<u8>) -> Result<(), ParseFault>
    // The canonical text of the statement that the text spells, or the text's refusal.
    ensures rewritten { IfOk result (λ _. (tree : Statement) × IsOutcome text.now limit (Ok tree) × (out.new.items ≡ out.old.items ++ canon tree)) }
    ensures refused { IfErr result (λ fault. IsTold text.now limit (Err fault)) }
    // There is no other.
    ensures only { (outcome : Outcome) → IsOutcome text.now limit outcome → Answers result outcome }
    ensures kept { OnErr result (out.new.items ≡ out.old.items) }
{
    match parse(alloc, text, limit) {
        Ok(statement) => written(&statement, out),
        Err(fault) => Err(fault),
    }
}
