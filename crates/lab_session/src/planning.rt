ghost use Rattle.std.specs.Prelude.{◌≡◌, true, IfOk, OnOk};
ghost use Rattle.hex.specs.Hex.{IsBytes};
ghost use Rattle.sql_tree.specs.Canonical.{canon};
ghost use Rattle.session_model.specs.Rewritten.{written, rewritten};
ghost use Rattle.session_model.specs.Meanings.{has_short_strings};
ghost use Rattle.lab_session.specs.Runs.{cell_for, drawn_for};
ghost use Rattle.lab_session.specs.Answering.{IsPlan, sent_text};

use crate::plan::Plan;
use crate::rewriting::{cell_for, protected_columns, rewritten_insert};
use acra_base::{Bytes, NoMemory};
use acra_block::OwnerKey;
use acra_devices::SureRandom;
use pg_wire::Front;
use sql_tree::{Statement, print};
use std::alloc::Global;

/// The request for a statement: its canonical text.
pub fn request_for(alloc: Global, tree: &Statement) -> Result<Front, NoMemory>
    ensures { IfOk result (λ request. request ≡ Front.Query (canon tree.now)) }
{
    let mut text = Vec::new(alloc);
    print(tree, &mut text)?;
    Ok(Front::Query(Bytes::from_vec(text)))
}

// The request for a statement with this cell in the place of its string.
fn request_with(alloc: Global, tree: &Statement, cell: &[u8]) -> Result<Front, NoMemory>
    ensures request { IfOk result (λ request. request ≡ Front.Query (canon (rewritten cell.now tree.now))) }
    ensures bytes { IsBytes cell.now }
{
    match tree {
        Statement::Insert {
            table,
            columns,
            rows,
        } => {
            let sent = rewritten_insert(alloc, table, columns, rows.as_slice(), cell)?;
            request_for(alloc, &sent)
        }
        _ => request_for(alloc, tree),
    }
}

// The request for a statement whose string is sealed.
fn sealed_request(
    alloc: Global,
    key: &OwnerKey,
    random: &mut SureRandom,
    tree: &Statement,
) -> Result<Front, NoMemory>
    requires { has_short_strings tree.now ≡ true }
    ensures request { IfOk result (λ request. request ≡ Front.Query (sent_text key.now random.old tree.now)) }
    ensures random { OnOk result (random.new ≡ drawn_for random.old (written tree.now)) }
    ensures bytes { OnOk result (IsBytes (cell_for key.now random.old (written tree.now))) }
{
    let cell = cell_for(alloc, key, random, tree)?;
    request_with(alloc, tree, &cell)
}

/// The plan for a statement: its string is sealed, and its canonical text is what is sent.
pub fn plan_for(
    alloc: Global,
    key: &OwnerKey,
    random: &mut SureRandom,
    tree: &Statement,
) -> Result<Plan, NoMemory>
    requires { has_short_strings tree.now ≡ true }
    ensures { IfOk result (λ plan. IsPlan key.now random.old random.new tree.now plan) }
{
    let protected = protected_columns(alloc, tree)?;
    let request = sealed_request(alloc, key, random, tree)?;
    Ok(Plan { request, protected })
}
