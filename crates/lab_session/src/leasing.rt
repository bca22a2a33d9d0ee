ghost use Rattle.std.specs.Prelude.{◌≡◌, ◌∷◌, [], ℕ, IfOk, IfErr, if◌then◌else◌, is_ok};
ghost use Rattle.std.specs.List.{list_any};
ghost use Rattle.acra_block.specs.Keys.{Key};
ghost use Rattle.session_model.specs.Rewritten.{is_protected};
ghost use Rattle.keystore.specs.Answers.{lease_of, with_lease};
ghost use Rattle.lab_session.specs.Leases.{shows_protected, needs_lease, Lends};

use crate::rewriting::{is_protected, written};
use crate::stop::Stop;
use acra_base::{ClientId, Sequence};
use acra_block::KeyView;
use keystore::{Lease, LeaseRefusal, Ring};
use sql_tree::{Item, Items, Statement};
use std::alloc::Global;

fn any_protected(items: &[Item]) -> bool
    ensures { result ≡ list_any is_protected items.now }
{
    items.iter().any(is_protected)
}

// Whether a statement shows a protected column.
fn shows_protected(tree: &Statement) -> bool
    ensures { result ≡ shows_protected tree.now }
{
    match tree {
        Statement::Select {
            items: Items::Columns(items),
            ..
        } => any_protected(items.as_slice()),
        _ => false,
    }
}

/// Whether a statement needs the client's keys: it writes a string of the protected column, or shows that column.
pub fn needs_lease(tree: &Statement) -> bool
    ensures { result ≡ needs_lease tree.now }
{
    written(tree).is_some() || shows_protected(tree)
}

/// Leases the client's live keys and its current one. It fails for want of memory alone, and then the ring stays.
pub fn lend(ring: &mut Ring, who: &ClientId) -> Result<Lease, Stop>
    requires { (key : Key) × Lends ring.old who.now key }
    ensures lease { IfOk result (λ lease. lease ≡ lease_of ring.old who.now (who.now ∷ [])) }
    ensures ring { ring.new ≡ (if is_ok result then with_lease ring.old else ring.old) }
    ensures err { IfErr result (λ stop. stop ≡ Stop.NoMemory) }
{
    match ring.lease(who, &[*who]) {
        Ok(lease) => Ok(lease),
        Err(LeaseRefusal::NoMemory) => Err(Stop::NoMemory),
        Err(LeaseRefusal::NoTicket | LeaseRefusal::NoKey { .. }) => unreachable!(),
    }
}

/// The keys of who has no lease: none.
pub fn no_keys(alloc: Global, who: &ClientId) -> KeyView
    ensures { result ≡ record { who = who.now; next_id = 0; keys = [] } }
{
    KeyView {
        who: *who,
        next_id: 0,
        keys: Sequence::new(alloc),
    }
}
