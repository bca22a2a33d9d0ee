ghost use Rattle.std.specs.Prelude.{◌≡◌, ◌≤◌, ℕ, List, [], ◌∷◌, false, IsErrOf};
ghost use Rattle.acra_devices.specs.Causes.{Rose};
ghost use Rattle.machine_replies.specs.Replies.{ready};
ghost use Rattle.session_model.specs.Reply.{reply_bytes};
ghost use Rattle.pg_wire.specs.declared.back.Back.TheVariants.{EmptyQuery};
ghost use Rattle.acra_block.specs.Keys.{Key};
ghost use Rattle.acra_block.specs.declared.keys.KeyView.{KeyView as View};
ghost use Rattle.lab_session.specs.Cells.{HasKey};
ghost use Rattle.lab_session.specs.Leases.{needs_lease, Lends};
ghost use Rattle.lab_session.specs.Session.{Rests, awaits_startup};
ghost use Rattle.lab_session.specs.Relaying.{IsIdle, Sends};
ghost use Rattle.lab_session.specs.Runs.{State};
ghost use Rattle.lab_session.specs.Answering.{CanAnswer, AnswerGives, ServeGives, request_of};
ghost use Rattle.lab_session.specs.declared.said.Said.TheVariants as said_as;

use crate::forward::forward;
use crate::leasing::{lend, needs_lease, no_keys};
use crate::planning::{plan_for, request_for};
use crate::refusing::refuse;
use crate::said::Said;
use crate::send::send;
use crate::stop::Stop;
use acra_base::ClientId;
use acra_block::{KeyView, OwnerKey};
use acra_devices::{Sink, SureRandom};
use keystore::Ring;
use lab_backend::{LabBackend, write_ready};
use pg_wire::{Back, Front, write_back};
use sql_tree::Statement;
use std::alloc::Global;

// Sends a statement on with its string sealed, and shows the reply, by the keys of a lease.
fn answer_leased<K: Sink>(
    alloc: Global,
    key: &OwnerKey,
    view: &KeyView,
    random: &mut SureRandom,
    backend: &mut LabBackend,
    output: &mut K,
    tree: &Statement,
) -> Result<(), Stop>
    requires view { HasKey view.now key.now }
    requires idle { IsIdle backend.old }
    requires can { CanAnswer (awaits_startup backend.old) (said_as.Asks tree.now) }
    ensures gives { (s : State) (text : List ℕ) → Rests key.now backend.old s (awaits_startup backend.old) → random.old ≡ s.coming
        → AnswerGives key.now (awaits_startup backend.old) s (request_of text (said_as.Asks tree.now)) result random.new backend.new (K.held output.old) (K.held output.new) }
    ensures later { K.write_faults output.old ≤ K.write_faults output.new }
    ensures fault { IsErrOf result Stop.WriteFault → Rose (K.write_faults output.old) (K.write_faults output.new) }
    ensures no_read { IsErrOf result Stop.ReadFault → ⊥ }
{
    match plan_for(alloc, key, random, tree) {
        Err(_) => Err(Stop::NoMemory),
        Ok(plan) => forward(alloc, view, backend, output, &plan.request, &plan.protected),
    }
}

// Sends a statement on that needs no keys, and shows the reply as it is.
fn answer_bare<K: Sink>(
    alloc: Global,
    who: &ClientId,
    backend: &mut LabBackend,
    output: &mut K,
    tree: &Statement,
) -> Result<(), Stop>
    requires bare { needs_lease tree.now ≡ false }
    requires idle { IsIdle backend.old }
    requires can { CanAnswer (awaits_startup backend.old) (said_as.Asks tree.now) }
    ensures gives { (key : Key) (keys : View) (s : State) (text : List ℕ) → HasKey keys key → Rests key backend.old s (awaits_startup backend.old)
        → AnswerGives key (awaits_startup backend.old) s (request_of text (said_as.Asks tree.now)) result s.coming backend.new (K.held output.old) (K.held output.new) }
    ensures later { K.write_faults output.old ≤ K.write_faults output.new }
    ensures fault { IsErrOf result Stop.WriteFault → Rose (K.write_faults output.old) (K.write_faults output.new) }
    ensures no_read { IsErrOf result Stop.ReadFault → ⊥ }
{
    match request_for(alloc, tree) {
        Err(_) => Err(Stop::NoMemory),
        Ok(request) => forward(alloc, &no_keys(alloc, who), backend, output, &request, &[]),
    }
}

// Answers a statement: where it needs the client's keys, under a lease, which is released after it.
fn answer_statement<K: Sink>(
    alloc: Global,
    ring: &mut Ring,
    who: &ClientId,
    random: &mut SureRandom,
    backend: &mut LabBackend,
    output: &mut K,
    tree: &Statement,
) -> Result<(), Stop>
    requires lends { (key : Key) × Lends ring.old who.now key }
    requires idle { IsIdle backend.old }
    requires can { CanAnswer (awaits_startup backend.old) (said_as.Asks tree.now) }
    ensures gives { (key : Key) (s : State) (text : List ℕ) → Lends ring.old who.now key → Rests key backend.old s (awaits_startup backend.old) → random.old ≡ s.coming
        → ServeGives key (awaits_startup backend.old) s (request_of text (said_as.Asks tree.now)) result random.new ring.old ring.new backend.old backend.new (K.held output.old) (K.held output.new) }
    ensures later { K.write_faults output.old ≤ K.write_faults output.new }
    ensures fault { IsErrOf result Stop.WriteFault → Rose (K.write_faults output.old) (K.write_faults output.new) }
    ensures no_read { IsErrOf result Stop.ReadFault → ⊥ }
{
    if !needs_lease(tree) {
        return answer_bare(alloc, who, backend, output, tree);
    }
    match lend(ring, who) {
        Err(stop) => Err(stop),
        Ok(lease) => {
            let key = &lease.currents.as_slice()[0];
            let answered = answer_leased(alloc, key, &lease.view, random, backend, output, tree);
            ring.release(lease.ticket);
            answered
        }
    }
}

// Answers a text that has no statement.
fn answer_nothing<K: Sink>(alloc: Global, output: &mut K) -> Result<(), Stop>
    ensures sent { Sends (K.held output.old) (K.held output.new) result (reply_bytes (EmptyQuery ∷ ready ∷ [])) }
    ensures later { K.write_faults output.old ≤ K.write_faults output.new }
    ensures fault { IsErrOf result Stop.WriteFault → Rose (K.write_faults output.old) (K.write_faults output.new) }
    ensures no_read { IsErrOf result Stop.ReadFault → ⊥ }
{
    let mut reply = Vec::new(alloc);
    write_back(&Back::EmptyQuery, &mut reply)?;
    write_ready(&mut reply)?;
    send(output, &reply)
}

/// Answers a request: has the backend execute a statement or the startup, and sends the client the reply.
pub fn answer<K: Sink>(
    alloc: Global,
    ring: &mut Ring,
    who: &ClientId,
    random: &mut SureRandom,
    backend: &mut LabBackend,
    output: &mut K,
    said: Said,
) -> Result<(), Stop>
    requires lends { (key : Key) × Lends ring.old who.now key }
    requires idle { IsIdle backend.old }
    requires can { CanAnswer (awaits_startup backend.old) said }
    ensures gives { (key : Key) (s : State) (text : List ℕ) → Lends ring.old who.now key → Rests key backend.old s (awaits_startup backend.old) → random.old ≡ s.coming
        → ServeGives key (awaits_startup backend.old) s (request_of text said) result random.new ring.old ring.new backend.old backend.new (K.held output.old) (K.held output.new) }
    ensures later { K.write_faults output.old ≤ K.write_faults output.new }
    ensures fault { IsErrOf result Stop.WriteFault → Rose (K.write_faults output.old) (K.write_faults output.new) }
    ensures no_read { IsErrOf result Stop.ReadFault → ⊥ }
{
    match said {
        Said::Encrypts(_) => send(output, b"N"),
        Said::Opens(params) => {
            let request = Front::Startup { params };
            forward(alloc, &no_keys(alloc, who), backend, output, &request, &[])
        }
        Said::Asks(tree) => answer_statement(alloc, ring, who, random, backend, output, &tree),
        Said::Empties => answer_nothing(alloc, output),
        Said::Refused(cause) => refuse(alloc, cause, output),
    }
}
