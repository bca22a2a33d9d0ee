ghost use Rattle.std.specs.Prelude.{◌≡◌, ◌≤◌, ◌+◌, ◌<◌, ◌^◌, length, IsErrOf};
ghost use Rattle.acra_devices.specs.Causes.{Rose};
ghost use Rattle.pg_wire.specs.Fronts.{IsFront, front_body};
ghost use Rattle.session_model.specs.Shown.{shown_message};
ghost use Rattle.lab_session.specs.Cells.{opened_by};
ghost use Rattle.lab_session.specs.Session.{awaits_startup};
ghost use Rattle.lab_session.specs.Relaying.{IsIdle, ForwardGives, CanSend};

use crate::relay::relay;
use crate::stop::Stop;
use acra_block::KeyView;
use acra_devices::Sink;
use lab_backend::LabBackend;
use pg_wire::{Front, write_front};
use std::alloc::Global;

/// The number under which the backend has this session.
const SESSION: u16 = 1;

/// Sends a request to the backend, which executes it, and shows its reply to the client.
pub fn forward<K: Sink>(
    alloc: Global,
    view: &KeyView,
    backend: &mut LabBackend,
    output: &mut K,
    request: &Front,
    protected: &[bool],
) -> Result<(), Stop>
    requires idle { IsIdle backend.old }
    requires sendable { CanSend (awaits_startup backend.old) request.now }
    ensures sent { ForwardGives (shown_message (opened_by view.now) protected.now) backend.old request.now result backend.new
        (K.held output.old) (K.held output.new) }
    ensures later { K.write_faults output.old ≤ K.write_faults output.new }
    ensures fault { IsErrOf result Stop.WriteFault → Rose (K.write_faults output.old) (K.write_faults output.new) }
    ensures no_read { IsErrOf result Stop.ReadFault → ⊥ }
{
    let mut bytes = Vec::new(alloc);
    write_front(request, &mut bytes)?;
    backend.feed(SESSION, &bytes)?;
    let mut reply = Vec::new(alloc);
    match backend.execute(SESSION, &mut reply) {
        Err(_) => Err(Stop::NoMemory),
        Ok(true) => relay(alloc, view, protected, &reply, output),
        Ok(false) => unreachable!(),
    }
}
